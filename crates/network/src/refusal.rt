//! Why the lists of a layout are refused.
ghost use Rattle.std.specs.Prelude.{◌≡◌};
ghost use Rattle.network.specs.Checks.{refusal_number};

#[derive(Clone, Copy, PartialEq, Eq, Debug)]
pub enum LayoutRefusal {
    SiteCount,
    PortCount,
    BranchEntries,
    BranchCount,
    BranchNumber,
}

impl LayoutRefusal {
    /// The number that stands for the refusal outside the program.
    pub fn number(self) -> u8
        ensures { result ≡ refusal_number self }
    {
        match self {
            LayoutRefusal::SiteCount => 51,
            LayoutRefusal::PortCount => 52,
            LayoutRefusal::BranchEntries => 53,
            LayoutRefusal::BranchCount => 54,
            LayoutRefusal::BranchNumber => 55,
        }
    }
}
