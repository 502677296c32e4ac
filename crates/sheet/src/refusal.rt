//! Why a sheet refuses.
ghost use Rattle.std.specs.Prelude.{◌≡◌};
ghost use Rattle.sheet.specs.Sheets.{refusal_number};

#[derive(Clone, Copy, PartialEq, Eq, Debug)]
pub enum SheetRefusal {
    Full,
    Unwritten,
}

impl SheetRefusal {
    /// The number that stands for the refusal outside the program.
    pub fn number(self) -> u8
        ensures { result ≡ refusal_number self }
    {
        match self {
            SheetRefusal::Full => 41,
            SheetRefusal::Unwritten => 42,
        }
    }
}
