//! What a layout tells, and the laws that it keeps.
ghost use Rattle.std.specs.Prelude.{◌≡◌, ◌≤◌};
ghost use Rattle.network.specs.Network.{Network, Bounded, Outside, Grouped, Separate, Meeting};

/// A layout. Its meaning is a network: the counts, the ports and the group of each site, and what each session lights.
pub trait Layout {
    ghost network: { Self → Network };

    fn sites(&self) -> u8
        ensures value { result ≡ (network self.now).sites }
        ensures few { result ≤ 128 };

    fn groups(&self) -> u8
        ensures value { result ≡ (network self.now).groups }
        ensures few { result ≤ 32 };

    fn fibres(&self) -> u16
        ensures { result ≡ (network self.now).fibres };

    /// 0 for a number that is no site.
    fn ports(&self, site: u8) -> u8
        ensures value { result ≡ (network self.now).ports site }
        ensures few { result ≤ 32 };

    /// The number of groups for a number that is no site.
    fn group(&self, site: u8) -> u8
        ensures value { result ≡ (network self.now).group site }
        ensures few { result ≤ 32 };

    /// Does the session from `source` to `destination` light `fibre`?
    fn lights(&self, source: u8, destination: u8, fibre: u16) -> bool
        ensures { result ≡ (network self.now).lights source destination fibre };

    ghost bounded: { (x : Self) → Bounded (network x) };

    ghost outside: { (x : Self) → Outside (network x) };

    ghost grouped: { (x : Self) → Grouped (network x) };

    ghost separate: { (x : Self) → Separate (network x) };

    // apart from the others: none of them leans on it
    ghost meeting: { (x : Self) → Meeting (network x) };
}
