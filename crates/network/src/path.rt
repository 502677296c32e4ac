//! The fibres that a session lights in every layout here.
ghost use Rattle.std.specs.Prelude.{◌≡◌, ◌≤◌};
ghost use Rattle.network.specs.Network.{two_sites, up_or_down};

/// `source` and `destination` are two different sites.
pub(crate) fn two_sites(sites: u8, source: u8, destination: u8) -> bool
    ensures { result ≡ two_sites sites source destination }
{
    source < sites && destination < sites && source != destination
}

/// Of the fibres from `first` on, `fibre` is the up-fibre of `from` or the down-fibre of `to`.
pub(crate) fn up_or_down(first: u16, from: u8, to: u8, fibre: u16) -> bool
    requires { first ≤ 256 }
    ensures { result ≡ up_or_down first from to fibre }
{
    fibre == first + 2 * u16::from(from) || fibre == first + 2 * u16::from(to) + 1
}
