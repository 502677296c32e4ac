//! What a controller can be asked.

/// A call with its numbers, which need not name any session or site.
#[derive(Clone, Copy, PartialEq, Eq, Debug)]
pub enum Call {
    /// Let a new session stand, with at most `limit` others moved to another wavelength.
    Admit {
        number: u32,
        source: u32,
        destination: u32,
        limit: u32,
    },
    Release {
        number: u32,
    },
    /// What an admission without a limit would answer.
    Quote {
        number: u32,
        source: u32,
        destination: u32,
    },
    Where {
        number: u32,
    },
    List,
}
