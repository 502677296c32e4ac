//! What a tenant asks for.

/// A session to be, by its number and the sites that it goes between. They need not name any.
#[derive(Clone, Copy, PartialEq, Eq, Debug)]
pub struct Demand {
    pub number: u32,
    pub source: u32,
    pub destination: u32,
}
