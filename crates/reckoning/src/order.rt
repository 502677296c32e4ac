//! What a plant is told to do.

/// Darkening takes a lightpath down, lighting sets it up.
#[derive(Clone, Copy, PartialEq, Eq, Debug, Default)]
pub enum Kind {
    #[default]
    Darken = 1,
    Light = 2,
}

/// One lightpath, from group to group, and the session that it serves.
#[derive(Clone, Copy, PartialEq, Eq, Debug, Default)]
pub struct Order {
    pub kind: Kind,
    pub wavelength: u8,
    pub source: u8,
    pub destination: u8,
    pub session: u32,
}
