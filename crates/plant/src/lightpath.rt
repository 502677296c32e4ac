//! What a plant lights and darkens.

/// A wavelength, and the source and destination groups that it joins.
#[derive(Clone, Copy, PartialEq, Eq, Debug, Default)]
pub struct Lightpath {
    pub wavelength: u8,
    pub source: u8,
    pub destination: u8,
}
