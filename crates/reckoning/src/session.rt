//! A session that stands.

/// From site to site, on the wavelength last given it.
#[derive(Clone, Copy, PartialEq, Eq, Debug, Default)]
pub struct Session {
    pub number: u32,
    pub source: u8,
    pub destination: u8,
    pub wavelength: u8,
}
