//! What a session is looked for by.

#[derive(Clone, Copy)]
pub enum Key {
    Number(u32),
    // out of a group or into it, on a wavelength
    Out(u8, u8),
    Into(u8, u8),
    // from a site or to it
    From(u8),
    To(u8),
}
