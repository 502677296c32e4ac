//! A sheet: some of the places are written, from the first on.
ghost use Rattle.std.specs.Prelude.{◌≤◌, length};

#[derive(Drop)]
pub struct Sheet<'a, T: Copy> {
    pub(crate) places: &'a mut [T],
    pub(crate) count: usize,
    ghost within: { count ≤ length places.now },
}
