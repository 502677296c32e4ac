//! How much of a sheet is written, and how much could be.
ghost use Rattle.std.specs.Prelude.{◌≡◌, length};
ghost use Rattle.sheet.specs.Pages.{page_of};

use crate::sheet::Sheet;

impl<'a, T: Copy> Sheet<'a, T> {
    /// How many records are written.
    pub fn len(&self) -> usize
        ensures { result ≡ (page_of self.now).count }
    {
        self.count
    }

    /// How many places there are, written or not.
    pub fn room(&self) -> usize
        ensures { result ≡ length (page_of self.now).places }
    {
        self.places.len()
    }
}
