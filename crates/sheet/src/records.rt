//! What a sheet does with its records.
ghost use Rattle.std.specs.Prelude.{◌≡◌, [], Some};
ghost use Rattle.sheet.specs.Pages.{page_of};
ghost use Rattle.sheet.specs.Sheets.{put_answer, record_at, records, rewritten, with_record};

use crate::refusal::SheetRefusal;
use crate::sheet::Sheet;

impl<'a, T: Copy> Sheet<'a, T> {
    /// An empty sheet over the places, which keep what they hold.
    pub fn new(places: &'a mut [T]) -> Sheet<'a, T>
        ensures { page_of result ≡ record { memory = places.entry.ghost_name; count = 0; places = places.old } }
    {
        Sheet { places, count: 0 }
    }

    /// The records that are written.
    pub fn as_slice(&self) -> &[T]
        ensures { result.now ≡ records (page_of self.now) }
    {
        &self.places[..self.count]
    }

    /// The record at `i`, of those written.
    pub fn read(&self, i: usize) -> Result<T, SheetRefusal>
        ensures { result ≡ record_at (records (page_of self.now)) i }
    {
        self.as_slice()
            .get(i)
            .copied()
            .ok_or(SheetRefusal::Unwritten)
    }

    /// Empties the sheet; its places keep what they hold.
    pub fn clear(&mut self)
        ensures { page_of self.new ≡ rewritten (Some []) (page_of self.old) }
    {
        self.count = 0;
    }

    /// Writes one record more, where a place is unused.
    pub fn put(&mut self, item: T) -> Result<(), SheetRefusal>
        ensures answer { result ≡ put_answer (page_of self.old) }
        ensures page { page_of self.new ≡ with_record (page_of self.old) item }
    {
        if self.count == self.places.len() {
            return Err(SheetRefusal::Full);
        }
        self.places[self.count] = item;
        self.count += 1;
        Ok(())
    }
}
