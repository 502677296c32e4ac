//! The table of the standing sessions, by wavelength, then source group.
ghost use Rattle.std.specs.Prelude.{◌≡◌, ℕ, ◌+◌, ◌≤◌, List, ◌++◌, length, Some};
ghost use Rattle.reckoning.specs.Calls.{list};
ghost use Rattle.sheet.specs.Pages.{page_of};
ghost use Rattle.sheet.specs.Sheets.{records, rewritten};
ghost use Rattle.reckoning.specs.Sheets.{rows_of};
ghost use Rattle.book.specs.Books.{parts_in, standing_in};
ghost use Rattle.book.specs.Calls.{list_answer, rows_on};

use crate::book::Book;
use crate::key::Key;
use crate::questions::ask;
use crate::refusal::CallRefusal;
use reckoning::session::Session;
use sheet::sheet::Sheet;

impl Book {
    fn standing(&self) -> usize
        ensures { result ≡ length (standing_in self.now) }
    {
        self.rows.len()
    }

    // The sessions on one wavelength, behind those that are written.
    fn write_rows_on(&self, w: u8, rows: &mut Sheet<Session>)
        requires { (page_of rows.old).count + length (rows_on (parts_in self.now) (standing_in self.now) w) ≤ length (page_of rows.old).places }
        ensures { page_of rows.new ≡ rewritten (Some (records (page_of rows.old) ++ rows_on (parts_in self.now) (standing_in self.now) w)) (page_of rows.old) }
    {
        for a in 0..self.setting.span {
            if let Some(s) = self.look_up(Key::Out(w, a)) {
                let _ = rows.put(s);
            }
        }
    }

    fn write_rows(&self, rows: &mut Sheet<Session>)
        requires { length (rows_of (parts_in self.now) (standing_in self.now)) ≤ length (page_of rows.old).places }
        ensures { page_of rows.new ≡ rewritten (Some (rows_of (parts_in self.now) (standing_in self.now))) (page_of rows.old) }
    {
        rows.clear();
        for w in 0..self.setting.waves {
            self.write_rows_on(w, rows);
        }
    }

    /// Writes the standing sessions, and tells how many they are.
    pub fn list(&self, rows: &mut Sheet<Session>) -> Result<usize, CallRefusal>
        ensures same { rows.new.places.ghost_name ≡ rows.old.places.ghost_name }
        ensures room { length (page_of rows.new).places ≡ length (page_of rows.old).places }
        ensures answer { (walk : List ℕ) → list_answer result ≡ (list (parts_in self.now) (record { orders = 0; rows = length (page_of rows.old).places }) (standing_in self.now) walk).answer }
        ensures rows { (walk : List ℕ) → (page_of rows.new) ≡ rewritten (list (parts_in self.now) (record { orders = 0; rows = length (page_of rows.old).places }) (standing_in self.now) walk).rows (page_of rows.old) }
    {
        self.ask_fit()?;
        let standing = self.standing();
        ask(standing <= rows.room(), CallRefusal::RowRoom)?;
        self.write_rows(rows);
        Ok(standing)
    }
}
