//! The rows change: a session enters, and the chain that makes way for it moves; or a session goes.
ghost use Rattle.std.specs.Prelude.{◌≡◌, ◌<◌, true, ◌∷◌, map, length};
ghost use Rattle.reckoning.specs.Soundness.{sound_test};
ghost use Rattle.reckoning.specs.Standing.{without};
ghost use Rattle.book.specs.Books.{parts_in, standing_in};
ghost use Rattle.book.specs.Moves.{shift};

use crate::book::Book;
use crate::moving::Exchange;
use reckoning::session::Session;

impl Book {
    /// The session `s` stands from now on, once the chain has moved.
    pub(crate) fn enter(&mut self, chain: &[Session], exchange: Exchange, s: Session)
        requires room { length (standing_in self.old) < 1024 }
        requires sound { sound_test (parts_in self.old) (s ∷ map (shift chain.now exchange.p exchange.q) (standing_in self.old)) ≡ true }
        ensures setting { self.new.setting ≡ self.old.setting }
        ensures stands { standing_in self.new ≡ s ∷ map (shift chain.now exchange.p exchange.q) (standing_in self.old) }
    {
        exchange.move_rows(&mut self.rows, chain);
        self.rows.push(s);
        (self.outward, self.inward) = self.setting.masks(&self.rows);
    }

    /// No session of this number stands from now on.
    pub(crate) fn leave(&mut self, number: u32)
        ensures setting { self.new.setting ≡ self.old.setting }
        ensures stands { standing_in self.new ≡ without (standing_in self.old) number }
    {
        self.rows.retain(|row| row.number != number);
        (self.outward, self.inward) = self.setting.masks(&self.rows);
    }
}
