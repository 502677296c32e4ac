//! The sessions of a chain, read back from its codes.
ghost use Rattle.std.specs.Prelude.{◌≡◌, ◌≤◌, map, length};
ghost use Rattle.book.specs.Books.{parts_in, standing_in};
ghost use Rattle.book.specs.Moves.{session_at};

use crate::book::Book;
use crate::key::Key;
use arrayvec::ArrayVec;
use reckoning::session::Session;

impl Book {
    /// The session that a code names.
    fn session_at(&self, code: u16) -> Session
        ensures { result ≡ session_at (parts_in self.now) (standing_in self.now) code }
    {
        self.look_up(Key::Out((code / 32 % 256) as u8, (code % 32) as u8))
            .unwrap_or_default()
    }

    /// The sessions that the codes name.
    pub(crate) fn sessions_at(&self, codes: &[u16]) -> ArrayVec<Session, 32>
        requires { length codes.now ≤ 32 }
        ensures { result.items ≡ map (session_at (parts_in self.now) (standing_in self.now)) codes.now }
    {
        let mut chain = ArrayVec::new();
        for code in codes {
            chain.push(self.session_at(*code));
        }
        chain
    }
}
