//! A chain moves: its sessions exchange two wavelengths.
ghost use Rattle.std.specs.Prelude.{◌≡◌, map};
ghost use Rattle.reckoning.specs.Lists.{any};
ghost use Rattle.reckoning.specs.Plans.{swap, moved};
ghost use Rattle.reckoning.specs.Standing.{bears};
ghost use Rattle.book.specs.Moves.{shift};

use reckoning::session::Session;

/// Two wavelengths that sessions exchange.
#[derive(Clone, Copy, Default)]
pub struct Exchange {
    pub(crate) p: u8,
    pub(crate) q: u8,
}

/// Is a session of this number in the chain?
fn among(chain: &[Session], number: u32) -> bool
    ensures { result ≡ any (bears number) chain.now }
{
    chain.iter().any(|e| e.number == number)
}

impl Exchange {
    /// The other of the two, or `w` where it is neither.
    pub(crate) fn swapped(self, w: u8) -> u8
        ensures { result ≡ swap self.p self.q w }
    {
        if w == self.p {
            self.q
        } else if w == self.q {
            self.p
        } else {
            w
        }
    }

    /// The session on its other wavelength.
    pub(crate) fn moved(self, s: Session) -> Session
        ensures { result ≡ moved self.p self.q s }
    {
        Session {
            wavelength: self.swapped(s.wavelength),
            ..s
        }
    }

    /// The sessions of the chain move, wherever they stand among the rows.
    pub(crate) fn move_rows(self, rows: &mut [Session], chain: &[Session])
        ensures { rows.new ≡ map (shift chain.now self.p self.q) rows.old }
    {
        for row in rows {
            if among(chain, row.number) {
                *row = self.moved(*row);
            }
        }
    }
}
