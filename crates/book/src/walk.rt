//! Alternating paths of sessions, written as codes.
ghost use Rattle.std.specs.Prelude.{◌≡◌, ◌≤◌, length};
ghost use Rattle.reckoning.specs.Plans.{next};
ghost use Rattle.reckoning.specs.Sheets.{code, codes};
ghost use Rattle.book.specs.Standing.{parts_of};
ghost use Rattle.book.specs.Books.{parts_in, standing_in};
ghost use Rattle.book.specs.Walks.{chained, laid};

use crate::book::Book;
use crate::key::Key;
use crate::moving::Exchange;
use crate::setting::Setting;
use reckoning::session::Session;

impl Setting {
    /// Wavelength × 32 + source group, which names one standing session.
    pub(crate) fn code(&self, s: Session) -> u16
        ensures { result ≡ code (parts_of self.now).group s }
    {
        s.wavelength as u16 * 32 + self.group_of(s.source) as u16
    }
}

impl Book {
    /// The session after `s` in a chain on two wavelengths.
    fn follower(&self, exchange: Exchange, s: Session) -> Option<Session>
        ensures { result ≡ next (parts_in self.now).group (standing_in self.now) exchange.p exchange.q s }
    {
        if s.wavelength == exchange.q {
            self.look_up(Key::Into(exchange.p, self.setting.group_of(s.destination)))
        } else if s.wavelength == exchange.p {
            self.look_up(Key::Out(exchange.q, self.setting.group_of(s.source)))
        } else {
            None
        }
    }

    /// Writes the codes of the chain that begins with `start`, and tells how many they are.
    pub(crate) fn follow(
        &self,
        exchange: Exchange,
        start: Option<Session>,
        walk: &mut [u16],
    ) -> usize
        requires { length (chained (parts_in self.now) (standing_in self.now) exchange.p exchange.q start) ≤ length walk.old }
        ensures count { result ≡ length (chained (parts_in self.now) (standing_in self.now) exchange.p exchange.q start) }
        ensures written { walk.new ≡ laid (codes (parts_in self.now).group (chained (parts_in self.now) (standing_in self.now) exchange.p exchange.q start)) walk.old }
    {
        let most = walk.len().min(2 * self.setting.span as usize);
        let mut next = start;
        for (i, place) in walk[..most].iter_mut().enumerate() {
            let Some(s) = next else {
                return i;
            };
            *place = self.setting.code(s);
            next = self.follower(exchange, s);
        }
        most
    }
}
