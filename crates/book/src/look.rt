//! Look-ups in the rows.
ghost use Rattle.std.specs.Prelude.{◌≡◌, count_by};
ghost use Rattle.reckoning.specs.Lists.{first};
ghost use Rattle.book.specs.Standing.{parts_of};
ghost use Rattle.book.specs.Books.{parts_in, standing_in};
ghost use Rattle.book.specs.Keys.{suits};

use crate::book::Book;
use crate::key::Key;
use crate::setting::Setting;
use reckoning::session::Session;

impl Setting {
    /// The group of a site, or the number of groups for a number that is no site.
    pub(crate) fn group_of(&self, site: u8) -> u8
        ensures { result ≡ (parts_of self.now).group site }
    {
        self.sites
            .get(site as usize)
            .map_or(self.groups, |s| s.group)
    }

    /// The ports of a site, or 0 for a number that is no site.
    pub(crate) fn ports_of(&self, site: u8) -> u8
        ensures { result ≡ (parts_of self.now).ports site }
    {
        self.sites.get(site as usize).map_or(0, |s| s.ports)
    }

    // Is it the session that the key names?
    fn suits(&self, key: Key, s: Session) -> bool
        ensures { result ≡ suits (parts_of self.now).group key s }
    {
        match key {
            Key::Number(number) => s.number == number,
            Key::Out(w, a) => s.wavelength == w && self.group_of(s.source) == a,
            Key::Into(w, b) => s.wavelength == w && self.group_of(s.destination) == b,
            Key::From(site) => s.source == site,
            Key::To(site) => s.destination == site,
        }
    }
}

impl Book {
    /// The session that the key names.
    pub(crate) fn look_up(&self, key: Key) -> Option<Session>
        ensures { result ≡ first (suits (parts_in self.now).group key) (standing_in self.now) }
    {
        self.rows
            .iter()
            .rev()
            .find(|s| self.setting.suits(key, **s))
            .copied()
    }

    /// How many sessions the key names.
    pub(crate) fn tell(&self, key: Key) -> usize
        ensures { result ≡ count_by (suits (parts_in self.now).group key) (standing_in self.now) }
    {
        self.rows
            .iter()
            .filter(|s| self.setting.suits(key, **s))
            .count()
    }
}
