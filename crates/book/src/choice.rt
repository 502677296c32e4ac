//! Which wavelength a new session gets, and which chain makes way for it.
ghost use Rattle.std.specs.Prelude.{◌≡◌, ◌<◌, ◌≤◌, not, ◌&&◌, IfSome, IfNone};
ghost use Rattle.reckoning.specs.Lists.{lowest};
ghost use Rattle.reckoning.specs.Standing.{lit_out, lit_into};
ghost use Rattle.book.specs.Books.{parts_in, standing_in};
ghost use Rattle.book.specs.Courses.{Open, Chosen};

use crate::book::Book;
use crate::course::Course;
use crate::key::Key;
use crate::masks::lowest_free;
use crate::moving::Exchange;

impl Book {
    /// The lowest wavelength that is free out of group `a` and into group `b`.
    fn free_at_both(&self, a: u8, b: u8) -> Option<u8>
        requires { (a < 32) × (b < 32) }
        ensures found { IfSome result (λ w. (w < (parts_in self.now).wavelengths) × (w ≡ lowest (λ v. not (lit_out (parts_in self.now).group (standing_in self.now) a v) && not (lit_into (parts_in self.now).group (standing_in self.now) b v)) (parts_in self.now).wavelengths)) }
        ensures none { IfNone result ((parts_in self.now).wavelengths ≤ lowest (λ v. not (lit_out (parts_in self.now).group (standing_in self.now) a v) && not (lit_into (parts_in self.now).group (standing_in self.now) b v)) (parts_in self.now).wavelengths) }
    {
        lowest_free(self.outward.at(a) | self.inward.at(b), self.setting.waves)
    }

    /// The wavelength that a session from group `a` to group `b` gets, and the chain that moves; writes the walk list where
    /// no wavelength is free at both ends.
    pub(crate) fn choose(&self, a: u8, b: u8, walk: &mut [u16]) -> Course
        requires { Open (parts_in self.now) (standing_in self.now) a b walk.old }
        ensures { Chosen (parts_in self.now) (standing_in self.now) a b walk.old walk.new result }
    {
        if let Some(gives) = self.free_at_both(a, b) {
            return Course {
                gives,
                ..Course::default()
            };
        }
        // neither end is full
        let p = self.outward.free(a, self.setting.waves).unwrap();
        let q = self.inward.free(b, self.setting.waves).unwrap();
        let exchange = Exchange { p, q };
        let first = self.look_up(Key::Out(q, a));
        let m = self.follow(exchange, first, walk);
        let second = self.look_up(Key::Into(p, b));
        let n = self.follow(exchange, second, &mut walk[m..]);
        if m <= n {
            Course {
                gives: q,
                exchange,
                begin: 0,
                moves: m,
            }
        } else {
            Course {
                gives: p,
                exchange,
                begin: m,
                moves: n,
            }
        }
    }
}
