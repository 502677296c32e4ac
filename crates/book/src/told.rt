//! Making asks layout and plant once, and keeps their answers.
ghost use Rattle.std.specs.Prelude.{◌≡◌, []};
ghost use Rattle.reckoning.specs.Parts.{quiet, dark_below, is_dark, parts_told};
ghost use Rattle.book.specs.Standing.{parts_of};
ghost use Rattle.book.specs.Books.{parts_in, standing_in};

use crate::book::Book;
use crate::masks::Masks;
use crate::setting::{Setting, Site};
use arrayvec::ArrayVec;
use network::layout::Layout;
use plant::Plant;

// No group hears any on the wavelength.
fn quiet_on<P: Plant>(plant: &P, w: u8) -> bool
    ensures { result ≡ quiet (P.state plant.now).hears w (P.state plant.now).groups }
{
    (0..plant.groups()).all(|b| plant.heard(w, b).is_none())
}

// No group hears any on the first `n` wavelengths.
fn is_dark_below<P: Plant>(plant: &P, n: u8) -> bool
    ensures { result ≡ dark_below (P.state plant.now).hears (P.state plant.now).groups n }
{
    (0..n).all(|w| quiet_on(plant, w))
}

fn is_dark<P: Plant>(plant: &P) -> bool
    ensures { result ≡ is_dark (P.state plant.now) }
{
    is_dark_below(plant, plant.waves())
}

fn told<L: Layout, P: Plant>(layout: &L, plant: &P) -> Setting
    ensures { parts_of result ≡ parts_told (L.network layout.now) (P.state plant.now) }
{
    let mut sites = ArrayVec::new();
    for s in 0..layout.sites() {
        sites.push(Site {
            ports: layout.ports(s),
            group: layout.group(s),
        });
    }
    Setting {
        sites,
        groups: layout.groups(),
        waves: plant.waves(),
        span: plant.groups(),
        dark: is_dark(plant),
    }
}

impl Book {
    fn empty(setting: Setting) -> Book
        ensures setting { result.setting ≡ setting }
        ensures none { standing_in result ≡ [] }
    {
        Book {
            setting,
            rows: ArrayVec::new(),
            outward: Masks::default(),
            inward: Masks::default(),
        }
    }

    /// A book with no sessions, for the parts as they are now.
    pub fn new<L: Layout, P: Plant>(layout: &L, plant: &P) -> Book
        ensures parts { parts_in result ≡ parts_told (L.network layout.now) (P.state plant.now) }
        ensures none { standing_in result ≡ [] }
    {
        Book::empty(told(layout, plant))
    }
}
