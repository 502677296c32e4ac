//! For each group the wavelengths that are lit at it.
ghost use Rattle.std.specs.Prelude.{◌≡◌, ℕ, ◌<◌, reverse, count_ones, slice_index};
ghost use Rattle.std.specs.Int.{w32, trailing_ones};
ghost use Rattle.reckoning.specs.Masks.{out_mask, into_mask};
ghost use Rattle.book.specs.Moves.{found_below, marked};
ghost use Rattle.book.specs.Standing.{parts_of};

use crate::setting::Setting;
use reckoning::session::Session;

/// By group, a bit for each wavelength.
#[derive(Clone, Copy, Default)]
pub struct Masks {
    pub(crate) lit: [u32; 32],
}

/// The lowest of the first `waves` wavelengths that is not lit.
pub(crate) fn lowest_free(lit: u32, waves: u8) -> Option<u8>
    ensures { result ≡ found_below waves (trailing_ones w32 lit) }
{
    let w = lit.trailing_ones();
    if w < waves as u32 {
        Some(w as u8)
    } else {
        None
    }
}

impl Masks {
    /// Lights wavelength `w` at a group.
    fn light(&mut self, group: u8, w: u8)
        ensures { (a : ℕ) → a < 32 → slice_index self.new.lit a ≡ marked group w a (slice_index self.old.lit a) }
    {
        if group < 32 && w < 32 {
            self.lit[group as usize] |= 1 << w;
        }
    }

    /// The wavelengths that are lit at a group.
    pub(crate) fn at(&self, group: u8) -> u32
        requires { group < 32 }
        ensures { result ≡ slice_index self.now.lit group }
    {
        self.lit[group as usize]
    }

    /// How many wavelengths are lit at a group.
    pub(crate) fn load(&self, group: u8) -> u32
        requires { group < 32 }
        ensures { result ≡ count_ones (slice_index self.now.lit group) }
    {
        self.at(group).count_ones()
    }

    /// The lowest of the first `waves` wavelengths that is not lit at a group.
    pub(crate) fn free(&self, group: u8, waves: u8) -> Option<u8>
        requires { group < 32 }
        ensures { result ≡ found_below waves (trailing_ones w32 (slice_index self.now.lit group)) }
    {
        lowest_free(self.at(group), waves)
    }
}

impl Setting {
    /// What the sessions light out of each group, and what into each.
    pub(crate) fn masks(&self, rows: &[Session]) -> (Masks, Masks)
        ensures leaving { (a : ℕ) → a < 32 → slice_index result.0.lit a ≡ out_mask (parts_of self.now) (reverse rows.now) a }
        ensures entering { (b : ℕ) → b < 32 → slice_index result.1.lit b ≡ into_mask (parts_of self.now) (reverse rows.now) b }
    {
        let mut outward = Masks::default();
        let mut inward = Masks::default();
        for s in rows {
            outward.light(self.group_of(s.source), s.wavelength);
            inward.light(self.group_of(s.destination), s.wavelength);
        }
        (outward, inward)
    }
}
