//! The standing sessions, and for each group the wavelengths lit out of it and into it.
ghost use Rattle.std.specs.Prelude.{◌≡◌, ℕ, ◌<◌, true, slice_index};
ghost use Rattle.reckoning.specs.Masks.{out_mask, into_mask};
ghost use Rattle.reckoning.specs.Soundness.{sound_test};
ghost use Rattle.book.specs.Standing.{parts_of, standing};

use crate::masks::Masks;
use crate::setting::Setting;
use arrayvec::ArrayVec;
use reckoning::session::Session;

/// At most as many sessions can stand as there are pairs of a wavelength and a group.
#[derive(Drop)]
pub struct Book {
    pub(crate) setting: Setting,
    // the oldest first
    pub(crate) rows: ArrayVec<Session, 1024>,
    pub(crate) outward: Masks,
    pub(crate) inward: Masks,
    ghost sound: { sound_test (parts_of setting) (standing rows) ≡ true },
    ghost leaving: { (a : ℕ) → a < 32 → slice_index outward.lit a ≡ out_mask (parts_of setting) (standing rows) a },
    ghost entering: { (b : ℕ) → b < 32 → slice_index inward.lit b ≡ into_mask (parts_of setting) (standing rows) b },
}
