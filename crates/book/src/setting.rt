//! What layout and plant told when the controller was made.
ghost use Rattle.std.specs.Prelude.{ℕ, ◌<◌, ◌≤◌, slice_get};
ghost use Rattle.arrayvec.specs.ArrayVec.{array_vec_len};
ghost use Rattle.book.specs.Sites.{group_there};

use arrayvec::ArrayVec;

#[derive(Clone, Copy, Default)]
pub struct Site {
    pub(crate) ports: u8,
    pub(crate) group: u8,
}

#[derive(Drop)]
pub struct Setting {
    pub(crate) sites: ArrayVec<Site, 128>,
    pub(crate) groups: u8,
    pub(crate) waves: u8,
    // as many groups as the plant counts
    pub(crate) span: u8,
    pub(crate) dark: bool,
    ghost small: { (groups ≤ 32) × (waves ≤ 32) × (span ≤ 32) × (array_vec_len sites ≤ 128) },
    ghost grouped: { (s : ℕ) → s < array_vec_len sites → group_there groups (slice_get sites.items s) < groups },
}
