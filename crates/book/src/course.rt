//! What an admission comes to, before anything is changed.

use crate::moving::Exchange;

/// Where no session has to move, the chain is empty.
#[derive(Clone, Copy, Default)]
pub struct Course {
    // the wavelength that the new session gets
    pub(crate) gives: u8,
    pub(crate) exchange: Exchange,
    // where the moving chain begins in the walk list, and its length
    pub(crate) begin: usize,
    pub(crate) moves: usize,
}
