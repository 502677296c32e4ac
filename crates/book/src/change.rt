//! What a plant is to do for a session that was admitted.
ghost use Rattle.std.specs.Prelude.{◌≤◌};

use plant::change_over::Retuning;
use plant::lightpath::Lightpath;

/// The first `moves` of the chain change over, and then the new lightpath is lit.
// an array and its count, since a vector is not copied
#[derive(Clone, Copy)]
pub struct Change {
    pub moves: u8,
    pub chain: [Retuning; 32],
    pub path: Lightpath,
    ghost few: { moves ≤ 32 },
}
