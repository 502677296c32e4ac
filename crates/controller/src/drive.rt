//! The plant is driven: a chain changes over and a lightpath is lit, or one is put out for good.
ghost use Rattle.std.specs.Prelude.{◌≡◌};
ghost use Rattle.book.specs.Calls.{changes, darkens};
ghost use Rattle.plant.specs.Orders.{until_refused};

use book::change::Change;
use plant::Plant;
use plant::change_over::change_over;
use plant::lightpath::Lightpath;
use plant::refusal::PlantRefusal;
use plant::slip::put_out;

/// Puts the orders of an admission to the plant, up to the first that it refuses.
pub(crate) fn change<P: Plant>(plant: &mut P, change: &Change) -> Result<(), PlantRefusal>
    ensures after { P.state plant.new ≡ until_refused (P.state plant.old) (changes change.now) }
    ensures kept { P.kept plant.new ≡ P.kept plant.old }
{
    change_over(plant, &change.chain[..change.moves as usize])?;
    plant.light(change.path)
}

/// Puts a lightpath out for good.
pub(crate) fn darken<P: Plant>(plant: &mut P, path: Lightpath) -> Result<(), PlantRefusal>
    ensures after { P.state plant.new ≡ until_refused (P.state plant.old) (darkens path) }
    ensures kept { P.kept plant.new ≡ P.kept plant.old }
{
    put_out(plant, path)
}
