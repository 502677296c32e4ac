//! An order of a sheet, carried out by itself.
ghost use Rattle.std.specs.Prelude.{◌≡◌};
ghost use Rattle.plant.specs.Orders.{after, answer_to};
ghost use Rattle.reckoning.specs.Laws.{put};

use plant::Plant;
use plant::lightpath::Lightpath;
use plant::refusal::PlantRefusal;
use reckoning::order::{Kind, Order};

/// Puts the order to a plant, to light or to darken, and answers as the plant does.
pub fn carry_out<P: Plant>(order: Order, plant: &mut P) -> Result<(), PlantRefusal>
    ensures answer { result ≡ answer_to (P.state plant.old) (put order) }
    ensures after { P.state plant.new ≡ after (P.state plant.old) (put order) }
    ensures kept { P.kept plant.new ≡ P.kept plant.old }
{
    let path = Lightpath {
        wavelength: order.wavelength,
        source: order.source,
        destination: order.destination,
    };
    match order.kind {
        Kind::Darken => plant.darken(path),
        Kind::Light => plant.light(path),
    }
}
