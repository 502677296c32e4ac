//! What is real meets the premises of the law of runs: any layout, on a new hub or a new fabric.
ghost use Rattle.std.specs.Prelude.{◌≡◌, ℕ, true, List};
ghost use Rattle.book.specs.Books.{parts_in};
ghost use Rattle.controller.specs.Service.{moment};
ghost use Rattle.reckoning.specs.declared.order.Order.{Order};
ghost use Rattle.reckoning.specs.declared.session.Session.{Session};
ghost use Rattle.reckoning.specs.Parts.{is_dark};
ghost use Rattle.sheet.specs.Sheets.{Page};
ghost use Rattle.reckoning.specs.Runs.{Start};

use controller::controller::Controller;
use network::layout::Layout;
use plant::Plant;
use plant::fabric::RegisterFabric;
use plant::hub::MirrorHub;

// A sound start: a run from here keeps the law, with no premise left.
fn started<L: Layout + Drop, P: Plant + Drop>(layout: L, plant: P) -> Controller<L, P>
    requires { is_dark (P.state plant) ≡ true }
    ensures { (orders : Page Order) (rows : Page Session) (walk : List ℕ) → Start (L.network result.layout) (parts_in result.book) (moment P.Plant result orders rows walk) }
{
    Controller::new(layout, plant)
}

/// On a hub of so many wavelengths and groups.
pub(crate) fn on_hub<L: Layout + Drop>(
    layout: L,
    waves: u8,
    groups: u8,
) -> Controller<L, MirrorHub> {
    started(layout, MirrorHub::new(waves, groups))
}

/// On a fabric of so many wavelengths and groups.
pub(crate) fn on_fabric<L: Layout + Drop>(
    layout: L,
    waves: u8,
    groups: u8,
    registers: &mut [u8],
) -> Controller<L, RegisterFabric<'_>> {
    started(layout, RegisterFabric::new(registers, waves, groups))
}
