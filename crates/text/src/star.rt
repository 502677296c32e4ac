//! A star of four sites with two ports each, on a hub of two wavelengths, served by text.
ghost use Rattle.network.specs.Network.{star};
ghost use Rattle.plant.specs.Mirrors.{mirror_switch};
ghost use Rattle.reckoning.specs.Parts.{is_dark};
ghost use Rattle.std.specs.Prelude.{◌≡◌, true, IfOk, string_bytes, OnOk};
ghost use Rattle.text.specs.Stars.{NewRun, StarRun, dark_hub, four_sites, new_bytes, star_bytes};

use crate::serve::serve_text;
use controller::controller::Controller;
use network::layout::Layout;
use network::star::Star;
use plant::Plant;
use plant::hub::MirrorHub;
use reckoning::order::Order;
use reckoning::session::Session;
use sheet::sheet::Sheet;
use std::alloc::{AllocError, Global};

/// Serves a text on a new controller, with sheets that are ample for four groups and two wavelengths.
fn serve_new<L: Layout + Drop, P: Plant + Drop>(
    alloc: Global,
    layout: L,
    plant: P,
    text: &[u8],
) -> Result<String, AllocError>
    ensures bytes { IfOk result (λ s. string_bytes s ≡ new_bytes (L.network layout) (P.state plant) text.now) }
    ensures law { OnOk result (is_dark (P.state plant) ≡ true → NewRun (L.network layout) (P.state plant) text.now) }
{
    let mut controller = Controller::new(layout, plant);
    let mut order_places = [Order::default(); 7];
    let mut row_places = [Session::default(); 8];
    let mut walk = [0; 6];
    let mut orders = Sheet::new(&mut order_places);
    let mut rows = Sheet::new(&mut row_places);
    serve_text(
        alloc,
        &mut controller,
        text,
        &mut orders,
        &mut rows,
        &mut walk,
    )
}

/// Four sites with two ports each.
fn four_sites() -> Star
    ensures { star result.ports.items ≡ four_sites }
{
    Star::new(&[2, 2, 2, 2])
}

/// A hub of two wavelengths for them, on which nothing is lit.
fn dark_hub() -> MirrorHub
    ensures { mirror_switch result.waves result.groups result.mirrors ≡ dark_hub }
{
    MirrorHub::new(2, 4)
}

/// Serves a text on the star from nothing: no session stands yet. The law of runs holds, with no premise.
pub fn star_text(alloc: Global, text: &[u8]) -> Result<String, AllocError>
    ensures bytes { IfOk result (λ s. string_bytes s ≡ star_bytes text.now) }
    ensures law { OnOk result (StarRun text.now) }
{
    serve_new(alloc, four_sites(), dark_hub(), text)
}
