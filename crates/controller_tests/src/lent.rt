//! What is written on a sheet lies in its caller's memory, also once the sheet is gone.
ghost use Rattle.std.specs.Prelude.{◌≡◌, ◌<◌, length, slice_set};

use reckoning::order::Order;
use sheet::sheet::Sheet;

// Afterwards the first of the places has the order.
pub(crate) fn write_first(places: &mut [Order], order: Order)
    ensures { 0 < length places.old → places.new ≡ slice_set places.old 0 order }
{
    let mut orders = Sheet::new(places);
    let _ = orders.put(order);
}
