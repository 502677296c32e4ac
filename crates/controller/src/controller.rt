//! A controller holds a layout, a plant and the standing sessions.
use book::book::Book;
use network::layout::Layout;
use plant::Plant;

#[derive(Drop)]
pub struct Controller<L: Layout + Drop, P: Plant + Drop> {
    pub(crate) layout: L,
    pub(crate) plant: P,
    pub(crate) book: Book,
}
