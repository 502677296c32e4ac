//! A controller is made of a layout and a plant.
ghost use Rattle.controller.specs.Service.{Made};

use crate::controller::Controller;
use book::book::Book;
use network::layout::Layout;
use plant::Plant;

impl<L: Layout + Drop, P: Plant + Drop> Controller<L, P> {
    fn assemble(layout: L, plant: P) -> Controller<L, P>
        ensures { Made L.Layout P.Plant layout plant result }
    {
        let book = Book::new(&layout, &plant);
        Controller {
            layout,
            plant,
            book,
        }
    }

    /// With no sessions yet. Where the parts do not fit, or the plant is lit, every call refuses.
    pub fn new(layout: L, plant: P) -> Controller<L, P>
        ensures { Made L.Layout P.Plant layout plant result }
    {
        Controller::assemble(layout, plant)
    }
}
