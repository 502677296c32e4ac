//! What is heard on the plant of a controller.
ghost use Rattle.std.specs.Prelude.{◌≡◌};

use crate::controller::Controller;
use network::layout::Layout;
use plant::Plant;

impl<L: Layout + Drop, P: Plant + Drop> Controller<L, P> {
    /// The source group that group `b` hears on wavelength `w`, or none.
    pub fn heard(&self, w: u8, b: u8) -> Option<u8>
        ensures { result ≡ (P.state self.now.plant).hears w b }
    {
        self.plant.heard(w, b)
    }
}
