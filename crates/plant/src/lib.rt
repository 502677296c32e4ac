//! Plants: switches that light and darken lightpaths. Two makes stand under one contract, and a slip stands for what was taken down.
#![tactic(auto)]

pub mod change_over;
pub mod fabric;
pub mod hub;
pub mod lightpath;
mod make;
pub mod refusal;
pub mod slip;

ghost use Rattle.std.specs.Prelude.{◌≡◌};
ghost use Rattle.plant.specs.Switch.{Proper, Switch, dark_after, darken_answer, light_answer, lit_after, steered};

use lightpath::Lightpath;
use refusal::PlantRefusal;

/// What lights and darkens. It means a switch: for each wavelength and destination group, the source group heard there, or none.
pub trait Plant {
    ghost state: { Self → Switch };

    // what no call changes, as the memory that the plant works on, and what lies behind the part that it uses
    ghost Kept: { Type 0 };

    ghost kept: { Self → Kept };

    /// How many wavelengths there are.
    fn waves(&self) -> u8
        ensures { result ≡ (state self.now).waves };

    /// How many groups there are.
    fn groups(&self) -> u8
        ensures { result ≡ (state self.now).groups };

    /// The source group that `b` hears on `w`, or none.
    fn heard(&self, w: u8, b: u8) -> Option<u8>
        ensures { result ≡ (state self.now).hears w b };

    /// The lowest group that hears `a` on `w`, or none.
    fn steered(&self, w: u8, a: u8) -> Option<u8>
        ensures { result ≡ steered (state self.now) w a };

    /// Lets the path's destination hear its source.
    fn light(&mut self, path: Lightpath) -> Result<(), PlantRefusal>
        ensures answer { result ≡ light_answer (state self.old) path.wavelength path.source path.destination }
        ensures after { state self.new ≡ lit_after (state self.old) path.wavelength path.source path.destination }
        ensures kept { kept self.new ≡ kept self.old };

    /// Lets the path's destination, which hears its source, hear nothing there.
    fn darken(&mut self, path: Lightpath) -> Result<(), PlantRefusal>
        ensures answer { result ≡ darken_answer (state self.old) path.wavelength path.source path.destination }
        ensures after { state self.new ≡ dark_after (state self.old) path.wavelength path.source path.destination }
        ensures kept { kept self.new ≡ kept self.old };

    ghost proper: { (x : Self) → Proper (state x) };
}
