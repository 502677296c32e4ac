//! A slip stands for a lightpath that was taken down. It is not `Drop`, so it is given back once, by `relight` or by `retire`.
ghost use Rattle.std.specs.Prelude.{◌≡◌};
ghost use Rattle.plant.specs.Slips.{slip_for};
ghost use Rattle.plant.specs.Switch.{dark_after, darken_answer, light_answer, lit_after};

use crate::Plant;
use crate::lightpath::Lightpath;
use crate::refusal::PlantRefusal;

/// The token of one lightpath that is dark; only an accepted taking down hands one out.
pub struct Slip {
    path: Lightpath,
}

/// Darkens, and hands out a slip that names what was lit.
pub fn take_down<P: Plant>(plant: &mut P, path: Lightpath) -> Result<Slip, PlantRefusal>
    ensures answer { result ≡ slip_for (darken_answer (P.state plant.old) path.wavelength path.source path.destination) path }
    ensures after { P.state plant.new ≡ dark_after (P.state plant.old) path.wavelength path.source path.destination }
    ensures kept { P.kept plant.new ≡ P.kept plant.old }
{
    plant.darken(path)?;
    Ok(Slip { path })
}

/// Lights the slip's groups again, on the wavelength `v`. The slip is spent, also where the plant refuses.
pub fn relight<P: Plant>(plant: &mut P, slip: Slip, v: u8) -> Result<(), PlantRefusal>
    ensures answer { result ≡ light_answer (P.state plant.old) v slip.path.source slip.path.destination }
    ensures after { P.state plant.new ≡ lit_after (P.state plant.old) v slip.path.source slip.path.destination }
    ensures kept { P.kept plant.new ≡ P.kept plant.old }
{
    let path = retire(slip);
    plant.light(Lightpath {
        wavelength: v,
        ..path
    })
}

/// Spends the slip with no plant at hand, and tells the lightpath that stays dark.
pub fn retire(slip: Slip) -> Lightpath
    ensures { result ≡ slip.path }
{
    let Slip { path } = slip;
    path
}

/// Takes a lightpath down for good.
pub fn put_out<P: Plant>(plant: &mut P, path: Lightpath) -> Result<(), PlantRefusal>
    ensures answer { result ≡ darken_answer (P.state plant.old) path.wavelength path.source path.destination }
    ensures after { P.state plant.new ≡ dark_after (P.state plant.old) path.wavelength path.source path.destination }
    ensures kept { P.kept plant.new ≡ P.kept plant.old }
{
    let slip = take_down(plant, path)?;
    let _ = retire(slip);
    Ok(())
}
