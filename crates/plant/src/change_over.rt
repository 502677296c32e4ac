//! A chain of lightpaths changes over to new wavelengths, holding slips only.
ghost use Rattle.std.specs.Prelude.{◌≡◌, [], ◌∷◌, reverse, Ok};
ghost use Rattle.plant.specs.Orders.{AllAccepted, after_all, answer_to_all, change_over, darkening, onward, relighting, until_refused};
ghost use Rattle.plant.specs.Slips.{slip_for, slip_of};
ghost use Rattle.plant.specs.Switch.{Matching};

use crate::Plant;
use crate::lightpath::Lightpath;
use crate::refusal::PlantRefusal;
use crate::slip::{Slip, relight, retire, take_down};

/// A lightpath of a chain, and the wavelength that it changes to.
#[derive(Clone, Copy, Default)]
pub struct Retuning {
    pub path: Lightpath,
    pub onto: u8,
}

// Darkens `next`, and then lights `dark`, whose slip is held, on its new wavelength.
fn turn<P: Plant>(
    plant: &mut P,
    held: Slip,
    dark: Retuning,
    next: Retuning,
) -> Result<Slip, PlantRefusal>
    requires { held ≡ slip_of dark }
    ensures answer { result ≡ slip_for (answer_to_all (P.state plant.old) (darkening next ∷ (relighting dark ∷ []))) next.path }
    ensures after { P.state plant.new ≡ until_refused (P.state plant.old) (darkening next ∷ (relighting dark ∷ [])) }
    ensures kept { P.kept plant.new ≡ P.kept plant.old }
{
    let slip = match take_down(plant, next.path) {
        Ok(slip) => slip,
        Err(refusal) => {
            let _ = retire(held);
            return Err(refusal);
        }
    };
    match relight(plant, held, dark.onto) {
        Ok(()) => Ok(slip),
        Err(refusal) => {
            let _ = retire(slip);
            Err(refusal)
        }
    }
}

// The last of the chain is dark, and its slip is held; `chain` has those before it.
fn go_back<P: Plant>(
    plant: &mut P,
    held: Slip,
    last: Retuning,
    chain: &[Retuning],
) -> Result<(), PlantRefusal>
    requires { held ≡ slip_of last }
    ensures answer { result ≡ answer_to_all (P.state plant.old) (onward last (reverse chain.now)) }
    ensures after { P.state plant.new ≡ until_refused (P.state plant.old) (onward last (reverse chain.now)) }
    ensures kept { P.kept plant.new ≡ P.kept plant.old }
{
    let mut held = held;
    let mut dark = last;
    for next in chain.iter().rev() {
        held = turn(plant, held, dark, *next)?;
        dark = *next;
    }
    relight(plant, held, dark.onto)
}

/// Darkens the last lightpath of the chain; then, going back, darkens each and lights the one after it on its new wavelength; and lights the first.
/// It ends at the first order that the plant refuses, with every slip spent.
#[tactic(auto, using(crate::proofs::Carrying::begins_last, crate::proofs::Carrying::accepted_answer, crate::proofs::Carrying::accepted_after))]
pub fn change_over<P: Plant>(plant: &mut P, chain: &[Retuning]) -> Result<(), PlantRefusal>
    ensures answer { result ≡ answer_to_all (P.state plant.old) (change_over chain.now) }
    ensures after { P.state plant.new ≡ until_refused (P.state plant.old) (change_over chain.now) }
    ensures kept { P.kept plant.new ≡ P.kept plant.old }
    ensures accepted { AllAccepted (P.state plant.old) (change_over chain.now) → (result ≡ Ok tt) × (P.state plant.new ≡ after_all (P.state plant.old) (change_over chain.now)) }
    ensures matching { Matching (P.state plant.old) → Matching (P.state plant.new) }
{
    let Some((last, before)) = chain.split_last() else {
        return Ok(());
    };
    let held = take_down(plant, last.path)?;
    go_back(plant, held, *last, before)
}
