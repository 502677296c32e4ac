//! What every make of plant gives, and the questions that it asks, in their order.
ghost use Rattle.std.specs.Prelude.{◌≡◌, Ok, OnErr};
ghost use Rattle.plant.specs.Making.{hub_verdict, is_count};
ghost use Rattle.plant.specs.Switch.{Proper, Switch, dark_after, darken_answer, light_answer, lit_after, steered};

use crate::Plant;
use crate::lightpath::Lightpath;
use crate::refusal::{MakingRefusal, PlantRefusal};

/// How many wavelengths and groups there are.
#[derive(Clone, Copy)]
pub(crate) struct Counts {
    pub(crate) waves: u8,
    pub(crate) groups: u8,
}

/// A make of plant: what it tells, and how it sets and clears a lightpath of which it was asked first.
pub(crate) trait Make {
    ghost state: { Self → Switch };

    // what no call changes
    ghost Kept: { Type 0 };

    ghost kept: { Self → Kept };

    /// The counts that it serves, 0 of both where it was refused.
    fn counts(&self) -> Counts
        ensures waves { result.waves ≡ (state self.now).waves }
        ensures groups { result.groups ≡ (state self.now).groups };

    /// The source group that `b` hears on `w`, or none.
    fn source_at(&self, w: u8, b: u8) -> Option<u8>
        ensures { result ≡ (state self.now).hears w b };

    /// The lowest group that hears `a` on `w`, or none.
    fn target_of(&self, w: u8, a: u8) -> Option<u8>
        ensures { result ≡ steered (state self.now) w a };

    /// The destination hears the source.
    fn set(&mut self, path: Lightpath)
        requires { light_answer (state self.old) path.wavelength path.source path.destination ≡ Ok tt }
        ensures after { state self.new ≡ lit_after (state self.old) path.wavelength path.source path.destination }
        ensures kept { kept self.new ≡ kept self.old };

    /// The destination, which hears the source, hears nothing.
    fn clear(&mut self, path: Lightpath)
        requires { darken_answer (state self.old) path.wavelength path.source path.destination ≡ Ok tt }
        ensures after { state self.new ≡ dark_after (state self.old) path.wavelength path.source path.destination }
        ensures kept { kept self.new ≡ kept self.old };

    ghost proper: { (x : Self) → Proper (state x) };
}

// Where it refuses, lighting would change nothing.
#[tactic(auto, unfolding(crate::specs::Switch::light_answer))]
fn ask_light<M: Make>(make: &M, path: Lightpath) -> Result<(), PlantRefusal>
    ensures answer { result ≡ light_answer (M.state make.now) path.wavelength path.source path.destination }
    ensures kept { OnErr result (lit_after (M.state make.now) path.wavelength path.source path.destination ≡ M.state make.now) }
{
    let counts = make.counts();
    if path.wavelength >= counts.waves {
        return Err(PlantRefusal::NoWavelength);
    }
    if path.source >= counts.groups || path.destination >= counts.groups {
        return Err(PlantRefusal::NoGroup);
    }
    if make.target_of(path.wavelength, path.source).is_some() {
        return Err(PlantRefusal::SourceLit);
    }
    if make.source_at(path.wavelength, path.destination).is_some() {
        return Err(PlantRefusal::DestinationLit);
    }
    Ok(())
}

// Where it refuses, darkening would change nothing.
#[tactic(auto, unfolding(crate::specs::Switch::darken_answer))]
fn ask_darken<M: Make>(make: &M, path: Lightpath) -> Result<(), PlantRefusal>
    ensures answer { result ≡ darken_answer (M.state make.now) path.wavelength path.source path.destination }
    ensures kept { OnErr result (dark_after (M.state make.now) path.wavelength path.source path.destination ≡ M.state make.now) }
{
    let counts = make.counts();
    if path.wavelength >= counts.waves {
        return Err(PlantRefusal::NoWavelength);
    }
    if path.source >= counts.groups || path.destination >= counts.groups {
        return Err(PlantRefusal::NoGroup);
    }
    if make.source_at(path.wavelength, path.destination) != Some(path.source) {
        return Err(PlantRefusal::NotHeard);
    }
    Ok(())
}

fn is_count(n: u8) -> bool
    ensures { result ≡ is_count n }
{
    (1..=32).contains(&n)
}

pub(crate) fn ask_counts(waves: u8, groups: u8) -> Result<(), MakingRefusal>
    ensures { result ≡ hub_verdict waves groups }
{
    if is_count(waves) && is_count(groups) {
        Ok(())
    } else {
        Err(MakingRefusal::Counts)
    }
}

impl<M: Make> Plant for M {
    ghost state = { M.state };

    ghost proper = { M.proper };

    ghost Kept = { M.Kept };

    ghost kept = { M.kept };

    fn waves(&self) -> u8 {
        self.counts().waves
    }

    fn groups(&self) -> u8 {
        self.counts().groups
    }

    fn heard(&self, w: u8, b: u8) -> Option<u8> {
        self.source_at(w, b)
    }

    fn steered(&self, w: u8, a: u8) -> Option<u8> {
        self.target_of(w, a)
    }

    fn light(&mut self, path: Lightpath) -> Result<(), PlantRefusal> {
        ask_light(self, path)?;
        self.set(path);
        Ok(())
    }

    fn darken(&mut self, path: Lightpath) -> Result<(), PlantRefusal> {
        ask_darken(self, path)?;
        self.clear(path);
        Ok(())
    }
}
