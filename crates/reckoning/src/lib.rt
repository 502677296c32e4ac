//! The reckoning of a wavelength controller: the types that theory and code share, and the theorems over them.
#![tactic(auto)]

pub mod call;
pub mod demand;
pub mod order;
pub mod session;

ghost use Rattle.reckoning.specs.Cases.{Worked, WorkedLong};
ghost use Rattle.reckoning.specs.Laws.{AlwaysSafe};
ghost use Rattle.reckoning.specs.Runs.{LawOfRuns};
ghost use Rattle.reckoning.specs.Soundness.{SoundTested};

// Every run of calls keeps the laws.
fn stands()
    ensures { AlwaysSafe }
{}

// So does every run of a controller, with its plant and sheets.
fn lawful()
    ensures { LawOfRuns }
{}

// The worked cases come out as they are written down.
fn worked()
    ensures { Worked }
{}

// So do the longer ones.
fn worked_long()
    ensures { WorkedLong }
{}

// The test of soundness tells it.
fn tested()
    ensures { SoundTested }
{}
