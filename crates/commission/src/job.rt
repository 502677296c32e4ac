//! The job: every lightpath of a plan is lit, and then a chain of them changes over.
ghost use Rattle.std.specs.Prelude.{◌≡◌, map, IfOk, OnOk};
ghost use Rattle.commission.specs.Job.{after_job, answers_to, chain_moved, darkening, lighting, other_moved, plan_lit};
ghost use Rattle.plant.specs.Orders.{after_all, answer_to, answer_to_all, change_over};

use plant::Plant;
use plant::change_over::{Retuning, change_over};
use plant::lightpath::Lightpath;
use plant::refusal::PlantRefusal;
use plant::slip::put_out;
use std::alloc::{AllocError, Global};

/// What is to be done on a plant.
#[derive(Clone, Copy)]
pub struct Job<'a> {
    pub plan: &'a [Lightpath],
    pub chain: &'a [Retuning],
    pub other: &'a [Retuning],
    pub last: Lightpath,
}

/// What a job was answered: for each lightpath of the plan, for each change-over, and for the last darkening.
#[derive(Drop)]
pub struct Answers {
    pub lit: Vec<Result<(), PlantRefusal>>,
    pub chain: Result<(), PlantRefusal>,
    pub other: Result<(), PlantRefusal>,
    pub last: Result<(), PlantRefusal>,
}

fn light_all<P: Plant>(
    alloc: Global,
    plant: &mut P,
    plan: &[Lightpath],
) -> Result<Vec<Result<(), PlantRefusal>>, AllocError>
    ensures told { IfOk result (λ v. v.items ≡ answers_to (P.state plant.old) plan.now) }
    ensures after { OnOk result (P.state plant.new ≡ after_all (P.state plant.old) (map lighting plan.now)) }
    ensures kept { OnOk result (P.kept plant.new ≡ P.kept plant.old) }
{
    let mut answers = Vec::new(alloc);
    for path in plan {
        answers.push(plant.light(*path))?;
    }
    Ok(answers)
}

/// Lights the plan on any plant, changes both chains over, and puts the last lightpath out.
pub(crate) fn work<P: Plant>(alloc: Global, plant: &mut P, job: Job) -> Result<Answers, AllocError>
    ensures lit { IfOk result (λ a. a.lit.items ≡ answers_to (P.state plant.old) job.entry.plan.now) }
    ensures chain { IfOk result (λ a. a.chain ≡ answer_to_all (plan_lit (P.state plant.old) job.entry) (change_over job.entry.chain.now)) }
    ensures other { IfOk result (λ a. a.other ≡ answer_to_all (chain_moved (P.state plant.old) job.entry) (change_over job.entry.other.now)) }
    ensures last { IfOk result (λ a. a.last ≡ answer_to (other_moved (P.state plant.old) job.entry) (darkening job.entry.last)) }
    ensures after { OnOk result (P.state plant.new ≡ after_job (P.state plant.old) job.entry) }
    ensures kept { OnOk result (P.kept plant.new ≡ P.kept plant.old) }
{
    Ok(Answers {
        lit: light_all(alloc, plant, job.plan)?,
        chain: change_over(plant, job.chain),
        other: change_over(plant, job.other),
        last: put_out(plant, job.last),
    })
}
