//! What the program does and prints.
ghost use Rattle.std.specs.Prelude.{◌≡◌, true, is_ok};
ghost use Rattle.commission.specs.Job.{Holds, after_job, numbered};
ghost use Rattle.plant.specs.Registers.{served};
ghost use Rattle.plant.specs.Switch.{dark_switch};

use crate::compare::agree;
use crate::job::{Answers, Job, work};
use network::check::check_splitter;
use network::layout::Layout;
use network::refusal::LayoutRefusal;
use network::splitter::Splitter;
use plant::Plant;
use plant::change_over::Retuning;
use plant::fabric::RegisterFabric;
use plant::hub::MirrorHub;
use plant::lightpath::Lightpath;
use plant::refusal::{MakingRefusal, PlantRefusal};

const PORTS: [u8; 6] = [2, 2, 2, 2, 2, 2];

const ENTRIES: [u8; 6] = [0, 0, 1, 1, 2, 2];

const BRANCHES: u8 = 3;

const WAVES: u8 = 2;

/// A session that is to be lit: its wavelength and its two sites.
#[derive(Clone, Copy)]
struct Planned {
    wavelength: u8,
    source: u8,
    destination: u8,
}

// The lightpath that carries a session: from the group of its source to that of its destination.
fn path_of<L: Layout>(layout: &L, session: Planned) -> Lightpath
    ensures { result ≡ record { wavelength = session.wavelength; source = (L.network layout.now).group session.source; destination = (L.network layout.now).group session.destination } }
{
    Lightpath {
        wavelength: session.wavelength,
        source: layout.group(session.source),
        destination: layout.group(session.destination),
    }
}

// Which sessions the plan has, by their sites; some of them cannot be lit.
const PLAN: [Planned; 8] = [
    Planned {
        wavelength: 0,
        source: 0,
        destination: 2,
    },
    Planned {
        wavelength: 0,
        source: 2,
        destination: 4,
    },
    Planned {
        wavelength: 1,
        source: 3,
        destination: 2,
    },
    Planned {
        wavelength: 0,
        source: 5,
        destination: 0,
    },
    Planned {
        wavelength: 0,
        source: 1,
        destination: 3,
    },
    Planned {
        wavelength: 0,
        source: 4,
        destination: 3,
    },
    Planned {
        wavelength: 1,
        source: 6,
        destination: 0,
    },
    Planned {
        wavelength: 2,
        source: 0,
        destination: 1,
    },
];

// Between groups 0, 1 and 2 the two wavelengths are exchanged along a chain of three.
const CHAIN: [Retuning; 3] = [
    Retuning {
        path: Lightpath {
            wavelength: 0,
            source: 0,
            destination: 1,
        },
        onto: 1,
    },
    Retuning {
        path: Lightpath {
            wavelength: 1,
            source: 1,
            destination: 1,
        },
        onto: 0,
    },
    Retuning {
        path: Lightpath {
            wavelength: 0,
            source: 1,
            destination: 2,
        },
        onto: 1,
    },
];

// Its relighting is refused, and its slip is spent all the same.
const CLASH: [Retuning; 1] = [Retuning {
    path: Lightpath {
        wavelength: 1,
        source: 0,
        destination: 1,
    },
    onto: 0,
}];

const LAST: Lightpath = Lightpath {
    wavelength: 1,
    source: 1,
    destination: 2,
};

// A refusal is shown by its number.
fn show_answer(rt: &HostRuntime, what: &str, answer: Result<(), u8>) -> anyhow::Result<()> {
    match answer {
        Ok(()) => println!(rt; "{what}: accepted")?,
        Err(number) => println!(rt; "{what}: refused with {number}")?,
    }
    Ok(())
}

fn show_checks(rt: &HostRuntime) -> anyhow::Result<()> {
    for (what, answer) in [
        (
            "splitter with 33 ports at a site",
            check_splitter(&[2, 2, 2, 2, 2, 33], &ENTRIES, BRANCHES),
        ),
        (
            "splitter with a site in branch 3 of 3",
            check_splitter(&PORTS, &[0, 0, 1, 1, 2, 3], BRANCHES),
        ),
        (
            "splitter of 6 sites in 3 branches",
            check_splitter(&PORTS, &ENTRIES, BRANCHES),
        ),
    ] {
        show_answer(rt, what, answer.map_err(LayoutRefusal::number))?;
    }
    for (what, answer) in [
        ("hub of no wavelengths", MirrorHub::check(0, BRANCHES)),
        ("hub of 2 wavelengths", MirrorHub::check(WAVES, BRANCHES)),
        (
            "fabric over 5 registers",
            RegisterFabric::check(WAVES, BRANCHES, &[0; 5]),
        ),
        (
            "fabric over 8 registers",
            RegisterFabric::check(WAVES, BRANCHES, &[0; 8]),
        ),
    ] {
        show_answer(rt, what, answer.map_err(MakingRefusal::number))?;
    }
    Ok(())
}

// An answer as it is shown.
fn numbered(answer: Result<(), PlantRefusal>) -> Result<(), u8>
    ensures { result ≡ numbered answer }
{
    answer.map_err(PlantRefusal::number)
}

fn show_order(
    rt: &HostRuntime,
    what: &str,
    answer: Result<(), PlantRefusal>,
) -> anyhow::Result<()> {
    show_answer(rt, what, numbered(answer))
}

fn show_work(rt: &HostRuntime, plan: &[Lightpath], answers: &Answers) -> anyhow::Result<()> {
    for (path, answer) in plan.iter().zip(answers.lit.iter()) {
        let Lightpath {
            wavelength,
            source,
            destination,
        } = *path;
        print!(rt; "  light {wavelength}, group {source} to {destination}")?;
        show_order(rt, "", *answer)?;
    }
    show_order(
        rt,
        "  change over a chain of 3 between wavelengths 0 and 1",
        answers.chain,
    )?;
    show_order(rt, "  change over 1, group 0 to 1, onto 0", answers.other)?;
    show_order(rt, "  take down and retire 1, group 1 to 2", answers.last)
}

fn show_heard(rt: &HostRuntime, heard: Option<u8>) -> anyhow::Result<()> {
    match heard {
        Some(source) => print!(rt; " {source}")?,
        None => print!(rt; " -")?,
    }
    Ok(())
}

fn compare<A: Plant, B: Plant>(rt: &HostRuntime, hub: &A, fabric: &B) -> anyhow::Result<()> {
    println!(rt; "heard at the end, on the hub and on the fabric:")?;
    for w in 0..hub.waves() {
        for b in 0..hub.groups() {
            print!(rt; "  wavelength {w}, group {b}:")?;
            show_heard(rt, hub.heard(w, b))?;
            show_heard(rt, fabric.heard(w, b))?;
            println!(rt; "")?;
        }
    }
    let agreed = agree(hub, fabric);
    println!(rt; "the makes agree: {agreed}")?;
    Ok(())
}

fn on_hub(rt: &HostRuntime, hub: &mut MirrorHub, job: Job) -> anyhow::Result<()> {
    let (waves, groups) = (hub.waves(), hub.groups());
    println!(rt; "mirror hub, {waves} wavelengths, {groups} groups")?;
    let answers = work(rt.alloc(), hub, job)?;
    show_work(rt, job.plan, &answers)
}

// What the registers hold afterwards is told by the job alone.
fn on_fabric<P: Plant>(
    rt: &HostRuntime,
    registers: &mut [u8],
    waves: u8,
    groups: u8,
    job: Job,
    hub: &P,
) -> anyhow::Result<()>
    ensures { is_ok result ≡ true → Holds (after_job (dark_switch (served waves groups registers.old waves) (served waves groups registers.old groups)) job.entry) registers.old registers.new }
{
    let mut fabric = RegisterFabric::new(registers, waves, groups);
    println!(rt; "register fabric, {waves} wavelengths, {groups} groups")?;
    let answers = work(rt.alloc(), &mut fabric, job)?;
    show_work(rt, job.plan, &answers)?;
    compare(rt, hub, &fabric)
}

pub(crate) fn run(rt: &HostRuntime) -> anyhow::Result<()> {
    show_checks(rt)?;
    let layout = Splitter::new(&PORTS, &ENTRIES, BRANCHES);
    let (sites, groups, fibres) = (layout.sites(), layout.groups(), layout.fibres());
    println!(rt; "splitter: {sites} sites, {groups} groups, {fibres} fibres")?;
    let plan = PLAN.map(|session| path_of(&layout, session));
    let job = Job {
        plan: &plan,
        chain: &CHAIN,
        other: &CLASH,
        last: LAST,
    };
    let mut hub = MirrorHub::new(WAVES, groups);
    on_hub(rt, &mut hub, job)?;
    let mut registers = [9; 8];
    on_fabric(rt, &mut registers, WAVES, groups, job, &hub)?;
    println!(rt; "registers: {registers:?}")?;
    Ok(())
}
