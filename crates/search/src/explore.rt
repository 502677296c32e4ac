//! Every list of calls up to a length, by the tables that they reach, on every small star and some splitters.
use crate::play::{Bench, Outcome, Step, play};
use crate::shape::{Form, Shape};
use crate::table::{Ends, Table};
use controller::controller::Controller;
use network::layout::Layout;
use network::splitter::Splitter;
use network::star::Star;
use plant::fabric::RegisterFabric;
use plant::hub::MirrorHub;
use std::alloc::{AllocError, Global};
use std::collections::BTreeSet;
use std::{fmt, mem};

/// The longest list of calls.
const LENGTH: u32 = 5;

/// What was covered, and how often something disagreed.
#[derive(Clone, Copy, Default)]
pub(crate) struct Tally {
    stars: u64,
    splitters: u64,
    states: u64,
    calls: u64,
    tables: u64,
    disagreements: u64,
}

impl fmt::Display for Tally {
    fn fmt<W: fmt::Write>(&self, f: &mut fmt::Formatter<W>) -> fmt::Result {
        let Tally {
            stars,
            splitters,
            states,
            calls,
            tables,
            disagreements,
        } = *self;
        write!(
            f,
            "lists of up to {LENGTH} calls\nstars {stars}\nsplitters {splitters}\nstates {states}\ncalls {calls}\ntables searched {tables}\ndisagreements {disagreements}"
        )
    }
}

impl Tally {
    fn note(&mut self, outcome: &Outcome) {
        self.calls = self.calls.saturating_add(1);
        if outcome.searched {
            self.tables = self.tables.saturating_add(1);
        }
        if !outcome.agrees {
            self.disagreements = self.disagreements.saturating_add(1);
        }
    }
}

// A list of calls on a hub with its copy on a fabric, and the other way round.
fn on_both_makes<L: Layout + Drop, M: Fn() -> L>(
    alloc: Global,
    make: M,
    groups: u8,
    shape: &Shape,
    earlier: &[Step],
    last: Step,
) -> Result<(Outcome, Outcome), AllocError>
    requires { M.IsAlwaysCallable make }
{
    let layout = make();
    let mut registers = [0; 16];
    let bench = Bench {
        controller: Controller::new(make(), MirrorHub::new(shape.waves, groups)),
        copy: RegisterFabric::new(&mut registers, shape.waves, groups),
    };
    let on_hub = play(alloc, &layout, bench, shape, earlier, last)?;
    let mut registers = [0; 16];
    let fabric = RegisterFabric::new(&mut registers, shape.waves, groups);
    let bench = Bench {
        controller: Controller::new(make(), fabric),
        copy: MirrorHub::new(shape.waves, groups),
    };
    let on_fabric = play(alloc, &layout, bench, shape, earlier, last)?;
    Ok((on_hub, on_fabric))
}

fn outcomes(
    alloc: Global,
    shape: &Shape,
    earlier: &[Step],
    last: Step,
) -> Result<(Outcome, Outcome), AllocError> {
    match shape.form {
        Form::Star => {
            let make = || Star::new(shape.ports);
            on_both_makes(alloc, make, shape.sites(), shape, earlier, last)
        }
        Form::Splitter { entries, branches } => {
            let make = || Splitter::new(shape.ports, entries, branches);
            on_both_makes(alloc, make, branches, shape, earlier, last)
        }
    }
}

// One or two ports for each site, by the bits of `two`.
fn ports_by(two: u8) -> [u8; 4] {
    [1, 2, 4, 8].map(|bit| if two & bit == 0 { 1 } else { 2 })
}

/// The search so far: what was covered, and of one shape the tables that were reached, and the lists that reached the
/// newest of them.
#[derive(Drop)]
struct Search {
    alloc: Global,
    tally: Tally,
    seen: BTreeSet<Table>,
    newest: Vec<Vec<Step>>,
}

impl Search {
    fn new(alloc: Global) -> Search {
        Search {
            alloc,
            tally: Tally::default(),
            seen: BTreeSet::new(alloc),
            newest: Vec::new(alloc),
        }
    }

    // A table that is new is kept with the list that reached it.
    fn keep(&mut self, table: Table, earlier: &[Step], last: Step) -> Result<(), AllocError> {
        if self.seen.insert(table)? {
            // as large as it will be: what is kept is most of the memory of a run
            let mut calls = Vec::with_capacity(self.alloc, earlier.len() + 1)?;
            calls.extend_from_slice(earlier)?;
            calls.push(last)?;
            self.newest.push(calls)?;
        }
        Ok(())
    }

    // One list of calls, on both makes.
    fn try_list(&mut self, shape: &Shape, earlier: &[Step], last: Step) -> Result<(), AllocError> {
        let (on_hub, on_fabric) = outcomes(self.alloc, shape, earlier, last)?;
        self.tally.note(&on_hub);
        self.tally.note(&on_fabric);
        if on_hub.table != on_fabric.table {
            self.tally.disagreements = self.tally.disagreements.saturating_add(1);
        }
        self.keep(on_hub.table, earlier, last)
    }

    // Every call behind a list: each pair of sites, also one with itself, and each number that an admission can have had.
    fn try_all(&mut self, shape: &Shape, earlier: &[Step], number: u32) -> Result<(), AllocError> {
        for source in 0..shape.sites() {
            for destination in 0..shape.sites() {
                let ends = Ends {
                    source,
                    destination,
                };
                self.try_list(shape, earlier, Step::Add { number, ends })?;
            }
        }
        for number in 1..number {
            self.try_list(shape, earlier, Step::Drop { number })?;
        }
        Ok(())
    }

    fn explore(&mut self, shape: &Shape) -> Result<(), AllocError> {
        self.seen = BTreeSet::new(self.alloc);
        self.seen.insert(Vec::new(self.alloc))?;
        self.newest = Vec::new(self.alloc);
        self.newest.push(Vec::new(self.alloc))?;
        // a session is numbered by the place of its admission in the list
        for number in 1..=LENGTH {
            let level = mem::replace(&mut self.newest, Vec::new(self.alloc));
            for calls in level.as_slice() {
                self.try_all(shape, calls.as_slice(), number)?;
            }
        }
        let states = self.seen.len() as u64;
        self.tally.states = self.tally.states.saturating_add(states);
        Ok(())
    }

    fn explore_stars(&mut self) -> Result<(), AllocError> {
        for sites in 2..5 {
            for two in 0..1 << sites {
                for waves in 1..4 {
                    self.explore(&Shape {
                        ports: &ports_by(two)[..sites],
                        form: Form::Star,
                        waves,
                    })?;
                    self.tally.stars = self.tally.stars.saturating_add(1);
                }
            }
        }
        Ok(())
    }

    fn explore_splitters(&mut self) -> Result<(), AllocError> {
        for (entries, branches) in [
            ([0, 0, 1, 1], 2),
            ([0, 0, 0, 1], 2),
            ([0, 1, 2, 0], 3),
            ([0, 0, 0, 0], 1),
        ] {
            for waves in 1..4 {
                self.explore(&Shape {
                    ports: &[1, 2, 1, 2],
                    form: Form::Splitter {
                        entries: &entries,
                        branches,
                    },
                    waves,
                })?;
                self.tally.splitters = self.tally.splitters.saturating_add(1);
            }
        }
        Ok(())
    }
}

/// Every star of 2 to 4 sites of 1 or 2 ports, and some splitters, with 1 to 3 wavelengths.
pub(crate) fn explore_all(alloc: Global) -> Result<Tally, AllocError> {
    let mut search = Search::new(alloc);
    search.explore_stars()?;
    search.explore_splitters()?;
    Ok(search.tally)
}
