//! One list of calls on a new controller, with its last call looked at from outside.
use crate::shape::Shape;
use crate::table::{Ends, Table, meet, table_exists};
use book::refusal::CallRefusal;
use controller::controller::Controller;
use controller::orders::carry_out;
use network::layout::Layout;
use plant::Plant;
use plant::refusal::PlantRefusal;
use reckoning::demand::Demand;
use reckoning::order::Order;
use reckoning::session::Session;
use sheet::sheet::Sheet;
use std::alloc::{AllocError, Global};

/// A call of a list.
#[derive(Clone, Copy)]
pub(crate) enum Step {
    Add { number: u32, ends: Ends },
    Drop { number: u32 },
}

/// What an accepted call did.
#[derive(Clone, Copy)]
enum Done {
    Added { moves: u8 },
    Dropped,
}

impl Done {
    fn moves(self) -> u8 {
        match self {
            Done::Added { moves } => moves,
            Done::Dropped => 0,
        }
    }
}

/// What ports, and a search for a table, ask of an answer.
#[derive(Clone, Copy)]
enum Due {
    Accepted,
    Refused(CallRefusal),
    /// A table was found.
    Table,
    /// A table was searched for, and there is none.
    NoTable,
}

impl Due {
    fn was_searched(self) -> bool {
        matches!(self, Due::Table | Due::NoTable)
    }

    fn is_met_by(self, answer: Result<Done, CallRefusal>) -> bool {
        match self {
            Due::Accepted | Due::Table => answer.is_ok(),
            Due::Refused(refusal) => answer.err() == Some(refusal),
            Due::NoTable => matches!(
                answer,
                Err(CallRefusal::SourceFull | CallRefusal::DestinationFull)
            ),
        }
    }
}

/// A call that was served.
#[derive(Clone, Copy)]
struct Served {
    answer: Result<Done, CallRefusal>,
    /// How many orders were written, where the copy accepted each.
    orders: Result<usize, PlantRefusal>,
}

impl Served {
    // As many moves as it says, fewer than groups, and 2 × moves + 1 orders; a refusal writes none.
    fn is_rightly_counted(self, groups: u8, moved: usize) -> bool {
        match self.answer {
            Ok(done) => {
                let moves = usize::from(done.moves());
                moves == moved && done.moves() < groups && self.orders == Ok(2 * moves + 1)
            }
            Err(_) => moved == 0 && self.orders == Ok(0),
        }
    }
}

/// What the last call of a list came to.
#[derive(Drop)]
pub(crate) struct Outcome {
    /// The table after it.
    pub(crate) table: Table,
    /// A table was searched for.
    pub(crate) searched: bool,
    pub(crate) agrees: bool,
}

/// A controller, and a plant of the other make, to which each of its orders is put by itself.
#[derive(Drop)]
pub(crate) struct Bench<L: Layout + Drop, P: Plant + Drop, Q: Plant + Drop> {
    pub(crate) controller: Controller<L, P>,
    pub(crate) copy: Q,
}

impl<L: Layout + Drop, P: Plant + Drop, Q: Plant + Drop> Bench<L, P, Q> {
    fn answer(
        &mut self,
        step: Step,
        orders: &mut Sheet<Order>,
        walk: &mut [u16],
    ) -> Result<Done, CallRefusal> {
        match step {
            Step::Add { number, ends } => {
                let limit = self.copy.groups().saturating_sub(1);
                let demand = Demand {
                    number,
                    source: u32::from(ends.source),
                    destination: u32::from(ends.destination),
                };
                let (_, moves) = self
                    .controller
                    .admit(demand, u32::from(limit), orders, walk)?;
                Ok(Done::Added { moves })
            }
            Step::Drop { number } => {
                self.controller.release(number, orders)?;
                Ok(Done::Dropped)
            }
        }
    }

    fn put_each(&mut self, orders: &[Order]) -> Result<usize, PlantRefusal> {
        for order in orders {
            carry_out(*order, &mut self.copy)?;
        }
        Ok(orders.len())
    }

    // The sheet and the walk list still hold what earlier calls wrote.
    fn serve(&mut self, step: Step, orders: &mut Sheet<Order>, walk: &mut [u16]) -> Served {
        orders.clear();
        Served {
            answer: self.answer(step, orders, walk),
            orders: self.put_each(orders.as_slice()),
        }
    }

    // Both plants hear what the rows say, and nothing else.
    fn hears(&self, layout: &L, rows: &[Session]) -> bool {
        (0..self.copy.waves()).all(|w| {
            (0..self.copy.groups()).all(|b| {
                let told = heard_by(layout, rows, w, b);
                self.controller.heard(w, b) == told && self.copy.heard(w, b) == told
            })
        })
    }
}

// The source group of the row on `w` into group `b`.
fn heard_by<L: Layout>(layout: &L, rows: &[Session], w: u8, b: u8) -> Option<u8> {
    rows.iter()
        .find(|s| s.wavelength == w && layout.group(s.destination) == b)
        .map(|s| layout.group(s.source))
}

// No two rows that light one fibre share a wavelength.
fn is_unblinded<L: Layout>(layout: &L, rows: &[Session]) -> bool {
    rows.iter().enumerate().all(|(i, s)| {
        rows.iter().take(i).all(|t| {
            s.wavelength != t.wavelength || !meet(layout, Ends::from(*s), Ends::from(*t))
        })
    })
}

// How many of the rows before stand on another wavelength after.
fn retuned(before: &[Session], after: &[Session]) -> usize {
    before
        .iter()
        .filter(|s| {
            after
                .iter()
                .any(|t| t.number == s.number && t.wavelength != s.wavelength)
        })
        .count()
}

// Does a table exist for the rows with one session more?
fn serves_with<L: Layout>(
    alloc: Global,
    layout: &L,
    rows: &[Session],
    new: Ends,
    waves: u8,
) -> Result<bool, AllocError> {
    let mut sessions = Vec::with_capacity(alloc, rows.len() + 1)?;
    for s in rows {
        sessions.push(Ends::from(*s))?;
    }
    sessions.push(new)?;
    table_exists(alloc, layout, sessions.as_slice(), waves)
}

// What is the call to be answered?
fn asked<L: Layout>(
    alloc: Global,
    layout: &L,
    shape: &Shape,
    before: &[Session],
    step: Step,
) -> Result<Due, AllocError> {
    let new = match step {
        Step::Add { number: _, ends } => ends,
        Step::Drop { number } if before.iter().any(|s| s.number == number) => {
            return Ok(Due::Accepted);
        }
        Step::Drop { number: _ } => return Ok(Due::Refused(CallRefusal::NotStanding)),
    };
    if new.source == new.destination {
        return Ok(Due::Refused(CallRefusal::SameSite));
    }
    let sent = before.iter().filter(|s| s.source == new.source).count();
    if sent >= usize::from(shape.ports_of(new.source)) {
        return Ok(Due::Refused(CallRefusal::NoTransmitter));
    }
    let received = before
        .iter()
        .filter(|s| s.destination == new.destination)
        .count();
    if received >= usize::from(shape.ports_of(new.destination)) {
        return Ok(Due::Refused(CallRefusal::NoReceiver));
    }
    if serves_with(alloc, layout, before, new, shape.waves)? {
        Ok(Due::Table)
    } else {
        Ok(Due::NoTable)
    }
}

/// Serves the calls on a new controller, and looks at the last of them from outside.
pub(crate) fn play<L: Layout + Drop, P: Plant + Drop, Q: Plant + Drop>(
    alloc: Global,
    layout: &L,
    mut bench: Bench<L, P, Q>,
    shape: &Shape,
    earlier: &[Step],
    last: Step,
) -> Result<Outcome, AllocError> {
    let mut order_places = [Order::default(); 8];
    let mut orders = Sheet::new(&mut order_places);
    let mut walk = [0; 8];
    for step in earlier {
        bench.serve(*step, &mut orders, &mut walk);
    }
    let mut places_before = [Session::default(); 16];
    let mut places_after = [Session::default(); 16];
    let mut before = Sheet::new(&mut places_before);
    let mut after = Sheet::new(&mut places_after);
    let listed = bench.controller.list(&mut before).is_ok();
    let served = bench.serve(last, &mut orders, &mut walk);
    let listed_again = bench.controller.list(&mut after).is_ok();
    let (before, after) = (before.as_slice(), after.as_slice());
    let due = asked(alloc, layout, shape, before, last)?;
    let agrees = listed
        && listed_again
        && due.is_met_by(served.answer)
        && bench.hears(layout, after)
        && is_unblinded(layout, after)
        && served.is_rightly_counted(bench.copy.groups(), retuned(before, after));
    let table = after
        .iter()
        .map(|s| (s.wavelength, Ends::from(*s)))
        .collect(alloc)?;
    Ok(Outcome {
        table,
        searched: due.was_searched(),
        agrees,
    })
}
