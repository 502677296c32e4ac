//! A list of calls, served in turn, with the law that every such list keeps.
ghost use Rattle.std.specs.Prelude.{◌≡◌, map, MatchResult};
ghost use Rattle.controller.specs.Service.{Same, Served, Serves, answer_of, moment};
ghost use Rattle.sheet.specs.Pages.{page_of};

use crate::answer::Answer;
use crate::controller::Controller;
use book::refusal::CallRefusal;
use network::layout::Layout;
use plant::Plant;
use reckoning::call::Call;
use reckoning::demand::Demand;
use reckoning::order::Order;
use reckoning::session::Session;
use sheet::sheet::Sheet;
use std::alloc::{AllocError, Global};

impl<L: Layout + Drop, P: Plant + Drop> Controller<L, P> {
    fn serve_one(
        &mut self,
        call: Call,
        orders: &mut Sheet<Order>,
        rows: &mut Sheet<Session>,
        walk: &mut [u16],
    ) -> Result<Answer, CallRefusal>
        ensures order_place { orders.new.places.ghost_name ≡ orders.old.places.ghost_name }
        ensures row_place { rows.new.places.ghost_name ≡ rows.old.places.ghost_name }
        ensures same { Same P.Plant self.old self.new }
        ensures serves { Serves L.Layout self.old call (answer_of result) (moment P.Plant self.old (page_of orders.old) (page_of rows.old) walk.old) (moment P.Plant self.new (page_of orders.new) (page_of rows.new) walk.new) }
    {
        Ok(match call {
            Call::Admit {
                number,
                source,
                destination,
                limit,
            } => {
                let demand = Demand {
                    number,
                    source,
                    destination,
                };
                let (wavelength, moves) = self.admit(demand, limit, orders, walk)?;
                Answer::Admitted { wavelength, moves }
            }
            Call::Release { number } => {
                let wavelength = self.release(number, orders)?;
                Answer::Released { wavelength }
            }
            Call::Quote {
                number,
                source,
                destination,
            } => {
                let demand = Demand {
                    number,
                    source,
                    destination,
                };
                let (wavelength, moves) = self.quote(demand, walk)?;
                Answer::Quoted { wavelength, moves }
            }
            Call::Where { number } => {
                let s = self.locate(number)?;
                Answer::Found {
                    wavelength: s.wavelength,
                    source: s.source,
                    destination: s.destination,
                }
            }
            Call::List => {
                let rows = self.list(rows)?;
                Answer::Listed { rows }
            }
        })
    }

    fn serve_each(
        &mut self,
        alloc: Global,
        calls: &[Call],
        orders: &mut Sheet<Order>,
        rows: &mut Sheet<Session>,
        walk: &mut [u16],
    ) -> Result<Vec<Result<Answer, CallRefusal>>, AllocError>
        ensures order_place { orders.new.places.ghost_name ≡ orders.old.places.ghost_name }
        ensures row_place { rows.new.places.ghost_name ≡ rows.old.places.ghost_name }
        ensures same { Same P.Plant self.old self.new }
        ensures served { MatchResult result (λ answers. Served L.Layout self.old calls.now (map answer_of answers.items) (moment P.Plant self.old (page_of orders.old) (page_of rows.old) walk.old) (moment P.Plant self.new (page_of orders.new) (page_of rows.new) walk.new)) (λ _. moment P.Plant self.new (page_of orders.new) (page_of rows.new) walk.new ≡ moment P.Plant self.old (page_of orders.old) (page_of rows.old) walk.old) }
    {
        let mut answers = Vec::with_capacity(alloc, calls.len())?;
        for call in calls {
            answers.push_reserved(self.serve_one(*call, orders, rows, walk));
        }
        Ok(answers)
    }

    /// Serves the calls in turn, and gives their answers. Where memory for these is not found, nothing is served.
    pub fn serve(
        &mut self,
        alloc: Global,
        calls: &[Call],
        orders: &mut Sheet<Order>,
        rows: &mut Sheet<Session>,
        walk: &mut [u16],
    ) -> Result<Vec<Result<Answer, CallRefusal>>, AllocError>
        ensures order_place { orders.new.places.ghost_name ≡ orders.old.places.ghost_name }
        ensures row_place { rows.new.places.ghost_name ≡ rows.old.places.ghost_name }
        ensures same { Same P.Plant self.old self.new }
        ensures served { MatchResult result (λ answers. Served L.Layout self.old calls.now (map answer_of answers.items) (moment P.Plant self.old (page_of orders.old) (page_of rows.old) walk.old) (moment P.Plant self.new (page_of orders.new) (page_of rows.new) walk.new)) (λ _. moment P.Plant self.new (page_of orders.new) (page_of rows.new) walk.new ≡ moment P.Plant self.old (page_of orders.old) (page_of rows.old) walk.old) }
    {
        self.serve_each(alloc, calls, orders, rows, walk)
    }
}
