//! The calls by the book: what it answers on paper is put to the plant.
ghost use Rattle.std.specs.Prelude.{◌≡◌, IfOk, Some};
ghost use Rattle.book.specs.Books.{standing_in};
ghost use Rattle.reckoning.specs.Lists.{first};
ghost use Rattle.reckoning.specs.Standing.{bears};
ghost use Rattle.controller.specs.Service.{Admits, Lists, Locates, Quotes, Same};
ghost use Rattle.sheet.specs.Pages.{page_of};

use crate::controller::Controller;
use crate::drive::change;
use book::refusal::CallRefusal;
use network::layout::Layout;
use plant::Plant;
use reckoning::demand::Demand;
use reckoning::order::Order;
use reckoning::session::Session;
use sheet::sheet::Sheet;

impl<L: Layout + Drop, P: Plant + Drop> Controller<L, P> {
    pub(crate) fn admit_booked(
        &mut self,
        demand: Demand,
        limit: u32,
        orders: &mut Sheet<Order>,
        walk: &mut [u16],
    ) -> Result<(u8, u8), CallRefusal>
        ensures place { orders.new.places.ghost_name ≡ orders.old.places.ghost_name }
        ensures same { Same P.Plant self.old self.new }
        ensures serves { Admits L.Layout P.Plant self.old self.new demand.number demand.source demand.destination limit result (page_of orders.old) (page_of orders.new) walk.old walk.new }
    {
        let admitted = self.book.admit(demand, limit, orders, walk)?;
        let _ = change(&mut self.plant, &admitted);
        Ok((admitted.path.wavelength, admitted.moves))
    }

    pub(crate) fn quote_booked(
        &self,
        demand: Demand,
        walk: &mut [u16],
    ) -> Result<(u8, u8), CallRefusal>
        ensures { Quotes L.Layout P.Plant self.now demand.number demand.source demand.destination result walk.old walk.new }
    {
        self.book.quote(demand, walk)
    }

    pub(crate) fn locate_booked(&self, number: u32) -> Result<Session, CallRefusal>
        ensures session { IfOk result (λ s. first (bears number) (standing_in self.now.book) ≡ Some s) }
        ensures serves { Locates L.Layout P.Plant self.now number result }
    {
        self.book.locate(number)
    }

    pub(crate) fn list_booked(&self, rows: &mut Sheet<Session>) -> Result<usize, CallRefusal>
        ensures place { rows.new.places.ghost_name ≡ rows.old.places.ghost_name }
        ensures serves { Lists L.Layout P.Plant self.now result (page_of rows.old) (page_of rows.new) }
    {
        self.book.list(rows)
    }
}
