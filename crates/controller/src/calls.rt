//! The five calls.
ghost use Rattle.std.specs.Prelude.{◌≡◌, IfOk, Some};
ghost use Rattle.book.specs.Books.{standing_in};
ghost use Rattle.reckoning.specs.Lists.{first};
ghost use Rattle.reckoning.specs.Standing.{bears};
ghost use Rattle.controller.specs.Service.{Admits, Lists, Locates, Quotes, Releases, Same};
ghost use Rattle.sheet.specs.Pages.{page_of};

use crate::controller::Controller;
use crate::drive::darken;
use book::refusal::CallRefusal;
use network::layout::Layout;
use plant::Plant;
use reckoning::demand::Demand;
use reckoning::order::Order;
use reckoning::session::Session;
use sheet::sheet::Sheet;

impl<L: Layout + Drop, P: Plant + Drop> Controller<L, P> {
    /// Lets a new session stand, with at most `limit` others moved to another wavelength: its wavelength, and the moves.
    pub fn admit(
        &mut self,
        demand: Demand,
        limit: u32,
        orders: &mut Sheet<Order>,
        walk: &mut [u16],
    ) -> Result<(u8, u8), CallRefusal>
        ensures place { orders.new.places.ghost_name ≡ orders.old.places.ghost_name }
        ensures same { Same P.Plant self.old self.new }
        ensures serves { Admits L.Layout P.Plant self.old self.new demand.number demand.source demand.destination limit result (page_of orders.old) (page_of orders.new) walk.old walk.new }
    {
        self.admit_booked(demand, limit, orders, walk)
    }

    /// Ends a session: the wavelength that it gives up.
    pub fn release(&mut self, number: u32, orders: &mut Sheet<Order>) -> Result<u8, CallRefusal>
        ensures place { orders.new.places.ghost_name ≡ orders.old.places.ghost_name }
        ensures same { Same P.Plant self.old self.new }
        ensures serves { Releases L.Layout P.Plant self.old self.new number result (page_of orders.old) (page_of orders.new) }
    {
        let released = self.book.release(number, orders)?;
        let _ = darken(&mut self.plant, released);
        Ok(released.wavelength)
    }

    /// What an admission without a limit would answer.
    pub fn quote(&self, demand: Demand, walk: &mut [u16]) -> Result<(u8, u8), CallRefusal>
        ensures { Quotes L.Layout P.Plant self.now demand.number demand.source demand.destination result walk.old walk.new }
    {
        self.quote_booked(demand, walk)
    }

    /// The session of this number: its wavelength and both sites.
    pub fn locate(&self, number: u32) -> Result<Session, CallRefusal>
        ensures session { IfOk result (λ s. first (bears number) (standing_in self.now.book) ≡ Some s) }
        ensures serves { Locates L.Layout P.Plant self.now number result }
    {
        self.locate_booked(number)
    }

    /// Writes the standing sessions by wavelength, then source group, and tells how many they are.
    pub fn list(&self, rows: &mut Sheet<Session>) -> Result<usize, CallRefusal>
        ensures place { rows.new.places.ghost_name ≡ rows.old.places.ghost_name }
        ensures serves { Lists L.Layout P.Plant self.now result (page_of rows.old) (page_of rows.new) }
    {
        self.list_booked(rows)
    }
}
