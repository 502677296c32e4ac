//! Admission, and its quote.
ghost use Rattle.std.specs.Prelude.{◌≡◌, ◌+◌, ◌*◌, ◌<◌, ◌≤◌, true, [], ◌∷◌, ◌++◌, map, reverse, length, Some};
ghost use Rattle.plant.specs.Orders.{change_over, light};
ghost use Rattle.reckoning.specs.declared.order.Kind.TheVariants.{Light};
ghost use Rattle.reckoning.specs.Calls.{admit, quote};
ghost use Rattle.sheet.specs.Pages.{page_of};
ghost use Rattle.sheet.specs.Sheets.{rewritten};
ghost use Rattle.reckoning.specs.Sheets.{chain_orders, order, retuning};
ghost use Rattle.reckoning.specs.Soundness.{sound_test};
ghost use Rattle.book.specs.Books.{parts_in, standing_in};
ghost use Rattle.book.specs.Calls.{Booked, Carried, Prepared, admit_answer, changes, quote_answer, told};
ghost use Rattle.book.specs.Moves.{shift};

use crate::book::Book;
use crate::change::Change;
use crate::course::Course;
use crate::moving::Exchange;
use crate::refusal::CallRefusal;
use reckoning::demand::Demand;
use reckoning::order::Order;
use reckoning::session::Session;
use sheet::sheet::Sheet;

impl Book {
    /// The questions, the choice and the limit.
    fn prepare(
        &self,
        demand: Demand,
        limit: u32,
        places: usize,
        walk: &mut [u16],
    ) -> Result<Course, CallRefusal>
        ensures { Prepared (parts_in self.now) (record { orders = places; rows = 0 }) (standing_in self.now) walk.old demand.number demand.source demand.destination limit walk.new result }
    {
        self.ask_admit(demand, places, walk)?;
        let a = self.setting.group_of(demand.source as u8);
        let b = self.setting.group_of(demand.destination as u8);
        let course = self.choose(a, b, walk);
        if course.moves > limit as usize {
            return Err(CallRefusal::TooManyMoves);
        }
        Ok(course)
    }

    /// The chain moves, and the new session stands.
    fn carry_out(
        &mut self,
        chain: &[Session],
        exchange: Exchange,
        new: Session,
        orders: &mut Sheet<Order>,
    ) -> Change
        requires few { length chain.now ≤ 32 }
        requires room { 2 * length chain.now + 1 ≤ length (page_of orders.old).places }
        requires place { length (standing_in self.old) < 1024 }
        requires sound { sound_test (parts_in self.old) (new ∷ map (shift chain.now exchange.p exchange.q) (standing_in self.old)) ≡ true }
        ensures { Carried chain.now exchange.p exchange.q new self.old self.new (page_of orders.old) (page_of orders.new) result }
    {
        self.setting.write_orders(chain, exchange, new, orders);
        let change = Change {
            moves: chain.len() as u8,
            chain: self.setting.retunings(chain, exchange),
            path: self.setting.lightpath(new),
        };
        self.enter(chain, exchange, new);
        change
    }

    /// Lets a new session stand, on paper: tells what the plant is to do, or refuses.
    pub fn admit(
        &mut self,
        demand: Demand,
        limit: u32,
        orders: &mut Sheet<Order>,
        walk: &mut [u16],
    ) -> Result<Change, CallRefusal>
        ensures same { orders.new.places.ghost_name ≡ orders.old.places.ghost_name }
        ensures booked { Booked (admit (parts_in self.old) (record { orders = length (page_of orders.entry.now).places; rows = 0 }) (standing_in self.old) walk.old demand.number demand.source demand.destination limit) (admit_answer result) (told changes result) self.old self.new (page_of orders.entry.now) (page_of orders.exit.now) }
        ensures walk { walk.new ≡ (admit (parts_in self.old) (record { orders = length (page_of orders.entry.now).places; rows = 0 }) (standing_in self.old) walk.old demand.number demand.source demand.destination limit).walk }
    {
        let course = self.prepare(demand, limit, orders.room(), walk)?;
        let begin = course.begin;
        let end = begin + course.moves;
        let moving = self.sessions_at(&walk[begin..end]);
        let new = Session {
            number: demand.number,
            source: demand.source as u8,
            destination: demand.destination as u8,
            wavelength: course.gives,
        };
        Ok(self.carry_out(&moving, course.exchange, new, orders))
    }

    /// What an admission without a limit would answer.
    pub fn quote(&self, demand: Demand, walk: &mut [u16]) -> Result<(u8, u8), CallRefusal>
        ensures answer { quote_answer result ≡ (quote (parts_in self.now) (standing_in self.now) walk.old demand.number demand.source demand.destination).answer }
        ensures walk { walk.new ≡ (quote (parts_in self.now) (standing_in self.now) walk.old demand.number demand.source demand.destination).walk }
    {
        self.ask_quote(demand, walk)?;
        let a = self.setting.group_of(demand.source as u8);
        let b = self.setting.group_of(demand.destination as u8);
        let course = self.choose(a, b, walk);
        Ok((course.gives, course.moves as u8))
    }
}
