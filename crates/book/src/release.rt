//! Release, and where a session stands.
ghost use Rattle.std.specs.Prelude.{◌≡◌, ℕ, List, length, IfOk, Some};
ghost use Rattle.reckoning.specs.Calls.{locate, release};
ghost use Rattle.reckoning.specs.Lists.{first};
ghost use Rattle.reckoning.specs.Standing.{bears};
ghost use Rattle.book.specs.Books.{parts_in, standing_in};
ghost use Rattle.book.specs.Calls.{Booked, darkens, release_answer, told, where_answer};
ghost use Rattle.sheet.specs.Pages.{page_of};

use crate::book::Book;
use crate::questions::ask;
use crate::refusal::CallRefusal;
use plant::lightpath::Lightpath;
use reckoning::order::Order;
use reckoning::session::Session;
use sheet::sheet::Sheet;

impl Book {
    /// Ends a session, on paper: tells the lightpath that the plant is to darken, or refuses.
    pub fn release(
        &mut self,
        number: u32,
        orders: &mut Sheet<Order>,
    ) -> Result<Lightpath, CallRefusal>
        ensures same { orders.new.places.ghost_name ≡ orders.old.places.ghost_name }
        ensures booked { (walk : List ℕ) → Booked (release (parts_in self.old) (record { orders = length (page_of orders.entry.now).places; rows = 0 }) (standing_in self.old) walk number) (release_answer result) (told darkens result) self.old self.new (page_of orders.entry.now) (page_of orders.exit.now) }
    {
        let s = self.ask_bearer(number)?;
        ask(1 <= orders.room(), CallRefusal::OrderRoom)?;
        self.setting.write_darkening(s, orders);
        let path = self.setting.lightpath(s);
        self.leave(number);
        Ok(path)
    }

    /// The session of this number, where it stands.
    pub fn locate(&self, number: u32) -> Result<Session, CallRefusal>
        ensures session { IfOk result (λ s. first (bears number) (standing_in self.now) ≡ Some s) }
        ensures answer { (walk : List ℕ) → where_answer result ≡ (locate (parts_in self.now) (standing_in self.now) walk number).answer }
    {
        self.ask_bearer(number)
    }
}
