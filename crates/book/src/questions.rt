//! The questions of the calls, in their order.
ghost use Rattle.std.specs.Prelude.{◌≡◌, ◌-◌, ◌*◌, ◌<◌, [], ◌∷◌, ◌++◌, IfOk, if◌then◌else◌, Some, Ok, Err};
ghost use Rattle.reckoning.specs.Lists.{first};
ghost use Rattle.reckoning.specs.Questions.{verdict, fit, numbered, ends, bearer, order_room, walk_room, ports, loads, admit_before, quote_questions};
ghost use Rattle.reckoning.specs.Standing.{bears, borne};
ghost use Rattle.book.specs.Books.{parts_in, standing_in};
ghost use Rattle.book.specs.Refusals.{answer_number};

use crate::book::Book;
use crate::key::Key;
use crate::refusal::CallRefusal;
use reckoning::demand::Demand;
use reckoning::session::Session;

pub(crate) fn ask(holds: bool, refusal: CallRefusal) -> Result<(), CallRefusal>
    ensures { result ≡ (if holds then Ok tt else Err refusal) }
{
    if holds { Ok(()) } else { Err(refusal) }
}

impl Book {
    /// Do layout and plant fit?
    pub(crate) fn ask_fit(&self) -> Result<(), CallRefusal>
        ensures { answer_number result ≡ verdict (fit (parts_in self.now)) }
    {
        let t = &self.setting;
        ask(t.groups == t.span && 1 <= t.span, CallRefusal::Unfit)?;
        ask(t.dark, CallRefusal::LitAtMaking)
    }

    fn ask_numbered(&self, number: u32) -> Result<(), CallRefusal>
        ensures { answer_number result ≡ verdict (numbered (parts_in self.now) number) }
    {
        self.ask_fit()?;
        ask(1 <= number, CallRefusal::NoNumber)
    }

    /// Can a session be new under this number, from one site to another?
    fn ask_ends(&self, demand: Demand) -> Result<(), CallRefusal>
        ensures { answer_number result ≡ verdict (ends (parts_in self.now) (standing_in self.now) demand.number demand.source demand.destination) }
    {
        let sites = self.setting.sites.len() as u32;
        self.ask_numbered(demand.number)?;
        ask(
            demand.source < sites && demand.destination < sites,
            CallRefusal::NoSite,
        )?;
        ask(demand.source != demand.destination, CallRefusal::SameSite)?;
        ask(!self.is_borne(demand.number), CallRefusal::NumberTaken)
    }

    fn is_borne(&self, number: u32) -> bool
        ensures { result ≡ borne (standing_in self.now) number }
    {
        self.look_up(Key::Number(number)).is_some()
    }

    /// The standing session of this number.
    pub(crate) fn ask_bearer(&self, number: u32) -> Result<Session, CallRefusal>
        ensures answer { answer_number result ≡ verdict (bearer (parts_in self.now) (standing_in self.now) number) }
        ensures found { IfOk result (λ s. first (bears number) (standing_in self.now) ≡ Some s) }
    {
        self.ask_numbered(number)?;
        self.look_up(Key::Number(number))
            .ok_or(CallRefusal::NotStanding)
    }

    fn ask_order_room(&self, places: usize) -> Result<(), CallRefusal>
        ensures { answer_number result ≡ verdict (order_room (2 * (parts_in self.now).plant_groups - 1) (record { orders = places; rows = 0 }) ∷ []) }
    {
        let most = 2 * self.setting.span as usize;
        ask(most.saturating_sub(1) <= places, CallRefusal::OrderRoom)
    }

    fn ask_walk_room(&self, walk: &[u16]) -> Result<(), CallRefusal>
        ensures { answer_number result ≡ verdict (walk_room (parts_in self.now) walk.now ∷ []) }
    {
        let both = 2 * self.setting.span as usize;
        ask(both.saturating_sub(2) <= walk.len(), CallRefusal::WalkRoom)
    }

    /// Is a port free at both sites, and a wavelength at both groups?
    fn ask_free(&self, source: u8, destination: u8) -> Result<(), CallRefusal>
        requires { (source < (parts_in self.now).sites) × (destination < (parts_in self.now).sites) }
        ensures { answer_number result ≡ verdict (ports (parts_in self.now) (standing_in self.now) source destination ++ loads (parts_in self.now) (standing_in self.now) source destination) }
    {
        let t = &self.setting;
        let sent = self.tell(Key::From(source));
        ask(
            sent < t.ports_of(source) as usize,
            CallRefusal::NoTransmitter,
        )?;
        let received = self.tell(Key::To(destination));
        ask(
            received < t.ports_of(destination) as usize,
            CallRefusal::NoReceiver,
        )?;
        let up = self.outward.load(t.group_of(source));
        ask(up < t.waves as u32, CallRefusal::SourceFull)?;
        let down = self.inward.load(t.group_of(destination));
        ask(down < t.waves as u32, CallRefusal::DestinationFull)
    }

    /// The questions of a quote.
    pub(crate) fn ask_quote(&self, demand: Demand, walk: &[u16]) -> Result<(), CallRefusal>
        ensures { answer_number result ≡ verdict (quote_questions (parts_in self.now) (standing_in self.now) walk.now demand.number demand.source demand.destination) }
    {
        self.ask_ends(demand)?;
        self.ask_walk_room(walk)?;
        self.ask_free(demand.source as u8, demand.destination as u8)
    }

    /// The questions of an admission, but for the limit.
    pub(crate) fn ask_admit(
        &self,
        demand: Demand,
        places: usize,
        walk: &[u16],
    ) -> Result<(), CallRefusal>
        ensures { answer_number result ≡ verdict (admit_before (parts_in self.now) (record { orders = places; rows = 0 }) (standing_in self.now) walk.now demand.number demand.source demand.destination ++ loads (parts_in self.now) (standing_in self.now) demand.source demand.destination) }
    {
        self.ask_ends(demand)?;
        self.ask_order_room(places)?;
        self.ask_walk_room(walk)?;
        self.ask_free(demand.source as u8, demand.destination as u8)
    }
}
