//! Why a call is refused.
ghost use Rattle.std.specs.Prelude.{◌≡◌};
ghost use Rattle.book.specs.Refusals.{refusal_number};

#[derive(Clone, Copy, PartialEq, Eq, Debug)]
pub enum CallRefusal {
    /// Layout and plant do not count the same groups, or count none.
    Unfit,
    /// The plant was lit when the controller was made.
    LitAtMaking,
    NoNumber,
    NoSite,
    SameSite,
    NumberTaken,
    NotStanding,
    OrderRoom,
    WalkRoom,
    RowRoom,
    NoTransmitter,
    NoReceiver,
    /// Every wavelength is lit out of the source's group.
    SourceFull,
    /// Every wavelength is lit into the destination's group.
    DestinationFull,
    TooManyMoves,
}

impl CallRefusal {
    /// The number that stands for the refusal outside the program.
    pub fn number(self) -> u8
        ensures { result ≡ refusal_number self }
    {
        match self {
            CallRefusal::Unfit => 1,
            CallRefusal::LitAtMaking => 2,
            CallRefusal::NoNumber => 11,
            CallRefusal::NoSite => 12,
            CallRefusal::SameSite => 13,
            CallRefusal::NumberTaken => 14,
            CallRefusal::NotStanding => 15,
            CallRefusal::OrderRoom => 16,
            CallRefusal::WalkRoom => 17,
            CallRefusal::RowRoom => 18,
            CallRefusal::NoTransmitter => 21,
            CallRefusal::NoReceiver => 22,
            CallRefusal::SourceFull => 23,
            CallRefusal::DestinationFull => 24,
            CallRefusal::TooManyMoves => 25,
        }
    }
}
