//! Why a text, a line or a word is refused. Each fault holds the fault below it whole.
ghost use Rattle.request.specs.Faults.{line_layer, line_number, line_word, number_layer, number_number, number_word, run_layer, run_number, run_word};
ghost use Rattle.request.specs.declared.fault.LineFault.TheVariants.{Number};
ghost use Rattle.request.specs.declared.fault.RunFault.TheVariants.{Line};
ghost use Rattle.std.specs.Prelude.{◌≡◌};

use crate::layer::Layer;

/// Why a word is no number, with the word's place in its line.
#[derive(Clone, Copy, PartialEq, Eq, Debug)]
pub enum NumberFault {
    NotDigits { word: u32 },
    TooLarge { word: u32 },
}

/// Why a line is no request.
#[derive(Clone, Copy, PartialEq, Eq, Debug)]
pub enum LineFault {
    Unended,
    Spacing,
    UnknownAct,
    Dash { word: u32 },
    Number(NumberFault),
}

/// Why a run answers with a fault.
#[derive(Clone, Copy, PartialEq, Eq, Debug)]
pub enum RunFault {
    TooLong,
    NoNames,
    Line(LineFault),
}

impl From<NumberFault> for LineFault {
    ghost from_gives = { λ e r. r ≡ Number e };

    fn from(e: NumberFault) -> LineFault {
        LineFault::Number(e)
    }
}

impl From<LineFault> for RunFault {
    ghost from_gives = { λ e r. r ≡ Line e };

    fn from(e: LineFault) -> RunFault {
        RunFault::Line(e)
    }
}

impl NumberFault {
    fn number(self) -> u32
        ensures { result ≡ number_number self }
    {
        match self {
            NumberFault::NotDigits { .. } => 81,
            NumberFault::TooLarge { .. } => 82,
        }
    }

    fn layer(self) -> Layer
        ensures { result ≡ number_layer self }
    {
        Layer::Number
    }

    fn word(self) -> u32
        ensures { result ≡ number_word self }
    {
        match self {
            NumberFault::NotDigits { word } | NumberFault::TooLarge { word } => word,
        }
    }
}

impl LineFault {
    fn number(self) -> u32
        ensures { result ≡ line_number self }
    {
        match self {
            LineFault::Unended => 73,
            LineFault::Spacing => 74,
            LineFault::UnknownAct => 75,
            LineFault::Dash { .. } => 76,
            LineFault::Number(fault) => fault.number(),
        }
    }

    fn layer(self) -> Layer
        ensures { result ≡ line_layer self }
    {
        match self {
            LineFault::Number(fault) => fault.layer(),
            _ => Layer::Line,
        }
    }

    fn word(self) -> Option<u32>
        ensures { result ≡ line_word self }
    {
        match self {
            LineFault::Unended | LineFault::Spacing => None,
            LineFault::UnknownAct => Some(1),
            LineFault::Dash { word } => Some(word),
            LineFault::Number(fault) => Some(fault.word()),
        }
    }
}

impl RunFault {
    /// The number that the fault is answered with.
    pub fn number(self) -> u32
        ensures { result ≡ run_number self }
    {
        match self {
            RunFault::TooLong => 71,
            RunFault::NoNames => 72,
            RunFault::Line(fault) => fault.number(),
        }
    }

    /// The layer that found the fault.
    pub fn layer(self) -> Layer
        ensures { result ≡ run_layer self }
    {
        match self {
            RunFault::TooLong | RunFault::NoNames => Layer::Text,
            RunFault::Line(fault) => fault.layer(),
        }
    }

    /// The word at fault, 1 to 5, where there is one.
    pub fn word(self) -> Option<u32>
        ensures { result ≡ run_word self }
    {
        match self {
            RunFault::TooLong | RunFault::NoNames => None,
            RunFault::Line(fault) => fault.word(),
        }
    }
}
