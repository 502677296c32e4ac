//! The answer table.
ghost use Rattle.std.specs.Option.{option_map_or};
ghost use Rattle.std.specs.Prelude.{◌≡◌, IfOk, Some, codes, string_bytes};
ghost use Rattle.text.specs.Rows.{fault_row, plain_row, row_bytes, table_bytes};

use request::fault::RunFault;
use request::layer::Layer;
use std::alloc::{AllocError, Global};
use std::fmt;

/// A row of the table: what is not given prints as `-`.
#[derive(Clone, Copy, PartialEq, Eq, Debug)]
pub struct Row {
    pub line: u32,
    pub answer: u32,
    pub layer: Option<Layer>,
    pub word: Option<u32>,
    pub wavelength: Option<u32>,
    pub moves: Option<u32>,
}

impl Row {
    /// The row of a line that is accepted, of which no more is told.
    pub(crate) fn accepted(line: u32) -> Row
        ensures { result ≡ plain_row line }
    {
        Row {
            line,
            answer: 0,
            layer: None,
            word: None,
            wavelength: None,
            moves: None,
        }
    }

    /// The row that answers a fault.
    pub(crate) fn fault(line: u32, fault: RunFault) -> Row
        ensures { result ≡ fault_row line fault }
    {
        Row {
            answer: fault.number(),
            layer: Some(fault.layer()),
            word: fault.word(),
            ..Row::accepted(line)
        }
    }
}

/// A value, or `-` where none is given.
#[derive(Clone, Copy)]
struct OrDash<T>(Option<T>);

impl<T: fmt::Display> fmt::Display for OrDash<T> {
    ghost output = { λ x. option_map_or T.output x.0 (Some (codes "-")) };

    fn fmt<W: fmt::Write>(&self, f: &mut fmt::Formatter<W>) -> fmt::Result {
        match &self.0 {
            None => write!(f, "-"),
            Some(value) => write!(f, "{value}"),
        }
    }
}

impl fmt::Display for Row {
    ghost output = { λ x. Some (row_bytes x) };

    fn fmt<W: fmt::Write>(&self, f: &mut fmt::Formatter<W>) -> fmt::Result {
        let Row { line, answer, .. } = *self;
        let layer = OrDash(self.layer);
        let word = OrDash(self.word);
        let wavelength = OrDash(self.wavelength);
        let moves = OrDash(self.moves);
        write!(f, "{line} {answer} {layer} {word} {wavelength} {moves}\n")
    }
}

/// The names line, and then the rows.
pub fn table(alloc: Global, rows: &[Row]) -> Result<String, AllocError>
    ensures { IfOk result (λ s. string_bytes s ≡ table_bytes rows.now) }
{
    let mut out = String::from_str(alloc, "line answer layer word wavelength moves\n")?;
    for row in rows {
        write!(out, "{row}")?;
    }
    Ok(out)
}
