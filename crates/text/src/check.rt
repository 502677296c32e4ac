//! A text checked without being served: the table that says how each line reads.
ghost use Rattle.std.specs.Prelude.{◌≡◌, map, IfOk, string_bytes};
ghost use Rattle.text.specs.Checks.{check_row, check_table};

use crate::answers::{Row, table};
use request::reader::{Entry, read_text};
use std::alloc::{AllocError, Global};

/// The row of an entry: 0 where the line reads well.
fn check_row(entry: Entry) -> Row
    ensures { result ≡ check_row entry }
{
    match entry.outcome {
        Ok(_) => Row::accepted(entry.line),
        Err(fault) => Row::fault(entry.line, fault),
    }
}

fn check_rows(alloc: Global, entries: &[Entry]) -> Result<Vec<Row>, AllocError>
    ensures { IfOk result (λ v. v.items ≡ map check_row entries.now) }
{
    entries.iter().map(|entry| check_row(*entry)).collect(alloc)
}

/// The table that answers a text with 0 for each line that reads well, and with its fault for each other line.
pub fn check_text(alloc: Global, text: &[u8]) -> Result<String, AllocError>
    ensures { IfOk result (λ s. string_bytes s ≡ check_table text.now) }
{
    let entries = read_text(alloc, text)?;
    let rows = check_rows(alloc, entries.as_slice())?;
    table(alloc, rows.as_slice())
}
