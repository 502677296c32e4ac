//! A whole text, read line by line.
ghost use Rattle.std.specs.Prelude.{◌≡◌, ◌≤◌, length, IfOk, Ok, Err, MatchResult};
ghost use Rattle.request.specs.Laws.{FormatLaws};
ghost use Rattle.request.specs.Lines.{line_of, line_outcome, lines_of, read_lines, read_text, request_lines};

use crate::act::{Request, read_line};
use crate::fault::RunFault;
use crate::lines::{Line, Lines};
use std::alloc::{AllocError, Global};

/// The largest text that is read.
pub const MOST_BYTES: usize = 65_536;

/// The line that a text begins with, which names the words of the lines behind it.
const NAMES: [u8; 24] = *b"op session from to limit";

/// What a line reads as, with the number of the line.
#[derive(Clone, Copy, PartialEq, Eq, Debug)]
pub struct Entry {
    pub line: u32,
    pub outcome: Result<Request, RunFault>,
}

/// The lines behind the names line.
fn request_lines(text: &[u8]) -> Result<Lines<'_>, RunFault>
    ensures { MatchResult result (λ ls. (request_lines text.now ≡ Ok (lines_of ls.rest.now)) × (length (lines_of ls.rest.now) ≤ 65536)) (λ f. request_lines text.now ≡ Err f) }
{
    if text.len() > MOST_BYTES {
        return Err(RunFault::TooLong);
    }
    let mut lines = Lines { rest: text };
    match lines.next() {
        Some(line) if line.ended && line.bytes == NAMES.as_slice() => Ok(lines),
        _ => Err(RunFault::NoNames),
    }
}

/// The outcome of line `number`.
fn line_outcome(number: u32, line: Line) -> Result<Request, RunFault>
    ensures { result ≡ line_outcome number (line_of line.entry) }
{
    Ok(read_line(number, line)?)
}

/// What each line reads as, the first being line 2.
fn read_lines(alloc: Global, lines: Lines) -> Result<Vec<Entry>, AllocError>
    requires { length (lines_of lines.rest.now) ≤ 65536 }
    ensures { IfOk result (λ v. v.items ≡ read_lines 2 (lines_of lines.entry.rest.now)) }
{
    let mut entries = Vec::new(alloc);
    for (line, number) in lines.zip(2..) {
        entries.push(Entry {
            line: number,
            outcome: line_outcome(number, line),
        })?;
    }
    Ok(entries)
}

/// What the format means, apart from how it is read. There is nothing to do: the promise is all.
fn format_laws()
    ensures { FormatLaws }
{}

/// What a text reads as: an entry for each line behind the names line, or one for line 1 that refuses it whole.
pub fn read_text(alloc: Global, text: &[u8]) -> Result<Vec<Entry>, AllocError>
    ensures entries { IfOk result (λ v. v.items ≡ read_text text.now) }
    ensures laws { FormatLaws }
{
    format_laws();
    match request_lines(text) {
        Ok(lines) => read_lines(alloc, lines),
        Err(fault) => {
            let refused = Entry {
                line: 1,
                outcome: Err(fault),
            };
            Ok(vec![in alloc; refused]?)
        }
    }
}
