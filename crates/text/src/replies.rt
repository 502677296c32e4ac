//! The rows of the answer table for requests that were served.
ghost use Rattle.controller.specs.Service.{answer_of};
ghost use Rattle.std.specs.Prelude.{◌≡◌, map, IfOk};
ghost use Rattle.text.specs.Answered.{accepted_row, answer_row, refused_row, rows_for};

use crate::answers::Row;
use book::refusal::CallRefusal;
use controller::answer::Answer;
use request::layer::Layer;
use request::reader::Entry;
use std::alloc::{AllocError, Global};

fn accepted_row(line: u32, wavelength: u8, moves: u8) -> Row
    ensures { result ≡ accepted_row line wavelength moves }
{
    Row {
        wavelength: Some(u32::from(wavelength)),
        moves: Some(u32::from(moves)),
        ..Row::accepted(line)
    }
}

fn refused_row(line: u32, number: u8) -> Row
    ensures { result ≡ refused_row line number }
{
    Row {
        answer: u32::from(number),
        layer: Some(Layer::Session),
        ..Row::accepted(line)
    }
}

/// The row of a request that was served; a list, which no line asks for, has neither wavelength nor moves.
fn answer_row(line: u32, answer: Result<Answer, CallRefusal>) -> Row
    ensures { result ≡ answer_row line (answer_of answer) }
{
    match answer {
        Ok(Answer::Admitted { wavelength, moves }) => accepted_row(line, wavelength, moves),
        Ok(Answer::Quoted { wavelength, moves }) => accepted_row(line, wavelength, moves),
        Ok(Answer::Released { wavelength }) => accepted_row(line, wavelength, 0),
        Ok(Answer::Found { wavelength, .. }) => accepted_row(line, wavelength, 0),
        Ok(Answer::Listed { .. }) => Row::accepted(line),
        Err(refusal) => refused_row(line, refusal.number()),
    }
}

/// A row for each line: its fault, or the next answer.
pub(crate) fn answer_rows(
    alloc: Global,
    entries: &[Entry],
    answers: &[Result<Answer, CallRefusal>],
) -> Result<Vec<Row>, AllocError>
    ensures { IfOk result (λ v. v.items ≡ rows_for entries.now (map answer_of answers.now)) }
{
    let mut rows = Vec::new(alloc);
    let mut left = answers.iter();
    for entry in entries {
        match entry.outcome {
            Ok(_) => {
                if let Some(answer) = left.next() {
                    rows.push(answer_row(entry.line, *answer))?;
                }
            }
            Err(fault) => rows.push(Row::fault(entry.line, fault))?,
        }
    }
    Ok(rows)
}
