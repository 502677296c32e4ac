//! The list of the standing sessions.
ghost use Rattle.controller.specs.Service.{answer_of};
ghost use Rattle.std.specs.Prelude.{◌≡◌, ◌++◌, map, Some, string_bytes, OnOk};
ghost use Rattle.text.specs.Lists.{ends_listed, list_bytes, rows_shown, session_bytes};
ghost use Rattle.sheet.specs.Pages.{page_of};

use book::refusal::CallRefusal;
use controller::answer::Answer;
use reckoning::session::Session;
use sheet::sheet::Sheet;
use std::alloc::AllocError;
use std::fmt;

/// A session as a line of the list.
#[derive(Clone, Copy)]
struct ListLine(Session);

impl fmt::Display for ListLine {
    ghost output = { λ x. Some (session_bytes x.0) };

    fn fmt<W: fmt::Write>(&self, f: &mut fmt::Formatter<W>) -> fmt::Result {
        let Session {
            number,
            source,
            destination,
            wavelength,
        } = self.0;
        write!(f, "{number} {source} {destination} {wavelength}\n")
    }
}

/// Appends the names line, and a line for each session.
pub(crate) fn add_list(out: &mut String, sessions: &[Session]) -> Result<(), AllocError>
    ensures { OnOk result (string_bytes out.new ≡ string_bytes out.old ++ list_bytes sessions.now) }
{
    out.push_str("session from to wavelength\n")?;
    for session in sessions {
        let line = ListLine(*session);
        write!(out, "{line}")?;
    }
    Ok(())
}

/// Is the last answer that of a list which was accepted?
fn ends_listed(answers: &[Result<Answer, CallRefusal>]) -> bool
    ensures { result ≡ ends_listed (map answer_of answers.now) }
{
    matches!(answers.last(), Some(Ok(Answer::Listed { .. })))
}

/// What the sheet holds where the last call, a list, was accepted; a refused one leaves the sheet as it was, so nothing.
pub(crate) fn listed<'a>(
    answers: &[Result<Answer, CallRefusal>],
    rows: &'a Sheet<Session>,
) -> &'a [Session]
    ensures { result.now ≡ rows_shown (map answer_of answers.now) (page_of rows.now) }
{
    if ends_listed(answers) {
        rows.as_slice()
    } else {
        &[]
    }
}
