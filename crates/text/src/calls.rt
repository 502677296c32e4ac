//! The calls that a text asks for.
ghost use Rattle.std.specs.Prelude.{◌≡◌, IfOk};
ghost use Rattle.text.specs.Asked.{asked, call_of, calls_of, outcome_call};

use reckoning::call::Call;
use request::act::{Act, Request};
use request::fault::RunFault;
use request::reader::Entry;
use std::alloc::{AllocError, Global};

/// The call that an act asks for.
fn call_of(act: Act) -> Call
    ensures { result ≡ call_of act }
{
    match act {
        Act::Add {
            session,
            from,
            to,
            limit,
        } => Call::Admit {
            number: session,
            source: from,
            destination: to,
            limit,
        },
        Act::Drop { session } => Call::Release { number: session },
        Act::Quote { session, from, to } => Call::Quote {
            number: session,
            source: from,
            destination: to,
        },
        Act::Find { session } => Call::Where { number: session },
    }
}

/// The call of a line that reads well.
fn outcome_call(outcome: Result<Request, RunFault>) -> Option<Call>
    ensures { result ≡ outcome_call outcome }
{
    Some(call_of(outcome.ok()?.act))
}

/// The calls of the lines that read well, in order.
fn asked(alloc: Global, entries: &[Entry]) -> Result<Vec<Call>, AllocError>
    ensures { IfOk result (λ v. v.items ≡ asked entries.now) }
{
    entries
        .iter()
        .filter_map(|entry| outcome_call(entry.outcome))
        .collect(alloc)
}

/// The calls of the lines that read well, in order, and a list behind them.
pub(crate) fn calls_of(alloc: Global, entries: &[Entry]) -> Result<Vec<Call>, AllocError>
    ensures { IfOk result (λ v. v.items ≡ calls_of entries.now) }
{
    let mut calls = asked(alloc, entries)?;
    calls.push(Call::List)?;
    Ok(calls)
}
