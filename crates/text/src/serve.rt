//! A text is read, its calls are served, and the answers are written.
ghost use Rattle.controller.specs.Service.{Same, answer_of, moment};
ghost use Rattle.std.specs.Prelude.{◌≡◌, map, IfOk, OnErr, string_bytes};
ghost use Rattle.text.specs.Lists.{rows_shown};
ghost use Rattle.text.specs.Served.{NothingOrAll, ServedText, output_bytes};
ghost use Rattle.sheet.specs.Pages.{page_of};

use crate::answers::table;
use crate::calls::calls_of;
use crate::list::{add_list, listed};
use crate::replies::answer_rows;
use book::refusal::CallRefusal;
use controller::answer::Answer;
use controller::controller::Controller;
use network::layout::Layout;
use plant::Plant;
use reckoning::order::Order;
use reckoning::session::Session;
use request::reader::{Entry, read_text};
use sheet::sheet::Sheet;
use std::alloc::{AllocError, Global};

/// The answer table, and the list of the sessions that stand once all is answered.
fn write_answers(
    alloc: Global,
    entries: &[Entry],
    answers: &[Result<Answer, CallRefusal>],
    rows: &Sheet<Session>,
) -> Result<String, AllocError>
    ensures { IfOk result (λ s. string_bytes s ≡ output_bytes entries.now (map answer_of answers.now) (rows_shown (map answer_of answers.now) (page_of rows.now))) }
{
    let answered = answer_rows(alloc, entries, answers)?;
    let mut out = table(alloc, answered.as_slice())?;
    add_list(&mut out, listed(answers, rows))?;
    Ok(out)
}

/// Serves the calls of a text as one list, and writes the answer table and the list of the sessions that then stand.
pub fn serve_text<L: Layout + Drop, P: Plant + Drop>(
    alloc: Global,
    controller: &mut Controller<L, P>,
    text: &[u8],
    orders: &mut Sheet<Order>,
    rows: &mut Sheet<Session>,
    walk: &mut [u16],
) -> Result<String, AllocError>
    ensures order_place { orders.new.places.ghost_name ≡ orders.old.places.ghost_name }
    ensures row_place { rows.new.places.ghost_name ≡ rows.old.places.ghost_name }
    ensures same { Same P.Plant controller.old controller.new }
    ensures served { IfOk result (λ s. ServedText L.Layout controller.old text.now (string_bytes s) (moment P.Plant controller.old (page_of orders.old) (page_of rows.old) walk.old) (moment P.Plant controller.new (page_of orders.new) (page_of rows.new) walk.new)) }

    // Memory may fail before the calls are served or after it.
    ensures failed { OnErr result (NothingOrAll L.Layout controller.old text.now (moment P.Plant controller.old (page_of orders.old) (page_of rows.old) walk.old) (moment P.Plant controller.new (page_of orders.new) (page_of rows.new) walk.new)) }
{
    let entries = read_text(alloc, text)?;
    let calls = calls_of(alloc, entries.as_slice())?;
    let answers = controller.serve(alloc, calls.as_slice(), orders, rows, walk)?;
    write_answers(alloc, entries.as_slice(), answers.as_slice(), rows)
}
