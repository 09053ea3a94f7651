//! Finishes a run: answers the query over the rows that came, and writes the answer.

ghost use Rattle.std.specs.Prelude.{◌≡◌, ◌≤◌, length, IfOk};
ghost use Rattle.med_top.specs.Outcomes.{Finishes, FinishesAnswer};
ghost use Rattle.query_core.specs.Answers.{answer_of};

use crate::groups::RunEnd;
use crate::taking::IDLE_LIMIT;
use med_base::{Sink, SinkFault, Status};
use out_text::write_rows;
use query_core::{Arrivals, Query};
use query_model::slow_heads;
use row_pages::{Rows, sorted_distinct};
use std::alloc::{AllocError, Global};

/// The status that the end of a run comes to, which for one whose groups are settled is that of writing the answer.
pub fn finish<W: Sink>(
    alloc: Global,
    out: &mut W,
    query: &Query,
    arrivals: Vec<Rows>,
    end: RunEnd,
) -> Status
    requires head { length query.now.head ≤ 64 }
    ensures { Finishes (record { old = W.written out.old; new = W.written out.new }) (record { old = W.faults out.old; new = W.faults out.new }) query.now arrivals.items end result }
{
    match end {
        RunEnd::Settled => write_answer(alloc, out, query, Arrivals::from_vec(arrivals)),
        RunEnd::Starved(group) => Status::Starved { group },
        RunEnd::Stalled => Status::Stalled { rounds: IDLE_LIMIT },
    }
}

/// The rows of the answer. The rows that came are let go before those of the answer are put into order.
fn answer_rows(alloc: Global, query: &Query, arrivals: Arrivals) -> Result<Rows, AllocError>
    requires head { length query.now.head ≤ 64 }
    ensures { IfOk result (λ rows. rows ≡ answer_of query.now arrivals) }
{
    let heads = slow_heads(alloc, query, &arrivals)?;
    drop(arrivals);
    sorted_distinct(alloc, heads)
}

/// Writes the rows of the answer.
fn write_answer<W: Sink>(alloc: Global, out: &mut W, query: &Query, arrivals: Arrivals) -> Status
    requires head { length query.now.head ≤ 64 }
    ensures { FinishesAnswer (record { old = W.written out.old; new = W.written out.new }) (record { old = W.faults out.old; new = W.faults out.new }) query.now arrivals result }
{
    let Ok(rows) = answer_rows(alloc, query, arrivals) else {
        return Status::NoMemory;
    };
    match write_rows(alloc, &rows, out) {
        Ok(()) => Status::Done,
        Err(SinkFault::Failed) => Status::OutFault,
        Err(SinkFault::NoMemory) => Status::NoMemory,
    }
}
