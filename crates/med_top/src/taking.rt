//! Takes the rows of a source, up to its end or to a fault, or until it lets wait for too long.

ghost use Rattle.std.specs.Prelude.{◌≡◌, ◌≤◌, [], List, IfOk};
ghost use Rattle.csv_wrap.specs.Wrapped.{HasGiven, SameSource};
ghost use Rattle.med_top.specs.Taking.{EndsTaking, HasTaken, IsTakenUp};
ghost use Rattle.tuple_core.specs.Values.{RowList};

use csv_wrap::{NextRow, Pulled, Wrapper};
use med_base::{MemberFault, Source};
use row_pages::Rows;
use std::alloc::{AllocError, Global};

/// So many pulls in a row that find nothing there end a run.
pub const IDLE_LIMIT: u64 = 100_000;

/// How the rows of a source ended.
#[derive(Clone, Copy, Debug, PartialEq, Eq)]
pub enum SourceEnd {
    /// The source told its end, and no frame was bad.
    Ended,
    Failed(MemberFault),
    /// `IDLE_LIMIT` pulls in a row answered that nothing is there yet.
    Stalled,
}

/// Takes the rows of a fresh source, which come behind those that are there.
pub fn take_rows<S: Source>(
    alloc: Global,
    wrapper: &mut Wrapper<S>,
    rows: &mut Rows,
) -> Result<SourceEnd, AllocError>
    requires fresh { HasGiven S.Source wrapper.old [] }
    requires kept { wrapper.old.kept ≡ [] }
    ensures taken { IfOk result (λ _. HasTaken S.Source wrapper.new rows.old rows.new) }
    ensures ends { IfOk result (λ end. EndsTaking S.Source wrapper.new end) }
    ensures columns { wrapper.new.ahead.columns ≡ wrapper.old.ahead.columns }
    ensures source { SameSource S.Source wrapper.old.source wrapper.new.source }
{
    let mut idle = 0u64;
    'pulls: loop {
        if let Some(fault) = take_held(alloc, wrapper, rows)? {
            return Ok(SourceEnd::Failed(fault));
        }
        match wrapper.pull_rows(alloc) {
            Pulled::Moved => idle = 0,
            Pulled::NotYet => {
                idle += 1;
                if idle == IDLE_LIMIT {
                    return Ok(SourceEnd::Stalled);
                }
            }
            Pulled::Ended => return Ok(SourceEnd::Ended),
            Pulled::Failed(fault) => return Ok(SourceEnd::Failed(fault)),
            Pulled::NoMemory => return Err(AllocError),
        }
    }
}

/// Takes the rows that are held, and tells the fault that was reached, if any.
fn take_held<S: Source>(
    alloc: Global,
    wrapper: &mut Wrapper<S>,
    rows: &mut Rows,
) -> Result<Option<MemberFault>, AllocError>
    requires { (before : RowList) × HasTaken S.Source wrapper.old before rows.old }
    ensures taken { IfOk result (λ _. (before : RowList) → HasTaken S.Source wrapper.old before rows.old → HasTaken S.Source wrapper.new before rows.new) }
    ensures up { IfOk result (λ fault. IsTakenUp S.Source wrapper.new fault) }
    ensures columns { wrapper.new.ahead.columns ≡ wrapper.old.ahead.columns }
    ensures source { wrapper.new.source ≡ wrapper.old.source }
    ensures kept { wrapper.new.kept ≡ wrapper.old.kept }
    ensures ended { wrapper.new.ahead.framed.ended ≡ wrapper.old.ahead.framed.ended }
{
    'rows: loop {
        match wrapper.next_row(alloc) {
            NextRow::Row(row) => rows.push(alloc, &row)?,
            NextRow::Nothing => return Ok(None),
            NextRow::Failed(fault) => return Ok(Some(fault)),
            NextRow::NoMemory => return Err(AllocError),
        }
    }
}
