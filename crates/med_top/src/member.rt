//! Reads one member: opens its mirror, and takes its rows up to its end.

ghost use Rattle.std.specs.Prelude.{◌≡◌, ◌≤◌, ℕ, ◌^◌, ◌∷◌, ◌++◌, [], IfOk, IfSome, IsSomeAnd, Some, length};
ghost use Rattle.csv_wrap.specs.Sound.{asked_locations, given_marks};
ghost use Rattle.med_top.specs.Members.{EndsMember, IsMemberOf, group_of, member_of};

use crate::groups::RunEnd;
use crate::taking::{SourceEnd, take_rows};
use csv_wrap::{MemberEnd, Wrapper};
use med_base::{GroupName, MemberFault, MemberName, MemberState, OpenFault, Opener, Source};
use row_pages::Rows;
use std::alloc::{AllocError, Global};
use tuple_core::{Columns, Text};

/// A member after its run, and how that ended.
#[derive(Drop)]
pub struct Ran<S> {
    pub member: MemberEnd<S>,
    pub end: RunEnd,
}

/// Opens a mirror and reads it to its end. Its rows come behind those that are there.
pub fn read_member<O: Opener>(
    alloc: Global,
    opener: &mut O,
    columns: &Columns,
    name: MemberName,
    location: Text,
    rows: &mut Rows,
) -> Result<Ran<O::S>, AllocError>
    requires width { length columns.now ≤ 16 }
    requires name { name ≡ member_of name.atom name.group }
    ensures member { IfOk result (λ ran. IsMemberOf O.S.Source columns.now (O.told opener.old) name.atom name.group location ran.member) }
    ensures ends { IfOk result (λ ran. EndsMember O.S.Source columns.now (O.faults opener.old) (O.faults opener.new) rows.old rows.new ran.member ran.end) }
    ensures asked { IfOk result (λ ran. O.asked opener.new ≡ O.asked opener.old ++ asked_locations (ran.member ∷ [])) }
    ensures given { IfOk result (λ ran. O.given opener.new ≡ O.given opener.old ++ given_marks O.S.Source (ran.member ∷ [])) }
    ensures faults { O.faults opener.old ≤ O.faults opener.new }
    ensures told { O.told opener.new ≡ O.told opener.old }
{
    match opener.open_at(alloc, location.as_str()) {
        Ok(source) => read_source(alloc, source, columns, name, location, rows),
        Err(OpenFault::Failed) => Ok(Ran {
            member: MemberEnd {
                name,
                location,
                state: MemberState::Failed,
                fault: Some(MemberFault::Opening),
                accepted: 0,
                source: None,
            },
            end: RunEnd::Starved(group_of(name)),
        }),
        Err(OpenFault::NoMemory) => Err(AllocError),
    }
}

fn group_of(name: MemberName) -> GroupName
    ensures { result ≡ group_of name }
{
    GroupName {
        atom: name.atom,
        group: name.group,
    }
}

/// Reads a fresh source to its end.
fn read_source<S: Source>(
    alloc: Global,
    source: S,
    columns: &Columns,
    name: MemberName,
    location: Text,
    rows: &mut Rows,
) -> Result<Ran<S>, AllocError>
    requires width { length columns.now ≤ 16 }
    requires name { name ≡ member_of name.atom name.group }
    requires location { S.location source ≡ location }
    requires fresh { IfSome (S.taken source) (λ taken. taken ≡ []) }
    requires calm { S.faults source ≡ 0 }
    requires few { S.left source ≤ 2 ^ 62 }
    ensures member { IfOk result (λ ran. IsMemberOf S.Source columns.now (λ _. S.whole source) name.atom name.group location ran.member) }
    ensures ends { IfOk result (λ ran. (old : ℕ) (new : ℕ) → EndsMember S.Source columns.now old new rows.old rows.new ran.member ran.end) }
    ensures source { IfOk result (λ ran. IsSomeAnd ran.member.source (λ s. S.mark s ≡ S.mark source)) }
{
    let mut wrapper = Wrapper::new(alloc, source, columns)?;
    let before = rows.len();
    let end = take_rows(alloc, &mut wrapper, rows)?;
    let accepted = (rows.len() - before) as u64;
    let source = wrapper.into_source();
    match end {
        SourceEnd::Ended => Ok(Ran {
            member: member_end(source, name, location, MemberState::Ended, None, accepted),
            end: RunEnd::Settled,
        }),
        SourceEnd::Failed(fault) => {
            let fault = Some(fault);
            Ok(Ran {
                member: member_end(source, name, location, MemberState::Failed, fault, accepted),
                end: RunEnd::Starved(group_of(name)),
            })
        }
        SourceEnd::Stalled => Ok(Ran {
            member: member_end(source, name, location, MemberState::Active, None, accepted),
            end: RunEnd::Stalled,
        }),
    }
}

fn member_end<S>(
    source: S,
    name: MemberName,
    location: Text,
    state: MemberState,
    fault: Option<MemberFault>,
    accepted: u64,
) -> MemberEnd<S>
    ensures { result ≡ record { name = name; location = location; state = state; fault = fault; accepted = accepted; source = Some source } }
{
    MemberEnd {
        name,
        location,
        state,
        fault,
        accepted,
        source: Some(source),
    }
}
