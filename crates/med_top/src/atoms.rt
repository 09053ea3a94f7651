//! Reads the atoms of a query one after the other.

ghost use Rattle.std.specs.Prelude.{◌≡◌, ◌+◌, ◌≤◌, ◌<◌, ◌++◌, IfOk, OnOk, length};
ghost use Rattle.csv_wrap.specs.Sound.{asked_locations, given_marks};
ghost use Rattle.med_top.specs.Atoms.{AdvancesAtom, AreAllMembers, EndsAtoms};
ghost use Rattle.med_top.specs.Targets.{AreTargetsWithin, IsTargetWithin};

use crate::groups::{RunEnd, read_groups};
use crate::target::Target;
use csv_wrap::Members;
use med_base::Opener;
use row_pages::Rows;
use std::alloc::{AllocError, Global};

/// The members of the atoms so far, the rows that came for each atom, and how the run stands.
#[derive(Drop)]
pub struct AtomsRead<S> {
    pub members: Members<S>,
    pub arrivals: Vec<Rows>,
    pub end: RunEnd,
}

/// Reads what each atom asks for, group by group, up to the first mirror that isn't read to its end.
pub fn read_atoms<O: Opener>(
    alloc: Global,
    opener: &mut O,
    targets: &[Target],
) -> Result<AtomsRead<O::S>, AllocError>
    requires within { AreTargetsWithin targets.now }
    ensures members { IfOk result (λ read. AreAllMembers O.S.Source (O.told opener.old) 1 targets.now read.members) }
    ensures ends { IfOk result (λ read. EndsAtoms O.S.Source targets.now (O.faults opener.old) (O.faults opener.new) read.members read.arrivals.items read.end) }
    ensures asked { IfOk result (λ read. O.asked opener.new ≡ O.asked opener.old ++ asked_locations read.members) }
    ensures given { IfOk result (λ read. O.given opener.new ≡ O.given opener.old ++ given_marks O.S.Source read.members) }
    ensures faults { O.faults opener.old ≤ O.faults opener.new }
    ensures told { O.told opener.new ≡ O.told opener.old }
{
    let mut read = AtomsRead {
        members: Members::new(alloc),
        arrivals: Vec::new(alloc),
        end: RunEnd::Settled,
    };
    for (index, target) in targets.iter().enumerate() {
        read_next(alloc, opener, &mut read, target, index as u32 + 1)?;
    }
    Ok(read)
}

/// Reads what the next atom asks for where all before it were read to their ends, and else lists its members.
fn read_next<O: Opener>(
    alloc: Global,
    opener: &mut O,
    read: &mut AtomsRead<O::S>,
    target: &Target,
    atom: u32,
) -> Result<(), AllocError>
    requires within { IsTargetWithin target.now }
    ensures advances { OnOk result (AdvancesAtom O.S.Source (O.told opener.old) atom target.now (record {
      faults = record { old = O.faults opener.old; new = O.faults opener.new };
      asked = record { old = O.asked opener.old; new = O.asked opener.new };
      given = record { old = O.given opener.old; new = O.given opener.new };
    }) read.old read.new) }
    ensures faults { O.faults opener.old ≤ O.faults opener.new }
    ensures told { O.told opener.new ≡ O.told opener.old }
{
    let own = read_groups(alloc, opener, target, atom, read.end)?;
    append(&mut read.members, own.members)?;
    read.arrivals.push(own.rows)?;
    read.end = own.end;
    Ok(())
}

fn append<S: Drop>(members: &mut Members<S>, more: Members<S>) -> Result<(), AllocError>
    ensures { OnOk result (members.new ≡ members.old ++ more) }
{
    for member in more.into_vec() {
        members.push(member)?;
    }
    Ok(())
}
