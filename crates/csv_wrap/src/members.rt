//! How a member of an atom ended.

use med_base::{MemberFault, MemberName, MemberState};
use tuple_core::{Listed, Text};

/// How one mirror of one group of one atom stood at the end of a run.
#[derive(Debug, Drop)]
pub struct MemberEnd<S> {
    pub name: MemberName,
    pub location: Text,
    pub state: MemberState,
    pub fault: Option<MemberFault>,
    /// The number of its rows that the run took: the first ones.
    pub accepted: u64,
    /// There is none where the member was never opened, or its opening failed.
    pub source: Option<S>,
}

/// The ends of all members of all atoms, by atom, group and mirror.
pub type Members<S> = Listed<MemberEnd<S>>;
