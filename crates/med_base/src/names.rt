//! How the parts of a query and of its plan are named. Atoms, groups, mirrors, joins and fragments count from 1.

/// A group of mirrors, which stand for one source, of an atom's relation.
#[derive(Clone, Copy, Debug, PartialEq, Eq, PartialOrd, Ord)]
pub struct GroupName {
    pub atom: u32,
    pub group: u32,
}

/// One mirror of one group, as one atom reads it.
#[derive(Clone, Copy, Debug, PartialEq, Eq, PartialOrd, Ord)]
pub struct MemberName {
    pub atom: u32,
    pub group: u32,
    pub mirror: u32,
}

/// What a rule or a journal entry speaks of.
#[derive(Clone, Copy, Debug, PartialEq, Eq)]
pub enum Name {
    Member(MemberName),
    Atom(u32),
    Join(u32),
    Fragment(u32),
}
