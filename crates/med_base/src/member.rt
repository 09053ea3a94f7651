//! How a member, one mirror of one group of one atom, stands.

/// Why a member failed.
///
/// `Opening` and `Read` are faults of the source. The others stand in its bytes: frames that aren't skipped
/// are numbered from 0, which is the header, and `k` is the number of the bad one.
#[derive(Clone, Copy, Debug, PartialEq, Eq)]
pub enum MemberFault {
    Opening,
    Read,
    /// The header isn't the list of the relation's column names; so many leading fields are.
    Header { found: u32 },
    /// No record of as many fields as there are columns.
    BadRecord { k: u64 },
    /// The field of this column isn't a value of the column's kind.
    BadField { k: u64, column: u32 },
    /// More bytes than a frame may have.
    TooLong { k: u64 },
}

/// What a member is doing.
#[derive(Clone, Copy, Debug, PartialEq, Eq)]
pub enum MemberState {
    /// It was never active.
    Idle,
    Active,
    /// It was active, and was deactivated.
    Paused,
    /// Its source was read cleanly to its end.
    Ended,
    Failed,
}
