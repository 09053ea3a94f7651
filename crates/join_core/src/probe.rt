//! The row that came last, while it is compared with the other side's rows.

use bucket_store::Address;
use row_match::Side;
use tuple_core::Row;

/// The row, and the place in the facing bucket from which on it is still to be compared.
#[derive(Debug, Drop)]
pub(crate) struct Probe {
    pub(crate) side: Side,
    pub(crate) row: Row,
    pub(crate) number: u64,
    /// That of its key.
    pub(crate) address: Address,
    pub(crate) place: u32,
    /// No row before the place has this number or a greater one, and no other row has a lesser one.
    pub(crate) from: u64,
}
