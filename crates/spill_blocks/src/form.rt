//! What the entries of a file are.

/// The form of a file's entries, which its user chooses once.
#[derive(Clone, Copy, Debug, PartialEq, Eq)]
pub enum EntryForm {
    /// The two numbers of a row, and the row.
    Join,
    /// The row alone.
    Spool,
}
