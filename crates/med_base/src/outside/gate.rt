//! The gate: what each worker passes at the start of each of its turns, so that a test can hold one back.

/// A gate. Several workers may be in `pass` at a time, so it takes `&self`; it answers nothing and has no fault,
/// and a caller may rely on nothing but that the call returns.
pub trait Gate {
    /// The worker of that number, counted from 0, begins a turn.
    fn pass(&self, worker: u32);
}
