//! What a call of the mediator leaves.

ghost use Rattle.std.specs.Prelude.{◌≡◌, []};

use csv_wrap::Members;
use med_base::{Files, Status};
use std::alloc::Global;

/// How a call ended, how each member of each atom stands then, and the spill files that it made.
#[derive(Drop)]
pub struct Outcome<S, F> {
    pub status: Status,
    /// All members, by atom, group and mirror. There is none where the run never began.
    pub members: Members<S>,
    /// In the order of their numbers.
    pub files: Files<F>,
}

impl<S, F> Outcome<S, F> {
    /// The outcome of a call that made no spill file.
    pub fn without_files(alloc: Global, status: Status, members: Members<S>) -> Self
        ensures status { result.status ≡ status }
        ensures members { result.members ≡ members }
        ensures files { result.files ≡ [] }
    {
        Outcome {
            status,
            members,
            files: Files::new(alloc),
        }
    }

    /// The outcome of a call that ran nothing.
    pub fn without_run(alloc: Global, status: Status) -> Self
        ensures status { result.status ≡ status }
        ensures members { result.members ≡ [] }
        ensures files { result.files ≡ [] }
    {
        Outcome::without_files(alloc, status, Members::new(alloc))
    }
}
