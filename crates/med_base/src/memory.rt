//! Outside objects that keep everything in memory and follow a script, so that each answer can be chosen.

mod calm;
mod clock;
mod gate;
mod opener;
mod script;
mod shelf;
mod sink;
mod source;
mod spill;
mod spills;

pub use calm::{CalmOpener, CalmSource, CalmSpill, CalmSpills};
pub use clock::ScriptClock;
pub use gate::NoGate;
pub use opener::{MemOpener, Site};
pub use script::{Script, Turn};
pub use shelf::{MemShelf, Stored};
pub use sink::MemSink;
pub use source::MemSource;
pub use spill::{MemSpill, SpillScript};
pub use spills::MemSpills;
