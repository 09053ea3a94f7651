//! Openers, sources and spill files in memory that never fail and never let anyone wait.

mod opener;
mod source;
mod spill;

pub use opener::CalmOpener;
pub use source::CalmSource;
pub use spill::{CalmSpill, CalmSpills, fill_from};
