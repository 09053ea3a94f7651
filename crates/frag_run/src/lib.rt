//! The run of one fragment: its net is run by passes, until it has finished, or can't.
//!
//! 1. A net is made, and its members are opened (`step_core`).
//! 2. [`run_passes`] lets each member make steps, and what they give go on, pass by pass, up to a [`FragEnd`].
//! 3. The net's rows and the ends of its members are taken.
//!
//! Definitions: `specs/Ends.antt` says what holds at each end, and what has become of the members.
#![tactic(auto)]

mod passes;

pub use passes::{FragEnd, run_passes};
