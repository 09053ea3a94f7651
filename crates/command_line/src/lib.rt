//! The words of a command line, and what they ask for.
//!
//! - [`read_command`] is the one call. It takes the words after the program's name and gives the [`Command`] that they
//!   spell: the first word names it, and the kit's `clap` reads the rest. Words that spell none are refused
//!   ([`NoCommand`]).
//!
//! Which words spell which command is `command_of` (`specs/Commands.antt`), over what `clap` reads for each of them
//! (`specs/Forms.antt`).
#![tactic(auto)]

mod command;
mod finding;
mod forms;
mod reading;

pub use command::{Command, NoCommand};
pub use reading::read_command;

#[cfg(test)]
mod tests;
