//! One pool of memory that threads share, without a lock and without waiting.
//!
//! What is in use is counted in one word. A thread takes with its seat, and holds what it was granted as a
//! `Grant`: all seats together never hold more than the capacity, whatever the threads do.
//!
//! 1. `Pool::new` makes a pool with its first seat, and `Pool::seat` splits further ones from it, one for each
//!    thread or each user.
//! 2. `Pool::take` answers a `Grant` of all that was asked for, or `Refused` with what was in use.
//!    `Grant::merge`, `Grant::add` and `Grant::take_all` put grants together and hand them on, and
//!    `Pool::release` gives one back.
//! 3. `Pool::used` tells what is in use.
//! 4. `Pool::rejoin` joins a seat to another, with all that it holds. The seat to which all others came back
//!    ends the pool by `Pool::close`.
//!
//! Definitions: `specs/Rule.antt` has the rule that holds between any two steps of any threads, and
//! `specs/Steps.antt` the seven kinds of step. `specs/Seats.antt` says what contracts see of a pool and a seat,
//! `specs/Taking.antt` what a take answers. `proofs/Kept.antt` shows that each kind of step keeps the rule.
#![tactic(auto)]

mod grant;
mod laws;
mod pool;
mod rule;
mod seat;
mod steps;

pub use grant::Grant;
pub use laws::constants_are_the_limits;
pub use pool::{Pool, Take};
pub use seat::PoolSeat;

#[cfg(test)]
mod tests;
