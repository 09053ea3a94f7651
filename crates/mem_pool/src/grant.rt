//! What a seat was granted.

ghost use Rattle.std.specs.Prelude.{◌≡◌, ℕ, ◌+◌, ◌≤◌};
ghost use Rattle.mem_pool.specs.Rule.{greatest_capacity};

use std::marker::Model;

/// So much of a pool's memory, held by a seat of the pool. It can't be dropped: it goes back by
/// `Pool::release`, or into another one.
#[derive(Debug)]
pub struct Grant {
    amount: u64,
}

impl Model for Grant {
    ghost Value = { ℕ };

    ghost view = { λ g. g.amount };
}

impl Grant {
    pub(crate) fn of(amount: u64) -> Grant
        ensures { result ≡ amount }
    {
        Grant { amount }
    }

    /// A grant of nothing.
    pub fn none() -> Grant
        ensures { result ≡ 0 }
    {
        Grant::of(0)
    }

    pub fn amount(&self) -> u64
        ensures { result ≡ self.now }
    {
        self.amount
    }

    /// Both as one.
    pub fn merge(self, other: Grant) -> Grant
        requires { self + other ≤ greatest_capacity }
        ensures { result ≡ self + other }
    {
        Grant::of(self.end_with() + other.end_with())
    }

    /// Adds the other one.
    pub fn add(&mut self, other: Grant)
        requires { self.old + other ≤ greatest_capacity }
        ensures { self.new ≡ self.old + other }
    {
        self.amount += other.end_with();
    }

    /// Gives all of it, and stays with nothing.
    pub fn take_all(&mut self) -> Grant
        ensures all { result ≡ self.old }
        ensures left { self.new ≡ 0 }
    {
        std::mem::replace(self, Grant::none())
    }

    /// Ends a grant of nothing.
    pub fn end(self)
        requires { self ≡ 0 }
    {
        let Grant { amount: _ } = self;
    }

    // The amount, which the caller then accounts for.
    pub(crate) fn end_with(self) -> u64
        ensures { result ≡ self }
    {
        let Grant { amount } = self;
        amount
    }
}
