//! The pool, and what its calls say of the seats.

ghost use Rattle.std.specs.Prelude.{◌≡◌, ◌+◌, ◌-◌, ◌*◌, ◌<◌, ◌≤◌, Ok, IfOk};
ghost use Rattle.mem_pool.specs.Rule.{greatest_capacity, greatest_take};
ghost use Rattle.mem_pool.specs.Seats.{IsAlone, Sees, first_seat, joined, new_seat};
ghost use Rattle.mem_pool.specs.Taking.{Taken};

use crate::grant::Grant;
use crate::rule::Word;
use crate::seat::PoolSeat;
use crate::steps::{add, end, give_back, join, look, split, undo};
use atomic_table::Table;
use std::alloc::{AllocError, Global};
use std::marker::Model;

/// Memory of so many bytes, which threads share by seats.
#[derive(Drop)]
pub struct Pool {
    word: Word,
    capacity: u64,
}

impl Model for Pool {
    ghost use Rattle.std.specs.Prelude.{◌≡◌, ◌≤◌};
    ghost use Rattle.mem_pool.specs.Rule.{greatest_capacity};
    ghost use Rattle.mem_pool.specs.Seats.{Pooled};

    ghost Value = { Pooled };

    ghost view = { λ p. record { table = p.word.shared.table_id; cap = p.capacity } };

    ghost invariant = { λ p. (p.word.shared.key ≡ p.capacity) × (p.word.shared.table_id.words ≡ 1) × (p.word.shared.table_id.slots ≡ 0) × (p.capacity ≤ greatest_capacity) };
}

/// The answer of a take.
#[derive(Debug)]
pub enum Take {
    /// All that was asked for. The seat holds it from now on.
    Grant(Grant),
    /// It doesn't fit beside the `seen` bytes that were in use. The seat holds what it held.
    Refused { seen: u64 },
}

impl Pool {
    /// The greatest capacity, in bytes.
    pub const GREATEST_CAPACITY: u64 = 1 << 60;

    /// The most that one take asks for, in bytes: the weight of the heaviest row.
    pub const GREATEST_TAKE: u64 = 4_194_625;

    /// How many seats a pool has at the most, at one time.
    pub const MOST_SEATS: u64 = 64;

    /// A pool of so many bytes with its first seat, from which the others are split.
    pub fn new(alloc: Global, cap: u64) -> Result<(Pool, PoolSeat), AllocError>
        requires { cap ≤ greatest_capacity }
        ensures cap { IfOk result (λ made. made.0.cap ≡ cap) }
        ensures seat { IfOk result (λ made. made.1 ≡ first_seat made.0) }
    {
        let (word, place) = Table::of_words(alloc, &[0], &cap)?;
        Ok((
            Pool {
                word,
                capacity: cap,
            },
            PoolSeat { place },
        ))
    }

    /// The capacity, in bytes.
    pub fn capacity(&self) -> u64
        ensures cap { result ≡ self.now.cap }
        ensures bound { result ≤ greatest_capacity }
    {
        self.capacity
    }

    /// Splits a new seat from one that still may split. This takes no memory, so it never fails.
    pub fn seat(&self, _alloc: Global, from: &mut PoolSeat) -> Result<PoolSeat, AllocError>
        requires of { from.old.pool ≡ self.now }
        requires may_split { 1 ≤ from.old.may_split }
        ensures new { result ≡ Ok (new_seat self.now) }
        ensures from { from.new ≡ record from.old { may_split = from.old.may_split - 1 } }
    {
        let place = split(&self.word, &mut from.place);
        Ok(PoolSeat { place })
    }

    /// Takes `k` bytes, at most `GREATEST_TAKE`: all of them, or nothing where they don't fit beside what is in use.
    ///
    /// It never waits. What is in use may count a take of another thread that is about to be refused.
    pub fn take(&self, seat: &mut PoolSeat, k: u64) -> Take
        requires of { seat.old.pool ≡ self.now }
        requires most { k ≤ greatest_take }
        ensures { Taken k seat.old result seat.new }
    {
        let seen = add(&self.word, &mut seat.place, k);
        if seen + k <= self.capacity {
            return Take::Grant(Grant::of(k));
        }
        undo(&self.word, &mut seat.place, k);
        Take::Refused { seen }
    }

    /// Gives back what this seat was granted, or another one of the pool; this one holds as much.
    pub fn release(&self, seat: &mut PoolSeat, grant: Grant)
        requires of { seat.old.pool ≡ self.now }
        requires held { grant ≤ seat.old.held }
        ensures { seat.new ≡ record seat.old { held = seat.old.held - grant } }
    {
        let amount = grant.end_with();
        give_back(&self.word, &mut seat.place, amount);
    }

    /// How many bytes are in use: what all seats hold, and the takes of other threads that are about to be refused.
    pub fn used(&self, seat: &mut PoolSeat) -> u64
        requires of { seat.old.pool ≡ self.now }
        ensures sees { Sees result seat.new }
        ensures same { seat.new ≡ seat.old }
    {
        look(&self.word, &mut seat.place)
    }

    /// Joins a seat to another one, with all that it holds.
    pub fn rejoin(&self, into: &mut PoolSeat, from: PoolSeat)
        requires into { into.old.pool ≡ self.now }
        requires from { from.pool ≡ self.now }
        ensures joined { into.new ≡ joined into.old from }
        ensures fits { into.old.held + from.held ≤ self.now.cap }
        ensures peak { IsAlone into.new → into.new.peak ≤ into.new.most }
    {
        let PoolSeat { place } = from;
        join(&self.word, &mut into.place, place);
        look(&self.word, &mut into.place);
    }

    /// Ends the pool once all other seats were joined to this one, and tells what is in use: what it holds.
    pub fn close(self, seat: PoolSeat) -> u64
        requires of { seat.pool ≡ self }
        requires alone { IsAlone seat }
        ensures held { result ≡ seat.held }
        ensures fits { seat.held ≤ self.cap }
        ensures peak { seat.peak ≤ seat.most }
    {
        let Pool { word, capacity: _ } = self;
        let PoolSeat { place } = seat;
        end(word, place)
    }
}
