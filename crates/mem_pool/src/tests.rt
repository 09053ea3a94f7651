//! Takes and releases of one seat by a table, and of seats in several threads.

ghost use Rattle.std.specs.Prelude.{◌≡◌, ◌+◌, ◌-◌, ◌≤◌, All, IfOk, length, vec_len};
ghost use Rattle.mem_pool.specs.Rule.{greatest_capacity};
ghost use Rattle.mem_pool.specs.Seats.{new_seat};

use crate::{Grant, Pool, PoolSeat, Take};
use std::alloc::{AllocError, Global};
use std::process::Abort;
use std::sync::atomic::AtomicU64;
use std::sync::atomic::Ordering::SeqCst;
use std::test::Fail;
use std::thread;
use std::thread::Threads;

// One seat takes what is asked for, in turn: where a take is refused, with what was in use.
fn run_takes(
    rt: &impl Abort,
    alloc: Global,
    capacity: u64,
    takes: &[(u64, Option<u64>)],
) -> Result<(), AllocError>
    requires { capacity ≤ greatest_capacity }
{
    let (pool, mut seat) = Pool::new(alloc, capacity)?;
    assert_eq!(rt; pool.capacity(), capacity);
    let mut all = Grant::none();
    for take in takes {
        let (asked, in_use) = *take;
        assert!(rt; asked <= Pool::GREATEST_TAKE);
        match pool.take(&mut seat, asked) {
            Take::Grant(grant) => {
                assert_eq!(rt; (grant.amount(), None), (asked, in_use), "of {capacity}");
                all.add(grant);
            }
            Take::Refused { seen } => assert_eq!(rt; Some(seen), in_use, "{asked} of {capacity}"),
        }
    }
    assert_eq!(rt; pool.used(&mut seat), all.amount());
    pool.release(&mut seat, all);
    assert_eq!(rt; pool.used(&mut seat), 0);
    assert_eq!(rt; pool.close(seat), 0);
    Ok(())
}

#[test]
fn takes_what_fits(rt: HostRuntime) -> Result<(), Fail> {
    let alloc = rt.alloc();
    run_takes(&rt, alloc, 10, &[(7, None), (4, Some(7)), (3, None)])?;
    run_takes(
        &rt,
        alloc,
        10,
        &[(0, None), (10, None), (0, None), (1, Some(10))],
    )?;
    run_takes(
        &rt,
        alloc,
        0,
        &[(0, None), (1, Some(0)), (4_194_625, Some(0))],
    )?;
    run_takes(
        &rt,
        alloc,
        4_194_626,
        &[(4_194_625, None), (2, Some(4_194_625)), (1, None)],
    )?;
    run_takes(
        &rt,
        alloc,
        1 << 60,
        &[(4_194_625, None), (4_194_625, None), (1, None)],
    )?;
    Ok(())
}

// A take that is refused gives no grant, and what was in use.
fn take_once(pool: &Pool, mut seat: PoolSeat, asked: u64) -> (PoolSeat, Grant, Option<u64>)
    requires of { seat.pool ≡ pool.now }
    requires few { asked ≤ 10 }
    ensures pool { result.0.pool ≡ pool.now }
    ensures held { result.0.held ≡ seat.held + result.1 }
    ensures amount { result.1 ≤ asked }
    ensures may_split { result.0.may_split ≡ seat.may_split }
{
    match pool.take(&mut seat, asked) {
        Take::Grant(grant) => (seat, grant, None),
        Take::Refused { seen } => (seat, Grant::none(), Some(seen)),
    }
}

#[test]
fn grants_add_up(rt: HostRuntime) -> Result<(), Fail> {
    let (pool, seat) = Pool::new(rt.alloc(), 10)?;
    let (seat, seven, _) = take_once(&pool, seat, 7);
    let (mut seat, three, _) = take_once(&pool, seat, 3);
    let mut rest = Grant::none();
    rest.add(seven.merge(three));
    let all = rest.take_all();
    assert_eq!(rt; (all.amount(), rest.amount()), (10, 0));
    rest.end();
    pool.release(&mut seat, all);
    assert_eq!(rt; pool.close(seat), 0);
    Ok(())
}

#[test]
fn one_of_two_threads_is_granted(rt: HostRuntime) -> Result<(), Fail> {
    let (pool, mut first) = Pool::new(rt.alloc(), 10)?;
    let left = pool.seat(rt.alloc(), &mut first)?;
    let right = pool.seat(rt.alloc(), &mut first)?;
    let shared = &pool;
    let ((left, granted, seen), (right, other_granted, other_seen)) = thread::join(
        &rt,
        move ||
            requires { left.pool ≡ shared.now }
            ensures { (result.0.pool ≡ shared.entry.now) × (result.0.held ≡ left.held + result.1) × (result.0.may_split ≡ left.may_split) }
        { take_once(shared, left, 6) },
        move ||
            requires { right.pool ≡ shared.now }
            ensures { (result.0.pool ≡ shared.entry.now) × (result.0.held ≡ right.held + result.1) × (result.0.may_split ≡ right.may_split) }
        { take_once(shared, right, 6) },
    );
    pool.rejoin(&mut first, left);
    pool.rejoin(&mut first, right);
    assert_eq!(rt; pool.used(&mut first), 6);
    assert!(rt; matches!((seen, other_seen), (None, Some(6)) | (Some(6), None)));
    pool.release(&mut first, granted);
    pool.release(&mut first, other_granted);
    assert_eq!(rt; pool.close(first), 0);
    Ok(())
}

// A seat on its thread.
#[derive(Drop)]
struct Worker {
    number: u64,
    seat: PoolSeat,
}

fn split_seats(
    alloc: Global,
    pool: &Pool,
    first: &mut PoolSeat,
    count: u64,
) -> Result<Vec<Worker>, AllocError>
    requires of { first.old.pool ≡ pool.now }
    requires may_split { count ≤ first.old.may_split }
    ensures workers { IfOk result (λ workers. All (λ w. w.seat ≡ new_seat pool.now) workers.items) }
    ensures len { IfOk result (λ workers. vec_len workers ≡ count) }
    ensures first { IfOk result (λ _. first.new ≡ record first.old { may_split = first.old.may_split - count }) }
{
    let mut workers = Vec::new(alloc);
    for number in 0..count {
        let seat = pool.seat(alloc, first)?;
        workers.push(Worker { number, seat })?;
    }
    Ok(workers)
}

fn join_seats(pool: &Pool, first: &mut PoolSeat, mut workers: Vec<Worker>)
    requires of { first.old.pool ≡ pool.now }
    requires workers { All (λ w. (w.seat.pool ≡ pool.now) × (w.seat.held ≡ 0) × (w.seat.may_split ≡ 0)) workers.items }
    ensures pool { first.new.pool ≡ pool.now }
    ensures may_split { first.new.may_split ≡ first.old.may_split + vec_len workers }
{
    while let Some(worker) = workers.pop() {
        let Worker { number: _, seat } = worker;
        pool.rejoin(first, seat);
    }
}

#[test]
fn all_seats_are_split_and_come_back(rt: HostRuntime) -> Result<(), Fail> {
    let (pool, mut first) = Pool::new(rt.alloc(), 10)?;
    let workers = split_seats(rt.alloc(), &pool, &mut first, Pool::MOST_SEATS - 1)?;
    assert_eq!(rt; workers.len(), 63);
    join_seats(&pool, &mut first, workers);
    assert_eq!(rt; pool.used(&mut first), 0);
    assert_eq!(rt; pool.close(first), 0);
    Ok(())
}

// What the workers know to be held, counted beside the pool: after a grant, and before a release.
#[derive(Drop)]
struct Counts {
    held: AtomicU64,
    done: AtomicU64,
}

const CAPACITY: u64 = 100;

const WORKERS: u64 = 8;

const MOST_ASKED: u64 = 40;

// Takes and releases at random.
fn work(rt: &impl Abort, pool: &Pool, counts: &Counts, seat: &mut PoolSeat, seed: u64)
    requires of { seat.old.pool ≡ pool.now }
    requires idle { seat.old.held ≡ 0 }
    ensures pool { seat.new.pool ≡ pool.now }
    ensures idle { seat.new.held ≡ 0 }
    ensures may_split { seat.new.may_split ≡ seat.old.may_split }
{
    let _capacity = pool.capacity();
    let mut all = Grant::none();
    let mut random = seed;
    for _turn in 0..5_000 {
        random = random
            .wrapping_mul(6_364_136_223_846_793_005)
            .wrapping_add(1_442_695_040_888_963_407);
        let asked = (random >> 33) % (MOST_ASKED + 1);
        match pool.take(seat, asked) {
            Take::Grant(grant) => {
                let held = counts.held.fetch_add(asked, SeqCst);
                assert!(rt; held <= CAPACITY - asked, "{held} were held beside {asked}");
                all.add(grant);
            }
            Take::Refused { seen } => assert!(rt; seen > CAPACITY - asked, "{seen} beside {asked}"),
        }
        if random % 3 == 0 {
            counts.held.fetch_sub(all.amount(), SeqCst);
            pool.release(seat, all.take_all());
        }
    }
    counts.held.fetch_sub(all.amount(), SeqCst);
    pool.release(seat, all);
    counts.done.fetch_add(1, SeqCst);
}

// Looks on until the workers are done.
fn watch(rt: &impl Abort, pool: &Pool, counts: &Counts, seat: &mut PoolSeat)
    requires of { seat.old.pool ≡ pool.now }
    ensures { seat.new ≡ seat.old }
{
    for _look in 0..10_000_000 {
        let held = counts.held.load(SeqCst);
        assert!(rt; held <= CAPACITY, "{held} are held");
        let used = pool.used(seat);
        assert!(rt;
            used <= CAPACITY + WORKERS * MOST_ASKED,
            "{used} are in use"
        );
        if counts.done.load(SeqCst) == WORKERS {
            return;
        }
    }
}

// The ninth looks on, the others work.
fn run_worker(rt: &impl Abort, pool: &Pool, counts: &Counts, worker: &mut Worker)
    requires { (worker.old.seat.pool ≡ pool.now) × (worker.old.seat.held ≡ 0) × (worker.old.seat.may_split ≡ 0) }
    ensures { (worker.new.seat.pool ≡ pool.now) × (worker.new.seat.held ≡ 0) × (worker.new.seat.may_split ≡ 0) }
{
    let number = worker.number;
    if number == WORKERS {
        watch(rt, pool, counts, &mut worker.seat);
    } else {
        work(rt, pool, counts, &mut worker.seat, number);
    }
}

fn run_workers(rt: &impl Abort, pool: &Pool, counts: &Counts, workers: &mut [Worker])
    requires { All (λ w. (w.seat.pool ≡ pool.now) × (w.seat.held ≡ 0) × (w.seat.may_split ≡ 0)) workers.old }
    ensures { All (λ w. (w.seat.pool ≡ pool.now) × (w.seat.held ≡ 0) × (w.seat.may_split ≡ 0)) workers.new }
{
    for worker in workers.iter_mut() {
        run_worker(rt, pool, counts, worker);
    }
}

// Each worker on a thread of its own.
fn run_all<R: Threads + Abort + Sync>(rt: &R, pool: &Pool, counts: &Counts, workers: &mut [Worker])
    requires { All (λ w. (w.seat.pool ≡ pool.now) × (w.seat.held ≡ 0) × (w.seat.may_split ≡ 0)) workers.old }
    ensures { All (λ w. (w.seat.pool ≡ pool.now) × (w.seat.held ≡ 0) × (w.seat.may_split ≡ 0)) workers.new }
{
    thread::for_each_chunk_mut(
        rt,
        workers,
        1,
        &|_, part| run_workers(rt, pool, counts, part),
    );
}

#[test]
fn threads_never_hold_more_than_the_capacity(rt: HostRuntime) -> Result<(), Fail> {
    let (pool, mut first) = Pool::new(rt.alloc(), CAPACITY)?;
    let mut workers = split_seats(rt.alloc(), &pool, &mut first, WORKERS + 1)?;
    let counts = Counts {
        held: AtomicU64::new(0),
        done: AtomicU64::new(0),
    };
    run_all(&rt, &pool, &counts, workers.as_mut_slice());
    assert_eq!(rt; counts.done.load(SeqCst), WORKERS);
    join_seats(&pool, &mut first, workers);
    assert_eq!(rt; pool.used(&mut first), 0);
    assert_eq!(rt; pool.close(first), 0);
    Ok(())
}
