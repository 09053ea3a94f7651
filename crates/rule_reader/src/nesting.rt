//! Conditions as far as they were read: what stands before a test that is due, group by group.

ghost use Rattle.std.specs.Prelude.{◌≡◌, ◌<◌, nat_lt, not, IfOk};
ghost use Rattle.rule_reader.specs.Grammar.{deepest};
ghost use Rattle.rule_reader.specs.Machine.{after_and, after_or, anded, closed_group, first_nest, frame_depth, in_group, negated, new_frame, ored, rule_head, under_not, with_test};

use crate::rule::{Condition, Event, Rule};
use med_prelude::Listed;
use sqlite_items::Boxed;
use std::alloc::{AllocError, Global};

// How many tests that begin with `not` or `(` may be around one of that kind.
const DEEPEST: u64 = 16;

/// What stands before a test that is due, since the last `(` that is open.
#[derive(Drop)]
pub struct Frame {
    /// How many tests that begin with `not` or `(` are around all of it.
    pub around: u64,
    /// What stands left of an `or`.
    pub ors: Option<Boxed<Condition>>,
    /// What stands left of an `and`.
    pub ands: Option<Boxed<Condition>>,
    /// How many `not` stand directly before the test.
    pub nots: u64,
}

/// A test is due.
#[derive(Drop)]
pub struct Nest {
    pub event: Event,
    /// What stands before each `(` that is open.
    pub outer: Listed<Frame>,
    pub here: Frame,
}

/// A test was read, and what it belongs to up to the last `or`.
#[derive(Drop)]
pub struct Tested {
    pub event: Event,
    pub outer: Listed<Frame>,
    pub around: u64,
    pub ors: Option<Boxed<Condition>>,
    pub read: Boxed<Condition>,
}

fn new_frame(around: u64) -> Frame
    ensures { result ≡ new_frame around }
{
    Frame {
        around,
        ors: None,
        ands: None,
        nots: 0,
    }
}

pub fn first_nest(alloc: Global, event: Event) -> Nest
    ensures { result ≡ first_nest event }
{
    Nest {
        event,
        outer: Listed::new(alloc),
        here: new_frame(0),
    }
}

/// Whether a test here may not begin with `not` or `(`, since it is inside too many that do.
pub fn is_deepest(nest: &Nest) -> bool
    ensures { result ≡ not (nat_lt (frame_depth nest.now.here) deepest) }
{
    nest.here.around.saturating_add(nest.here.nots) >= DEEPEST
}

pub fn under_not(nest: Nest) -> Nest
    requires { frame_depth nest.here < deepest }
    ensures { result ≡ under_not nest }
{
    let mut nest = nest;
    nest.here.nots += 1;
    nest
}

pub fn in_group(nest: Nest) -> Result<Nest, AllocError>
    requires { frame_depth nest.here < deepest }
    ensures { IfOk result (λ inner. inner ≡ in_group nest) }
{
    let Nest {
        event,
        mut outer,
        here,
    } = nest;
    let around = here.around + here.nots + 1;
    outer.push(here)?;
    Ok(Nest {
        event,
        outer,
        here: new_frame(around),
    })
}

#[tactic(auto, using(crate::proofs::NegationLaws::negated_next))]
fn negated(
    alloc: Global,
    nots: u64,
    condition: Boxed<Condition>,
) -> Result<Boxed<Condition>, AllocError>
    ensures { IfOk result (λ whole. whole ≡ negated nots condition) }
{
    let mut condition = condition;
    for _ in 0..nots {
        condition = Boxed::new(alloc, Condition::Not(condition))?;
    }
    Ok(condition)
}

fn anded(
    alloc: Global,
    left: Option<Boxed<Condition>>,
    right: Boxed<Condition>,
) -> Result<Boxed<Condition>, AllocError>
    ensures { IfOk result (λ whole. whole ≡ anded left right) }
{
    match left {
        None => Ok(right),
        Some(left) => Ok(Boxed::new(alloc, Condition::And(left, right))?),
    }
}

fn ored(
    alloc: Global,
    left: Option<Boxed<Condition>>,
    right: Boxed<Condition>,
) -> Result<Boxed<Condition>, AllocError>
    ensures { IfOk result (λ whole. whole ≡ ored left right) }
{
    match left {
        None => Ok(right),
        Some(left) => Ok(Boxed::new(alloc, Condition::Or(left, right))?),
    }
}

pub fn with_test(alloc: Global, nest: Nest, test: Boxed<Condition>) -> Result<Tested, AllocError>
    ensures { IfOk result (λ tested. tested ≡ with_test nest test) }
{
    let Nest { event, outer, here } = nest;
    let Frame {
        around,
        ors,
        ands,
        nots,
    } = here;
    let test = negated(alloc, nots, test)?;
    Ok(Tested {
        event,
        outer,
        around,
        ors,
        read: anded(alloc, ands, test)?,
    })
}

pub fn after_and(tested: Tested) -> Nest
    ensures { result ≡ after_and tested }
{
    Nest {
        event: tested.event,
        outer: tested.outer,
        here: Frame {
            around: tested.around,
            ors: tested.ors,
            ands: Some(tested.read),
            nots: 0,
        },
    }
}

pub fn after_or(alloc: Global, tested: Tested) -> Result<Nest, AllocError>
    ensures { IfOk result (λ nest. nest ≡ after_or tested) }
{
    let Tested {
        event,
        outer,
        around,
        ors,
        read,
    } = tested;
    Ok(Nest {
        event,
        outer,
        here: Frame {
            around,
            ors: Some(ored(alloc, ors, read)?),
            ands: None,
            nots: 0,
        },
    })
}

/// Closes the group that was opened last; there is none where no group is open.
pub fn closed_group(alloc: Global, tested: Tested) -> Result<Option<Tested>, AllocError>
    ensures { IfOk result (λ closed. closed ≡ closed_group tested) }
{
    let Tested {
        event,
        outer,
        around: _,
        ors,
        read,
    } = tested;
    let mut frames = outer.into_vec();
    let Some(here) = frames.pop() else {
        return Ok(None);
    };
    let group = Boxed::new(alloc, Condition::Group(ored(alloc, ors, read)?))?;
    let nest = Nest {
        event,
        outer: Listed::from_vec(frames),
        here,
    };
    Ok(Some(with_test(alloc, nest, group)?))
}

/// The event and the condition, with no action yet, where no group is open.
pub fn rule_head(alloc: Global, tested: Tested) -> Result<Option<Rule>, AllocError>
    ensures { IfOk result (λ head. head ≡ rule_head tested) }
{
    if !tested.outer.is_empty() {
        return Ok(None);
    }
    Ok(Some(Rule {
        event: tested.event,
        condition: ored(alloc, tested.ors, tested.read)?,
        actions: Listed::new(alloc),
    }))
}
