//! Which fault is told where a text has several: the first broken check, at the least that breaks it.

ghost use Rattle.std.specs.Prelude.{◌≡◌, Bool, List, nat_le};
ghost use Rattle.text_reading.specs.Order.{IsOrder, least, lesser, nat_order};
ghost use Rattle.text_reading.specs.Checks.{Check, IsExact, first_broken, told_first};

/// A value that says where a text is broken: an offset, or what a reader's own text has. Of several the least counts.
pub trait Ordered: Copy {
    ghost up_to: { Self → Self → Bool };

    fn is_up_to(self, other: Self) -> bool
        ensures { result ≡ up_to self other };

    ghost order: { IsOrder up_to };
}

/// An offset: the number of a byte in a text.
impl Ordered for u64 {
    ghost up_to = { nat_le };

    ghost order = { nat_order };

    fn is_up_to(self, other: u64) -> bool {
        self <= other
    }
}

/// An index: the number of an item in a list.
impl Ordered for usize {
    ghost up_to = { nat_le };

    ghost order = { nat_order };

    fn is_up_to(self, other: usize) -> bool {
        self <= other
    }
}

/// A check, by its number, and the least that breaks it.
#[derive(Clone, Copy, Debug, PartialEq, Eq)]
pub struct Broken<P> {
    pub why: u8,
    pub at: P,
}

/// The lesser of two, where there is one.
pub fn lesser<P: Ordered>(one: Option<P>, other: Option<P>) -> Option<P>
    ensures { result ≡ lesser P.up_to one other }
{
    match (one, other) {
        (Some(one), Some(other)) => {
            if one.is_up_to(other) {
                Some(one)
            } else {
                Some(other)
            }
        }
        (Some(one), None) => Some(one),
        (None, other) => other,
    }
}

/// The least of a list, in whatever order it stands.
pub fn least<P: Ordered>(all: &[P]) -> Option<P>
    ensures { result ≡ least P.up_to all.now }
{
    let mut so_far = None;
    for one in all {
        so_far = lesser(so_far, Some(*one));
    }
    so_far
}

/// What is told of a check, given the least that breaks it, and of the checks after it.
pub fn told_first<P: Ordered>(
    why: u8,
    least: Option<P>,
    later: Option<Broken<P>>,
) -> Option<Broken<P>>
    ensures { result ≡ told_first why least later }
{
    match least {
        Some(at) => Some(Broken { why, at }),
        None => later,
    }
}

/// The law of the order of checks: what is told is the first broken check, at what breaks it and is up to all else
/// that does; and nothing is told exactly where all checks are kept.
pub fn first_broken_is_exact<P: Ordered>()
    ensures { (checks : List (Check P)) → IsExact P.up_to checks (first_broken P.up_to checks) }
{}
