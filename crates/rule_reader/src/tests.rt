//! Texts that are read and refused, with their offsets by hand.

use crate::{Action, Amount, Condition, Event, Method, NumberOp, RuleFault, read_rule};
use med_base::{MemberName, Name};
use med_prelude::Text;
use std::alloc::{AllocError, Global};
use std::process::Abort;
use std::test::Fail;

/// Why and where a text is refused; none where it is read.
fn refusal(rt: &impl Abort, alloc: Global, text: &[u8]) -> Option<(u8, u64)> {
    match read_rule(alloc, text) {
        Ok(_) => None,
        Err(RuleFault::Refused { why, at }) => Some((why, at)),
        Err(RuleFault::NoMemory) => panic!(rt; "out of memory"),
    }
}

/// Tokens that continue nothing, bytes that are no token, words that name nothing, and texts that end too early.
#[test]
fn refuses_the_first_token_that_continues_nothing(rt: HostRuntime) {
    let cases = [
        ("", 0),
        (" when", 0),
        ("When", 0),
        ("when\tstop", 4),
        ("when ", 5),
        ("when open(f1)", 5),
        ("when opened f1", 12),
        ("when opened(a1)", 12),
        ("when opened(j1)", 12),
        ("when opened(f0)", 12),
        ("when opened(f01)", 12),
        ("when opened(f1000000)", 12),
        ("when opened(f1.)", 12),
        ("when closed(a1.2)", 12),
        ("when closed(a1.)", 12),
        ("when closed(a01)", 12),
        ("when closed(a1.2.3.4)", 12),
        ("when closed(a1.0.1)", 12),
        ("when closed(a1.02.1)", 12),
        ("when closed(A1)", 12),
        ("when closed(f1.1.1)", 12),
        ("when error(a1)", 11),
        ("when timeout(a1.1.1)", 19),
        ("when timeout(j1, 5)", 13),
        ("when timeout(a1.1.1, left)", 21),
        ("when timeout(a1.1.1, 1.2)", 22),
        ("when timeout(a1.1.1, -1)", 21),
        ("when threshold(a1, 5)", 15),
        ("when out_of_memory(f1)", 19),
        ("when error(a1.1.1, 5)", 17),
        ("when opened(f1) then stop", 16),
        ("when opened(f1) if then stop", 19),
        ("when opened(f1) if false then stop", 19),
        ("when opened(f1) if active(j1) then stop", 26),
        ("when opened(f1) if fired(a1.1) then stop", 25),
        ("when opened(f1) if fired(true) then stop", 25),
        ("when opened(f1) if fired(5) then stop", 25),
        ("when opened(f1) if count(f1) < 5 then stop", 25),
        ("when opened(f1) if 5 then stop", 21),
        ("when opened(f1) if 5 == 5 then stop", 22),
        ("when opened(f1) if 5 ! 5 then stop", 21),
        ("when opened(f1) if 5 < true then stop", 23),
        ("when opened(f1) if 1 < 2 < 3 then stop", 25),
        ("when opened(f1) if true true then stop", 24),
        ("when opened(f1) if true or then stop", 27),
        ("when opened(f1) if (true then stop", 25),
        ("when opened(f1) if true) then stop", 23),
        ("when opened(f1) if () then stop", 20),
        ("when opened(f1) if true then", 28),
        ("when opened(f1) if true then stop,", 34),
        ("when opened(f1) if true then stop stop", 34),
        ("when opened(f1) if true then stop.", 29),
        ("when opened(f1) if true then stop ", 34),
        ("when opened(f1) if true then activate(a1)", 38),
        ("when opened(f1) if true then method(j1, both)", 40),
        ("when opened(f1) if true then method(j1, 5)", 40),
        ("when opened(f1) if true then quota(j1, left)", 39),
        ("when opened(f1) if true then quota(a1.1.1, 5)", 35),
        ("when opened(f1) if true then stop; stop", 33),
        ("when opened(f1) if true then stop, true", 35),
    ];
    for (text, at) in cases {
        assert_eq!(rt;
            refusal(&rt, rt.alloc(), text.as_bytes()),
            Some((1, at)),
            "{text}"
        );
    }
}

#[test]
fn reads_what_is_a_rule(rt: HostRuntime) {
    let cases = [
        "when timeout(a1.1.1, 500) if true then activate(a1.1.2), deactivate(a1.1.1)",
        "when threshold(a1.1.1, 1) if true then activate(a1.1.2)",
        "when error(a1.1.1) if active(a1.1.2) then deactivate(a1.1.2)",
        "when closed(a1.1.1) if count(a1.1.1) < 5 then stop",
        "when opened(f999999) if true then replan",
        "when opened(a1.2.3) if fired(stop) or fired(a01) then quota(j1, 00)",
        "when closed(f1) if not not true and not(true) then method(j1, symmetric)",
        "when closed(j2) if 1 = 2 or count(j1) != 0002 and 3 <= 3 then method(j1,left)",
        "when closed(a16) if ((true)) and (5 > 4 or 4 >= 5) then stop, replan, stop",
        "when out_of_memory(j7)if true then quota(j7,1152921504606846976)",
        "when   threshold ( j1 , 5 )   if true then stop",
    ];
    for text in cases {
        assert_eq!(rt; refusal(&rt, rt.alloc(), text.as_bytes()), None, "{text}");
    }
}

/// 2^60 is 1152921504606846976. A number past it is over the limit only where a number may stand, and only if nothing
/// before it is refused; where none may, neither may 2^60.
#[test]
fn numbers_go_to_their_limit(rt: HostRuntime) {
    let cases = [
        ("when timeout(a1.1.1, 1152921504606846976)", (1, 41)),
        ("when timeout(a1.1.1, 1152921504606846977)", (2, 21)),
        ("when timeout(a1.1.1, 99999999999999999999999999)", (2, 21)),
        ("when timeout(a1.1.1, 00001152921504606846976)", (1, 45)),
        ("when threshold(j1, 1152921504606846977)", (2, 19)),
        ("when timeout(1152921504606846977", (1, 13)),
        ("when opened(1152921504606846977", (1, 12)),
        ("when opened(1152921504606846976", (1, 12)),
        ("when opened(f1) if 1152921504606846977 true", (2, 19)),
        ("when opened(f1) if 1 < 1152921504606846977", (2, 23)),
        ("when opened(f1) if true 1152921504606846977", (1, 24)),
        ("when opened(f1) if true 1152921504606846976", (1, 24)),
        (
            "when opened(f1) if true then quota(j1, 1152921504606846977)",
            (2, 39),
        ),
        (
            "when opened(f1) if true then method(j1, 1152921504606846976)",
            (1, 40),
        ),
        ("when opened(f1) if true then 1152921504606846977", (1, 29)),
    ];
    for (text, told) in cases {
        assert_eq!(rt;
            refusal(&rt, rt.alloc(), text.as_bytes()),
            Some(told),
            "{text}"
        );
    }
}

/// A text of some levels of `not` and `(`, alternately, and how far it goes up to the one past the sixteenth.
fn nested(alloc: Global, levels: u32, back: &str) -> Result<Vec<u8>, AllocError> {
    let mut text = Vec::from_slice(alloc, b"when opened(f1) if ".as_slice())?;
    for level in 0..levels {
        let piece: &[u8] = if level % 2 == 0 {
            b"not ".as_slice()
        } else {
            b"(".as_slice()
        };
        text.extend_from_slice(piece)?;
    }
    text.extend_from_slice(back.as_bytes())?;
    Ok(text)
}

/// Sixteen levels take 8 times 5 bytes behind the 19 in front, so the seventeenth stands at 59.
#[test]
fn conditions_are_nested_to_their_limit(rt: HostRuntime) -> Result<(), Fail> {
    let alloc = rt.alloc();
    let whole = nested(alloc, 16, "true)))))))) then stop")?;
    assert_eq!(rt; refusal(&rt, alloc, whole.as_slice()), None);
    let cases = [
        (16, "true))))))) then stop", (1, 71)),
        (16, "true and not true", (2, 68)),
        (16, "true) and (true)", (1, 75)),
        (16, "active(a1.1.1", (1, 72)),
        (17, "true", (2, 59)),
        (17, "!", (2, 59)),
        (15, "(true", (1, 63)),
        (15, "((true", (2, 59)),
        (16, "5 < (", (1, 63)),
    ];
    for (levels, back, told) in cases {
        let text = nested(alloc, levels, back)?;
        assert_eq!(rt;
            refusal(&rt, alloc, text.as_slice()),
            Some(told),
            "{levels} {back}"
        );
    }
    let alike = [
        ("when opened(f1) if (((((((((((((((((true", 35),
        (
            "when opened(f1) if not not not not not not not not not not not not not not not not not true",
            83,
        ),
    ];
    for (text, at) in alike {
        assert_eq!(rt;
            refusal(&rt, alloc, text.as_bytes()),
            Some((2, at)),
            "{text}"
        );
    }
    Ok(())
}

/// A rule's name of 64 bytes is read; one of 65 is none, and is refused where it begins.
#[test]
fn names_of_rules_have_64_bytes_at_most(rt: HostRuntime) -> Result<(), Fail> {
    let alloc = rt.alloc();
    for (bytes, told) in [(64, None), (65, Some((1, 25)))] {
        let mut text = Vec::from_slice(alloc, b"when opened(f1) if fired(".as_slice())?;
        for _ in 0..bytes {
            text.push(b'r')?;
        }
        text.extend_from_slice(b") then stop".as_slice())?;
        assert_eq!(rt; refusal(&rt, alloc, text.as_slice()), told, "{bytes}");
    }
    Ok(())
}

/// Every prefix ends too early and is refused at its length; one that ends within a word that is no whole one is
/// refused at that word's first byte.
#[test]
fn prefixes_are_refused_at_their_ends(rt: HostRuntime) {
    let rule =
        b"when timeout(a1.2.1, 500) if not (count(j1) >= 5 or fired(slow)) then quota(j1, 9)";
    assert_eq!(rt; rule.len(), 82);
    for length in 0..rule.len() {
        let expected = match length {
            1..=3 => 0,
            6..=11 => 5,
            14..=18 => 13,
            27 => 26,
            30..=31 => 29,
            35..=38 => 34,
            41 => 40,
            50 => 49,
            53..=56 => 52,
            66..=68 => 65,
            71..=74 => 70,
            77 => 76,
            _ => length as u64,
        };
        assert_eq!(rt;
            refusal(&rt, rt.alloc(), &rule[..length]),
            Some((1, expected)),
            "{length}"
        );
    }
    assert_eq!(rt; refusal(&rt, rt.alloc(), rule.as_slice()), None);
}

/// 4,096 bytes are a rule; one more, of whatever kind, is over the limit.
#[test]
fn texts_are_as_long_as_their_limit(rt: HostRuntime) -> Result<(), Fail> {
    let alloc = rt.alloc();
    let mut text = Vec::from_slice(alloc, b"when opened(f1) if true then".as_slice())?;
    for _ in 0..4064 {
        text.push(b' ')?;
    }
    text.extend_from_slice(b"stop".as_slice())?;
    assert_eq!(rt; text.len(), 4096);
    assert_eq!(rt; refusal(&rt, alloc, text.as_slice()), None);
    text.push(b'!')?;
    assert_eq!(rt; refusal(&rt, alloc, text.as_slice()), Some((2, 4096)));
    Ok(())
}

/// `or` holds apart what `and` joins, and both join from the left.
#[test]
fn conditions_are_read_as_they_bind(rt: HostRuntime) -> Result<(), Fail> {
    let text =
        b"when timeout(a1.2.3, 05) if true or not active(a4.5.6) and (1 < count(j7)) then method(j8, left)";
    let rule = read_rule(rt.alloc(), text.as_slice())?;
    let member = MemberName {
        atom: 1,
        group: 2,
        mirror: 3,
    };
    assert_eq!(rt; rule.event, Event::Timeout(member, 5));
    assert_eq!(rt;
        rule.actions.as_slice(),
        [Action::Method(8, Method::Left)].as_slice()
    );
    let Condition::Or(left, right) = rule.condition.get() else {
        panic!(rt; "no or");
    };
    assert!(rt; matches!(left.get(), Condition::True));
    let Condition::And(left, right) = right.get() else {
        panic!(rt; "no and");
    };
    let Condition::Not(inner) = left.get() else {
        panic!(rt; "no not");
    };
    let Condition::Active(active) = inner.get() else {
        panic!(rt; "no member");
    };
    let other = MemberName {
        atom: 4,
        group: 5,
        mirror: 6,
    };
    assert_eq!(rt; *active, other);
    let Condition::Group(inner) = right.get() else {
        panic!(rt; "no group");
    };
    let Condition::Compares(less, op, more) = inner.get() else {
        panic!(rt; "no comparison");
    };
    assert_eq!(rt; *less, Amount::Number(1));
    assert_eq!(rt; *op, NumberOp::Lt);
    assert_eq!(rt; *more, Amount::Count(Name::Join(7)));
    Ok(())
}
