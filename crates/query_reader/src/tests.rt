//! Texts, with what they are read as or where they are refused.

use crate::{LONGEST_QUERY, QueryFault, read_query};
use cat_reader::read_catalogue;
use query_core::{Query, Term};
use std::alloc::{AllocError, Global};
use std::process::Abort;
use std::test::Fail;

/// The relations `r(x:int, y:int)`, `s(y:int, z:text)`, `city(x:text)`, `flag(b:bool)`, and `wide` of 16 integers.
const CATALOGUE: &str = r#"
[[relation]]
name = "r"
columns = ["x:int", "y:int"]
groups = [["r.csv"]]
[[relation]]
name = "s"
columns = ["y:int", "z:text"]
groups = [["s.csv"]]
[[relation]]
name = "city"
columns = ["x:text"]
groups = [["city.csv"]]
[[relation]]
name = "flag"
columns = ["b:bool"]
groups = [["flag.csv"]]
[[relation]]
name = "wide"
columns = ["a:int", "b:int", "c:int", "d:int", "e:int", "f:int", "g:int", "h:int", "i:int", "j:int", "k:int", "l:int", "m:int", "n:int", "o:int", "p:int"]
groups = [["wide.csv"]]
"#;

fn read(rt: &impl Abort, alloc: Global, text: &[u8]) -> Result<Query, QueryFault> {
    match read_catalogue(alloc, CATALOGUE.as_bytes()) {
        Ok(catalogue) => read_query(alloc, text, &catalogue),
        Err(_) => panic!(rt; "the catalogue is refused"),
    }
}

/// The check that is told, and where; 0 where the text is read.
fn refusal(rt: &impl Abort, alloc: Global, text: &[u8]) -> (u8, u64) {
    match read(rt, alloc, text) {
        Ok(_) => (0, 0),
        Err(QueryFault::Refused { why, at }) => (why, at),
        Err(QueryFault::NoMemory) => panic!(rt; "out of memory"),
    }
}

/// Each check by its text; then kinds, variables, texts with several faults, and texts that are read.
#[test]
fn the_first_broken_check_is_told(rt: HostRuntime) {
    let cases = [
        ("q(x) :- city(x)", 1, 15),
        ("q(x) :- town(x).", 2, 8),
        ("q(x) :- city(x, x).", 3, 8),
        ("q(x) :- city(x), x < 5.", 4, 17),
        ("q(y) :- city(x).", 5, 2),
        ("q(x) :- city(x), y < 5.", 6, 17),
        ("q(x) :- r(x, y), s(y, x).", 4, 22),
        ("q(x) :- city(x), r(x, x).", 4, 19),
        ("q(x) :- r(x, true).", 4, 13),
        ("q(x) :- r(x, \"1\").", 4, 13),
        ("q(x) :- city(x), flag(1).", 4, 22),
        ("q(y) :- s(y, z), z = y.", 4, 17),
        ("q(x) :- x < 5, city(x).", 4, 8),
        ("q(x) :- city(x), flag(x), x < 5.", 4, 22),
        ("q(x, y) :- city(x), y = x.", 5, 5),
        ("q(x) :- city(x), x = y.", 6, 21),
        ("q(x) :- y < 1, y = x, city(x).", 6, 8),
        ("q(x) :- town(x)", 1, 15),
        ("q(y) :- town(x), city(x, x).", 2, 8),
        ("q(y) :- city(x, x), town(x).", 2, 20),
        ("q(x) :- town(x), lake(x).", 2, 8),
        ("q(y) :- city(x), x < 5.", 4, 17),
        ("q(y) :- city(x), z < 5.", 5, 2),
        ("q(x) :- x < 5, r(x, y), y >= x, s(1, \"a\").", 0, 0),
        ("q(city) :- city(city).", 0, 0),
    ];
    for (text, why, at) in cases {
        assert_eq!(rt;
            refusal(&rt, rt.alloc(), text.as_bytes()),
            (why, at),
            "{text}"
        );
    }
}

/// A piece so many times between two others.
fn repeated(
    alloc: Global,
    front: &str,
    piece: &str,
    count: u32,
    back: &str,
) -> Result<Vec<u8>, AllocError> {
    let mut text = Vec::from_slice(alloc, front.as_bytes())?;
    for _ in 0..count {
        text.extend_from_slice(piece.as_bytes())?;
    }
    text.extend_from_slice(back.as_bytes())?;
    Ok(text)
}

/// Each limit at its edge and one past it: atoms, comparisons, the head, and the text's bytes.
#[test]
fn limits_are_kept(rt: HostRuntime) -> Result<(), Fail> {
    let cases = [
        ("q(x) :- city(x)", ", city(x)", 7, ".", 0, 0),
        ("q(x) :- city(x)", ", city(x)", 8, ".", 7, 80),
        ("q(x) :- city(x)", ", x = x", 32, ".", 0, 0),
        ("q(x) :- city(x)", ", x = x", 33, ".", 7, 241),
        ("q(x", ", x", 63, ") :- city(x).", 0, 0),
        ("q(x", ", x", 64, ") :- city(x).", 7, 194),
        ("q(x) :- city(x).", " ", 1_048_560, "", 0, 0),
        ("q(x) :- city(x).", " ", 1_048_560, "!", 7, 1_048_576),
        ("q(x) :- city(x)", ", city(x)", 99_999, ".", 7, 80),
    ];
    for (front, piece, count, back, why, at) in cases {
        let text = repeated(rt.alloc(), front, piece, count, back)?;
        assert_eq!(rt;
            refusal(&rt, rt.alloc(), text.as_slice()),
            (why, at),
            "{front}"
        );
    }
    assert_eq!(rt; LONGEST_QUERY, 1_048_576);
    Ok(())
}

/// Atoms `wide(v10, .., v25)`, `wide(v26, ..)` and so on with 64 variables, in 280 bytes from byte 10 on.
fn sixty_four(alloc: Global) -> Result<String, AllocError> {
    let mut text = String::from_str(alloc, "q(v10) :- ")?;
    for number in 10..74u32 {
        if number % 16 == 10 {
            text.push_str("wide(")?;
        }
        let end = if number % 16 == 9 { ")," } else { "," };
        let name = format!(in alloc; "v{number}{end}")?;
        text.push_str(name.as_str())?;
    }
    Ok(text)
}

/// The 65th variable is told where it stands first.
#[test]
fn a_query_has_64_variables(rt: HostRuntime) -> Result<(), Fail> {
    let cases = [("r(v10,v73).", 0, 0), ("r(v10,v74),r(v75,v76).", 7, 296)];
    for (end, why, at) in cases {
        let mut text = sixty_four(rt.alloc())?;
        text.push_str(end)?;
        assert_eq!(rt;
            refusal(&rt, rt.alloc(), text.as_str().as_bytes()),
            (why, at),
            "{end}"
        );
    }
    Ok(())
}

/// A hundred thousand variables in the head, of which the second is in no atom.
#[test]
fn long_heads_are_answered(rt: HostRuntime) -> Result<(), Fail> {
    let alloc = rt.alloc();
    let mut text = String::from_str(alloc, "q(v100000")?;
    for number in 100_001..200_000u32 {
        let name = format!(in alloc; ",v{number}")?;
        text.push_str(name.as_str())?;
    }
    text.push_str(") :- city(v100000).")?;
    assert_eq!(rt; refusal(&rt, alloc, text.as_str().as_bytes()), (5, 10));
    Ok(())
}

/// The number of a variable; none for a constant.
fn number_in(term: Option<&Term>) -> Option<u32> {
    match term {
        Some(Term::Variable(number)) => Some(*number),
        _ => None,
    }
}

/// Relations by their positions in the catalogue, variables by their numbers, constants as none.
#[test]
fn a_text_is_read_whole(rt: HostRuntime) -> Result<(), Fail> {
    let text = b"q(z, x, z) :- y < 5, s(u, \"oslo\"), r(x, y), flag(true), s(y, z), u >= x.";
    let query = read(&rt, rt.alloc(), text.as_slice()).map_err(|_| Fail::from("refused"))?;
    assert_eq!(rt; query.head.as_slice(), [0, 1, 0].as_slice());
    let atoms = [
        (1, Some(3), None),
        (0, Some(1), Some(2)),
        (3, None, None),
        (1, Some(2), Some(0)),
    ];
    assert_eq!(rt; query.atoms.len(), 4);
    for (atom, (relation, first, second)) in query.atoms.as_slice().iter().zip(atoms) {
        assert_eq!(rt; atom.relation, relation);
        assert_eq!(rt; number_in(atom.terms.as_slice().get(0)), first);
        assert_eq!(rt; number_in(atom.terms.as_slice().get(1)), second);
    }
    let sides = [(Some(2), None), (Some(3), Some(1))];
    assert_eq!(rt; query.comparisons.len(), 2);
    for (comparison, (left, right)) in query.comparisons.as_slice().iter().zip(sides) {
        assert_eq!(rt; number_in(Some(&comparison.left)), left);
        assert_eq!(rt; number_in(Some(&comparison.right)), right);
    }
    Ok(())
}
