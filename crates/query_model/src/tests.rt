//! Answers, row by row, with expected values by hand.

ghost use Rattle.std.specs.Prelude.{◌≤◌, length, IfOk};
ghost use Rattle.tuple_core.specs.Values.{FitsValue};

use super::*;
use med_prelude::Listed;
use query_core::{Arrivals, Atom, Comparison, Query, Term};
use row_pages::Rows;
use std::alloc::Global;
use std::process::Abort;
use std::test::Fail;
use tuple_core::{Kind, Op, Row, Value, parse_value};

// Whole numbers and truth values stand for themselves, and every other field is a text.
fn value(alloc: Global, field: &str) -> Result<Value, Fail>
    ensures { IfOk result FitsValue }
{
    for kind in [Kind::Int, Kind::Bool] {
        if let Some(value) = parse_value(alloc, kind, field.as_bytes())? {
            return Ok(value);
        }
    }
    Ok(parse_value(alloc, Kind::Text, field.as_bytes())?.ok_or("no value")?)
}

// A field with a star in front is the variable of that number, and each other one a constant.
fn term(alloc: Global, field: &str) -> Result<Term, Fail> {
    match field.strip_prefix('*') {
        Some(number) => Ok(Term::Variable(number.parse()?)),
        None => Ok(Term::Constant(value(alloc, field)?)),
    }
}

fn row(alloc: Global, line: &str) -> Result<Row, Fail> {
    let mut values = Vec::new(alloc);
    for field in line.split('|') {
        if values.len() == Row::MOST_VALUES {
            return Err(Fail::from("too many values"));
        }
        values.push(value(alloc, field)?)?;
    }
    Ok(Row::new(values))
}

// A row of each line; its fields stand between bars.
fn rows(alloc: Global, lines: &str) -> Result<Rows, Fail> {
    let mut rows = Rows::new(alloc);
    for line in lines.lines() {
        rows.push(alloc, &row(alloc, line)?)?;
    }
    Ok(rows)
}

// An atom of each line; its terms stand between bars.
fn atoms(alloc: Global, lines: &str) -> Result<Listed<Atom>, Fail> {
    let mut atoms = Listed::new(alloc);
    for line in lines.lines() {
        let mut terms = Listed::new(alloc);
        for field in line.split('|') {
            terms.push(term(alloc, field)?)?;
        }
        atoms.push(Atom { relation: 0, terms })?;
    }
    Ok(atoms)
}

// A query whose variables are numbers, the rows that came for its atoms, and the rows of its answer.
struct Case<'a> {
    head: &'a [u32],
    atoms: &'a str,
    comparisons: &'a [(&'a str, Op, &'a str)],
    arrivals: &'a [&'a str],
    answer: &'a str,
}

fn query(alloc: Global, case: &Case) -> Result<Query, Fail> {
    let mut comparisons = Listed::new(alloc);
    for (left, op, right) in case.comparisons {
        comparisons.push(Comparison {
            left: term(alloc, left)?,
            op: *op,
            right: term(alloc, right)?,
        })?;
    }
    Ok(Query {
        head: Listed::from_vec(case.head.to_vec(alloc)?),
        atoms: atoms(alloc, case.atoms)?,
        comparisons,
    })
}

fn answer(alloc: Global, case: &Case) -> Result<Rows, Fail> {
    let query = query(alloc, case)?;
    let mut arrivals = Arrivals::new(alloc);
    for lines in case.arrivals {
        arrivals.push(rows(alloc, lines)?)?;
    }
    if query.head.len() > Row::MOST_VALUES {
        return Err(Fail::from("too many variables in the head"));
    }
    Ok(slow_answer(alloc, &query, &arrivals)?)
}

fn list(alloc: Global, rows: &Rows) -> Result<Vec<Row>, Fail> {
    let mut list = Vec::new(alloc);
    for row in rows.iter() {
        list.push(row.to_row(alloc)?)?;
    }
    Ok(list)
}

fn check(rt: &impl Abort, alloc: Global, cases: &[Case]) -> Result<(), Fail> {
    for case in cases {
        let wanted = rows(alloc, case.answer)?;
        assert_eq!(rt;
            list(alloc, &answer(alloc, case)?)?.as_slice(),
            list(alloc, &wanted)?.as_slice(),
            "{}",
            case.atoms
        );
    }
    Ok(())
}

static JOINED: [Case<'static>; 4] = [
    // two relations joined on a middle column
    Case {
        head: &[0, 1],
        atoms: "*0|*2\n*2|*1",
        comparisons: &[],
        arrivals: &["1|10\n2|20\n3|30", "20|b\n30|c\n40|d"],
        answer: "2|b\n3|c",
    },
    // a relation joined with itself
    Case {
        head: &[0, 1],
        atoms: "*0|*2\n*2|*1",
        comparisons: &[],
        arrivals: &["1|2\n2|3\n2|4\n3|4", "1|2\n2|3\n2|4\n3|4"],
        answer: "1|3\n1|4\n2|4",
    },
    // each row with each row: they come in falling order, and are answered in rising order
    Case {
        head: &[0, 1],
        atoms: "*0\n*1",
        comparisons: &[],
        arrivals: &["3\n2\n1", "7\n6\n5\n4"],
        answer: "1|4\n1|5\n1|6\n1|7\n2|4\n2|5\n2|6\n2|7\n3|4\n3|5\n3|6\n3|7",
    },
    // flights with hotels and cars
    Case {
        head: &[0, 1, 2],
        atoms: "*0|SEA|*3|*4\n*3|*1|*5\n*3|*2",
        comparisons: &[("*4", Op::Lt, "500"), ("*5", Op::Le, "120")],
        arrivals: &[
            "UA1|SEA|BOS|310\nUA1|SEA|BOS|310\nUA2|SEA|JFK|520\nDL7|PDX|BOS|200\nAS3|SEA|LAX|150",
            "BOS|Inn, Old|95\nBOS|Ritz|300\nLAX|Surf|120",
            "BOS|Acme\nLAX|Acme\nLAX|Zip",
        ],
        answer: "AS3|Surf|Acme\nAS3|Surf|Zip\nUA1|Inn, Old|Acme",
    },
];

static KEPT: [Case<'static>; 9] = [
    // a repeated variable has one value
    Case {
        head: &[0],
        atoms: "*0|*0",
        comparisons: &[],
        arrivals: &["5|6\n7|7\n6|5\n8|b"],
        answer: "7",
    },
    // a constant is its column's value
    Case {
        head: &[0],
        atoms: "*0|b",
        comparisons: &[],
        arrivals: &["1|b\n2|c\n3|4\n4|b\n5|bb"],
        answer: "1\n4",
    },
    // a row is answered once
    Case {
        head: &[1],
        atoms: "*0|*1",
        comparisons: &[],
        arrivals: &["1|b\n2|a\n3|b\n4|b"],
        answer: "a\nb",
    },
    // two variables are compared
    Case {
        head: &[0, 1],
        atoms: "*0\n*1",
        comparisons: &[("*1", Op::Lt, "*0")],
        arrivals: &["1\n2\n3", "1\n2\n3"],
        answer: "2|1\n3|1\n3|2",
    },
    // values of two kinds never compare
    Case {
        head: &[0],
        atoms: "*0",
        comparisons: &[("*0", Op::Ne, "b")],
        arrivals: &["1\nc\nb\ntrue\na"],
        answer: "a\nc",
    },
    // a row is read as far as it has values, and its atom terms
    Case {
        head: &[0, 1],
        atoms: "*0|*1",
        comparisons: &[],
        arrivals: &["1|2|3\n4\n5|6"],
        answer: "1|2\n4\n5|6",
    },
    // an atom without rows has no answer
    Case {
        head: &[0, 1],
        atoms: "*0\n*1",
        comparisons: &[],
        arrivals: &["1\n2", ""],
        answer: "",
    },
    // a list that is missing has no rows, and one too many is not asked for
    Case {
        head: &[0, 1],
        atoms: "*0\n*1",
        comparisons: &[],
        arrivals: &["1\n2"],
        answer: "",
    },
    Case {
        head: &[0, 1],
        atoms: "*0\n*1",
        comparisons: &[],
        arrivals: &["1\n2", "3", ""],
        answer: "1|3\n2|3",
    },
];

#[test]
fn answers_by_nested_choice(rt: HostRuntime) -> Result<(), Fail> {
    check(&rt, rt.alloc(), JOINED.as_slice())?;
    check(&rt, rt.alloc(), KEPT.as_slice())
}
