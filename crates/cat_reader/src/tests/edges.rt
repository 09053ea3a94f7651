//! The limits: at each edge a text that is accepted, and one past it.

use super::{assert_accepted, assert_refused, long, refused, times};
use std::alloc::{AllocError, Global};
use std::process::Abort;
use std::test::Fail;

/// So many different columns.
fn columns(alloc: Global, count: u32) -> Result<String, AllocError> {
    let mut text = String::new(alloc);
    for number in 0..count {
        let column = format!(in alloc; "'c{number}:int',")?;
        text.push_str(column.as_str())?;
    }
    Ok(text)
}

/// The relation whose columns and groups are given.
fn assert_edge(
    rt: &impl Abort,
    alloc: Global,
    columns: (&str, &str),
    groups: (&str, &str),
    item: u32,
) -> Result<(), AllocError> {
    let text = format!(in alloc;
        "[[relation]]\nname='r'\ncolumns=[{}]\ngroups=[{}]",
        columns.0, groups.0
    )?;
    assert_accepted(rt, alloc, text.as_bytes());
    let text = format!(in alloc;
        "[[relation]]\nname='r'\ncolumns=[{}]\ngroups=[{}]",
        columns.1, groups.1
    )?;
    assert_refused(rt, alloc, text.as_bytes(), refused(4, 0, item));
    Ok(())
}

#[test]
fn bounds_columns_and_groups(rt: HostRuntime) -> Result<(), Fail> {
    let alloc = rt.alloc();
    let column = ("'x:int'", "'x:int'");
    let group = ("['a']", "['a']");
    let few = columns(alloc, 16)?;
    let many = columns(alloc, 17)?;
    assert_edge(&rt, alloc, (few.as_str(), many.as_str()), group, 16)?;
    let few = times(alloc, 16, "['a']")?;
    let many = times(alloc, 17, "['a']")?;
    assert_edge(&rt, alloc, column, (few.as_str(), many.as_str()), 16)?;
    let few = format!(in alloc; "['a'],[{}]", times(alloc, 8, "'m'")?)?;
    let many = format!(in alloc; "['a'],[{}]", times(alloc, 9, "'m'")?)?;
    assert_edge(&rt, alloc, column, (few.as_str(), many.as_str()), 1)?;
    let few = format!(in alloc; "'x:int','{}:int'", long(alloc, 256)?)?;
    let many = format!(in alloc; "'x:int','{}:int'", long(alloc, 257)?)?;
    assert_edge(&rt, alloc, (few.as_str(), many.as_str()), group, 1)?;
    let few = format!(in alloc; "['a'],['b','{}']", long(alloc, 4096)?)?;
    let many = format!(in alloc; "['a'],['b','{}']", long(alloc, 4097)?)?;
    assert_edge(&rt, alloc, column, (few.as_str(), many.as_str()), 1)?;
    Ok(())
}

#[test]
fn bounds_names_and_estimates(rt: HostRuntime) -> Result<(), Fail> {
    let alloc = rt.alloc();
    for (length, is_short) in [(1, true), (64, true), (65, false)] {
        let name = long(alloc, length)?;
        let text = format!(in alloc;
            "[[relation]]\nname='{name}'\ncolumns=['x:int']\ngroups=[['a']]"
        )?;
        if is_short {
            assert_accepted(&rt, alloc, text.as_bytes());
        } else {
            assert_refused(&rt, alloc, text.as_bytes(), refused(4, 0, 0));
        }
    }
    for (rows, is_estimate) in [
        ("0", true),
        ("1152921504606846976", true),
        ("1152921504606846977", false),
        ("9223372036854775807", false),
        ("-1", false),
    ] {
        let text = format!(in alloc;
            "[[relation]]\nname='r'\ncolumns=['x:int']\ngroups=[['a']]\nrows={rows}"
        )?;
        if is_estimate {
            assert_accepted(&rt, alloc, text.as_bytes());
        } else {
            assert_refused(&rt, alloc, text.as_bytes(), refused(4, 0, 0));
        }
    }
    Ok(())
}

#[test]
fn counts_relations(rt: HostRuntime) -> Result<(), Fail> {
    let alloc = rt.alloc();
    let mut text = String::new(alloc);
    for number in 0..256 {
        let relation = format!(in alloc;
            "[[relation]]\nname='r{number}'\ncolumns=['x:int']\ngroups=[['a']]\n"
        )?;
        text.push_str(relation.as_str())?;
    }
    assert_accepted(&rt, alloc, text.as_bytes());
    text.push_str("[[relation]]\nname='last'\ncolumns=['x:int']\ngroups=[]\n")?;
    assert_refused(&rt, alloc, text.as_bytes(), refused(4, 256, 0));
    Ok(())
}

/// Names are compared without a scan for each: forty thousand columns are refused at once.
#[test]
fn compares_many_names(rt: HostRuntime) -> Result<(), Fail> {
    let alloc = rt.alloc();
    let many = columns(alloc, 40_000)?;
    let text = format!(in alloc; "[[relation]]\nname='r'\ncolumns=[{many}]\ngroups=[['a']]")?;
    assert_refused(&rt, alloc, text.as_bytes(), refused(4, 0, 16));
    let text = format!(in alloc;
        "[[relation]]\nname='r'\ncolumns=[{many}'c7:int']\ngroups=[['a']]"
    )?;
    assert_refused(&rt, alloc, text.as_bytes(), refused(3, 0, 40_000));
    Ok(())
}
