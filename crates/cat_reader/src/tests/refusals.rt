//! Where a text is refused: the first broken check, at the least location that breaks it.

use super::{assert_accepted, assert_refused, refused};
use std::alloc::{AllocError, Global};
use std::test::Fail;

/// One relation after the other, from what stands in them.
fn relations(alloc: Global, inside: &[&str]) -> Result<String, AllocError> {
    let mut text = String::new(alloc);
    for entries in inside {
        text.push_str("[[relation]]\n")?;
        text.push_str(entries)?;
        text.push('\n')?;
    }
    Ok(text)
}

#[test]
fn refuses_texts_and_documents(rt: HostRuntime) {
    let alloc = rt.alloc();
    for (text, why) in [
        ("relation = [", 1),
        ("[[relation]\nname = \"r\"", 1),
        ("rows = 9223372036854775808", 1),
        ("", 2),
        ("# nothing\n", 2),
        ("relation = []", 2),
        ("relation = 3", 2),
        ("relation = [{}, 3]", 2),
        ("relations = []", 2),
        ("size = 3\n[[relation]]\nname='r'", 2),
    ] {
        assert_refused(&rt, alloc, text.as_bytes(), refused(why, 0, 0));
    }
    assert_refused(&rt, alloc, b"name = \"\xff\"", refused(1, 0, 0));
}

/// Two relations, of which one or both break a check: the first check counts, then the first relation, then its least item.
#[test]
fn tells_the_first_check_at_the_least_location(rt: HostRuntime) -> Result<(), Fail> {
    let alloc = rt.alloc();
    let good = "name='g'\ncolumns=['x:int','X:int']\ngroups=[['a']]";
    let shape = "name='s'\ncolumns=['x:int','y']\ngroups=[['a']]";
    let doubled = "name='d'\ncolumns=['x:int','y:int','y:text','x:int']\ngroups=[['a']]";
    let large = "name='l'\ncolumns=['x:int']\ngroups=[['a'],['1','2','3','4','5','6','7','8','9']]";
    let empty = "name='e'\ncolumns=['x:int']\ngroups=[['a'],['b',''],[]]";
    let groupless = "name='n'\ncolumns=['x:int']\ngroups=[]";
    let negative = "name='m'\ncolumns=['x:int']\ngroups=[]\nrows=-1";
    for (first, other, why, relation, item) in [
        (good, "columns=['x:int']\ngroups=[['a']]", 2, 1, 0),
        (good, "name='r'\ngroups=[['a']]", 2, 1, 0),
        (good, "name='r'\ncolumns=['x:int','y']", 2, 1, 0),
        (good, "name=3\ncolumns=['x:int']\ngroups=[['a']]", 2, 1, 0),
        (
            good,
            "name='2x'\ncolumns=['x:int']\ngroups=[['a']]",
            2,
            1,
            0,
        ),
        (
            good,
            "name='true'\ncolumns=['x:int']\ngroups=[['a']]",
            2,
            1,
            0,
        ),
        (good, "name='r'\ncolumns='x:int'\ngroups=[['a'],3]", 2, 1, 0),
        (good, "name='r'\ncolumns=[]\ngroups=[['a']]", 2, 1, 0),
        (
            good,
            "name='r'\ncolumns=['x:int','y']\ngroups=[['a']]\nrows=1.0",
            2,
            1,
            0,
        ),
        (
            good,
            "name='r'\ncolumns=['x:int','y']\ngroups=[['a']]\nsize=1",
            2,
            1,
            0,
        ),
        (
            good,
            "name='r'\ncolumns=['x:int',3]\ngroups=[['a']]",
            2,
            1,
            1,
        ),
        (
            good,
            "name='r'\ncolumns=['x:int',':int']\ngroups=[['a']]",
            2,
            1,
            1,
        ),
        (
            good,
            "name='r'\ncolumns=['x:int','x:Int']\ngroups=[['a']]",
            2,
            1,
            1,
        ),
        (
            good,
            "name='r'\ncolumns=['x:int','x:int:']\ngroups=[['a']]",
            2,
            1,
            1,
        ),
        (
            good,
            "name='r'\ncolumns=['x:int']\ngroups=[['a'],['b'],[3]]",
            2,
            1,
            2,
        ),
        (good, "name='r'\ncolumns=['x:int','y']\ngroups=[3]", 2, 1, 0),
        (
            good,
            "name='r'\ncolumns=['x:int','y']\ngroups=[['a'],['b'],3]",
            2,
            1,
            1,
        ),
        (shape, shape, 2, 0, 1),
        (doubled, shape, 2, 1, 1),
        (good, good, 3, 1, 0),
        (good, doubled, 3, 1, 2),
        (doubled, large, 3, 0, 2),
        (large, doubled, 3, 1, 2),
        (empty, large, 4, 1, 1),
        (large, negative, 4, 0, 1),
        (negative, large, 4, 0, 0),
        (groupless, empty, 5, 1, 1),
        (good, groupless, 6, 1, 0),
    ] {
        let text = relations(alloc, &[first, other])?;
        assert_refused(&rt, alloc, text.as_bytes(), refused(why, relation, item));
    }
    let wide = "name='True1_'\ncolumns=['a:b:int','::int',' :text','é:bool']\ngroups=[['a']]";
    let other = "name='G'\ncolumns=['x:int']\ngroups=[['a']]";
    assert_accepted(
        &rt,
        alloc,
        relations(alloc, &[good, wide, other])?.as_bytes(),
    );
    Ok(())
}
