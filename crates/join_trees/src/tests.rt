//! Texts that spell trees, and texts that don't, by hand.

use crate::{Leaf, Node, read_tree};
use std::alloc::{AllocError, Global};
use std::test::Fail;

#[test]
fn joins_stand_behind_their_trees(rt: HostRuntime) -> Result<(), Fail> {
    let text = b"j12( j2(f3,a4) , a999999)";
    let tree = read_tree(rt.alloc(), text.as_slice())?.ok_or("no tree")?;
    let nodes = [
        Node::Leaf(Leaf::Fragment(3)),
        Node::Leaf(Leaf::Atom(4)),
        Node::Join(2),
        Node::Leaf(Leaf::Atom(999_999)),
        Node::Join(12),
    ];
    assert_eq!(rt; tree.nodes(), nodes.as_slice());
    Ok(())
}

/// Spaces stand between tokens alone, and names have numbers from 1 to 999,999 without zeros in front.
#[test]
fn reads_and_refuses(rt: HostRuntime) -> Result<(), Fail> {
    let cases = [
        ("a1", true),
        ("f999999", true),
        ("j1(a1,a1)", true),
        ("j1 ( a1 , j1(f3, a2) )", true),
        ("", false),
        (" a1", false),
        ("a1 ", false),
        ("a0", false),
        ("a01", false),
        ("a1000000", false),
        ("a1.1.1", false),
        ("b1", false),
        ("A1", false),
        ("j1", false),
        ("j1()", false),
        ("j1(a1)", false),
        ("j1(a1,)", false),
        ("j1(a1,a2,a3)", false),
        ("j1(a1,a2", false),
        ("j1(a1,a2))", false),
        ("j1 a1, a2", false),
        ("j1((a1),a2)", false),
        ("f1(a1,a2)", false),
        ("a1,a2", false),
        ("a1 a2", false),
        ("j1(a1;a2)", false),
        ("j1\t(a1,a2)", false),
    ];
    for (text, is_tree) in cases {
        let tree = read_tree(rt.alloc(), text.as_bytes())?;
        assert_eq!(rt; tree.is_some(), is_tree, "{text}");
    }
    Ok(())
}

/// So many joins, each the left tree of the one before it, and so many closings.
fn deep_tree(alloc: Global, joins: u32, closings: u32) -> Result<String, AllocError> {
    let mut text = String::new(alloc);
    for _ in 0..joins {
        text.push_str("j1(")?;
    }
    text.push_str("a1")?;
    for _ in 0..closings {
        text.push_str(",a1)")?;
    }
    Ok(text)
}

/// Trees of 150,000 parentheses one inside the other are answered at once.
#[test]
fn answers_deep_trees(rt: HostRuntime) -> Result<(), Fail> {
    let cases = [
        (75_000, 75_000, true),
        (75_000, 74_999, false),
        (75_000, 75_001, false),
        (150_000, 0, false),
    ];
    for (joins, closings, is_tree) in cases {
        let text = deep_tree(rt.alloc(), joins, closings)?;
        let tree = read_tree(rt.alloc(), text.as_bytes())?;
        assert_eq!(rt; tree.is_some(), is_tree, "{joins} {closings}");
    }
    Ok(())
}
