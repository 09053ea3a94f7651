//! How members end: read cleanly, failed by each fault, or waiting for too long.

use super::*;

/// A turn of waiting and a turn of one byte, for each byte of the text.
fn byte_by_byte(alloc: Global, text: &str) -> Result<Vec<Turn>, AllocError> {
    let mut turns = Vec::new(alloc);
    for _ in text.as_bytes() {
        turns.push(Turn::NotYet)?;
        turns.push(Turn::Give(1))?;
    }
    Ok(turns)
}

/// What one member's CSV prints, pulled by these turns, and how many rows of it are accepted.
fn assert_prints<R: Threads + Sync + Abort>(
    rt: &R,
    alloc: Global,
    csv: &Csv<'_>,
    text: &str,
    accepted: u64,
) -> Result<(), AllocError> {
    let mut out = sink(alloc);
    let outcome = run(rt, alloc, (CATALOGUE, QUERY), &[*csv], &mut out)?;
    assert_eq!(rt; outcome.status, Status::Done);
    assert_eq!(rt; out.bytes(), text.as_bytes());
    assert_eq!(rt; outcome.members.as_slice().len(), 1);
    assert_eq!(rt; outcome.members.as_slice()[0].accepted, accepted);
    Ok(())
}

#[test]
fn prints_sorted_distinct_rows(rt: HostRuntime) -> Result<(), Fail> {
    let alloc = rt.alloc();
    for (csv, text, accepted) in [
        ("x\n", "", 0),
        ("x\nparis\noslo\nparis\n", "oslo\nparis\n", 3),
        ("x\nparis\noslo\nparis", "oslo\nparis\n", 3),
        ("x\r\n\"a \"\"b\"\"\nc\"\r\n", "\"a \"\"b\"\"\nc\"\n", 1),
    ] {
        assert_prints(&rt, alloc, &Csv("a", csv, &[]), text, accepted)?;
        let slow = byte_by_byte(alloc, csv)?;
        assert_prints(&rt, alloc, &Csv("a", csv, slow.as_slice()), text, accepted)?;
    }
    Ok(())
}

#[test]
fn reads_all_groups_and_kinds(rt: HostRuntime) -> Result<(), Fail> {
    let alloc = rt.alloc();
    let catalogue =
        r#"# A flat is offered by one of two agencies: each is a group with one location.
[[relation]]
name = "flat"
columns = ["town:text", "rooms:int", "free:bool"]
groups = [["north.csv"], ["south.csv"]]
rows = 6
"#;
    let query = "all(town, rooms, free) :- flat(town, rooms, free).";
    let north = "town,rooms,free\nOslo,3,true\nTromsø,2,false\n\"Bodø, old town\",4,true\n";
    let south = "town,rooms,free\nRome,10,true\nOslo,3,true\nRome,9,false\n";
    let sites = [Csv("north.csv", north, &[]), Csv("south.csv", south, &[])];
    let mut out = sink(alloc);
    let outcome = run(&rt, alloc, (catalogue, query), &sites, &mut out)?;
    assert_eq!(rt; outcome.status, Status::Done);
    let text =
        "\"Bodø, old town\",4,true\nOslo,3,true\nRome,9,false\nRome,10,true\nTromsø,2,false\n";
    assert_eq!(rt; out.bytes(), text.as_bytes());
    assert_eq!(rt; outcome.members.as_slice().len(), 2);
    assert_eq!(rt; outcome.members.as_slice()[1].accepted, 3);
    assert!(rt; outcome.files.is_empty());
    Ok(())
}

#[test]
fn only_mirror_that_fails_starves(rt: HostRuntime) -> Result<(), Fail> {
    let alloc = rt.alloc();
    let number = "[[relation]]\nname = \"n\"\ncolumns = [\"x:int\"]\ngroups = [[\"a\"]]\n";
    let past = "x\n-9223372036854775808\n9223372036854775808\n";
    let bad_field = MemberFault::BadField { k: 2, column: 0 };
    let fails = [Turn::Give(8), Turn::Failed];
    for (texts, csv, fault, accepted) in [
        ((number, NUMBERS), Csv("a", past, &[]), bad_field, 1),
        (
            (number, NUMBERS),
            Csv("a", "x\n7\n12.5\n9\n", &[]),
            bad_field,
            1,
        ),
        (
            (CATALOGUE, QUERY),
            Csv("a", "x\n\"pari", &[]),
            MemberFault::BadRecord { k: 1 },
            0,
        ),
        (
            (CATALOGUE, QUERY),
            Csv("a", "", &[]),
            MemberFault::Header { found: 0 },
            0,
        ),
        (
            (CATALOGUE, QUERY),
            Csv("a", "x\nparis\noslo\n", &fails),
            MemberFault::Read,
            1,
        ),
        (
            (CATALOGUE, QUERY),
            Csv("b", "x\nparis\n", &[]),
            MemberFault::Opening,
            0,
        ),
    ] {
        let mut out = sink(alloc);
        let outcome = run(&rt, alloc, texts, &[csv], &mut out)?;
        let group = GroupName { atom: 1, group: 1 };
        assert_eq!(rt; outcome.status, Status::Starved { group });
        assert!(rt; out.bytes().is_empty());
        assert_eq!(rt; outcome.members.as_slice().len(), 1);
        let member = &outcome.members.as_slice()[0];
        assert_eq!(rt; member.fault, Some(fault));
        assert_eq!(rt;
            (member.state, member.accepted),
            (MemberState::Failed, accepted)
        );
        assert_eq!(rt; member.source.is_none(), fault == MemberFault::Opening);
    }
    Ok(())
}

#[test]
fn longest_text_is_a_value_and_one_byte_more_is_none(rt: HostRuntime) -> Result<(), Fail> {
    let alloc = rt.alloc();
    for (letters, status) in [
        (65_536, Status::Done),
        (
            65_537,
            Status::Starved {
                group: GroupName { atom: 1, group: 1 },
            },
        ),
    ] {
        let mut csv = String::from_str(alloc, "x\n")?;
        for _ in 0..letters {
            csv.push('a')?;
        }
        let mut out = sink(alloc);
        let sites = [Csv("a", csv.as_str(), &[])];
        let outcome = run(&rt, alloc, (CATALOGUE, QUERY), &sites, &mut out)?;
        assert_eq!(rt; outcome.status, status);
        assert_eq!(rt; outcome.members.as_slice().len(), 1);
        let fault = match outcome.status {
            Status::Done => None,
            _ => Some(MemberFault::BadField { k: 1, column: 0 }),
        };
        assert_eq!(rt; outcome.members.as_slice()[0].fault, fault);
    }
    Ok(())
}

#[test]
fn groups_behind_one_that_fails_are_never_opened(rt: HostRuntime) -> Result<(), Fail> {
    let alloc = rt.alloc();
    for (first, second, group, states) in [
        (
            "x\n5\n7,8\n",
            "x\n5\n",
            1,
            (MemberState::Failed, MemberState::Idle),
        ),
        (
            "x\n5\n",
            "x\n1\n1,2\n",
            2,
            (MemberState::Ended, MemberState::Failed),
        ),
    ] {
        let mut out = sink(alloc);
        let sites = [Csv("a", first, &[]), Csv("b", second, &[])];
        let outcome = run(&rt, alloc, (TWO_GROUPS, NUMBERS), &sites, &mut out)?;
        let group = GroupName { atom: 1, group };
        assert_eq!(rt; outcome.status, Status::Starved { group });
        assert!(rt; out.bytes().is_empty());
        assert_eq!(rt; outcome.members.as_slice().len(), 2);
        let members = outcome.members.as_slice();
        assert_eq!(rt; (members[0].state, members[1].state), states);
    }
    Ok(())
}

#[test]
fn stalls_where_nothing_comes(rt: HostRuntime) -> Result<(), Fail> {
    let alloc = rt.alloc();
    let mut out = sink(alloc);
    let sites = [
        Csv("a", "x\n5\n", &[Turn::Give(2), Turn::NotYet]),
        Csv("b", "x\n6\n", &[]),
    ];
    let outcome = run(&rt, alloc, (TWO_GROUPS, NUMBERS), &sites, &mut out)?;
    assert_eq!(rt; outcome.status, Status::Stalled { rounds: IDLE_LIMIT });
    assert_eq!(rt; outcome.members.as_slice().len(), 2);
    assert_eq!(rt; outcome.members.as_slice()[0].state, MemberState::Active);
    assert!(rt; out.bytes().is_empty());
    Ok(())
}
