//! Queries over several atoms.

use super::*;

const TWO_RELATIONS: &str = r#"[[relation]]
name = "r"
columns = ["x:int", "y:int"]
groups = [["r"]]

[[relation]]
name = "s"
columns = ["y:int", "z:text"]
groups = [["s"]]
"#;

const R: Csv<'_> = Csv("r", "x,y\n1,10\n2,20\n3,30\n", &[]);

const S: Csv<'_> = Csv("s", "y,z\n20,b\n30,c\n40,d\n", &[]);

#[test]
fn joins_two_relations(rt: HostRuntime) -> Result<(), Fail> {
    let alloc = rt.alloc();
    for most in [1, 2, 3, 100] {
        let mut out = MemSink::new(alloc, most, Vec::new(alloc));
        let query = "q(x, z) :- r(x, y), s(y, z).";
        let outcome = run(&rt, alloc, (TWO_RELATIONS, query), &[R, S], &mut out)?;
        assert_eq!(rt; outcome.status, Status::Done);
        assert_eq!(rt; out.bytes(), b"2,b\n3,c\n".as_slice(), "{most:?}");
        assert_eq!(rt; outcome.members.as_slice().len(), 2);
        assert_eq!(rt; outcome.members.as_slice()[1].accepted, 3);
    }
    Ok(())
}

#[test]
fn joins_a_relation_with_itself(rt: HostRuntime) -> Result<(), Fail> {
    let alloc = rt.alloc();
    let catalogue =
        "[[relation]]\nname = \"e\"\ncolumns = [\"x:int\", \"y:int\"]\ngroups = [[\"e\"]]\n";
    let sites = [Csv("e", "x,y\n1,2\n2,3\n2,4\n3,4\n", &[])];
    let mut out = sink(alloc);
    let query = "q(x, z) :- e(x, y), e(y, z).";
    let outcome = run(&rt, alloc, (catalogue, query), &sites, &mut out)?;
    assert_eq!(rt; outcome.status, Status::Done);
    assert_eq!(rt; out.bytes(), b"1,3\n1,4\n2,4\n".as_slice());
    let members = outcome.members.as_slice();
    assert_eq!(rt; members.len(), 2);
    assert_eq!(rt; (members[0].name.atom, members[1].name.atom), (1, 2));
    for member in members {
        assert!(rt; member.location.as_str() == "e");
        assert!(rt; member.source.is_some());
        assert_eq!(rt; member.accepted, 4);
    }
    Ok(())
}

#[test]
fn multiplies_relations_that_share_nothing(rt: HostRuntime) -> Result<(), Fail> {
    let alloc = rt.alloc();
    let mut out = sink(alloc);
    let query = "q(z, x) :- r(x, a), s(b, z), x >= 2, z != \"c\".";
    let outcome = run(&rt, alloc, (TWO_RELATIONS, query), &[R, S], &mut out)?;
    assert_eq!(rt; outcome.status, Status::Done);
    assert_eq!(rt; out.bytes(), b"b,2\nb,3\nd,2\nd,3\n".as_slice());
    Ok(())
}

#[test]
fn answers_over_flights_hotels_and_cars(rt: HostRuntime) -> Result<(), Fail> {
    let alloc = rt.alloc();
    let catalogue = r#"[[relation]]
name = "flights"
columns = ["num:text", "orig:text", "dest:text", "price:int"]
groups = [["east"], ["west"]]

[[relation]]
name = "hotels"
columns = ["town:text", "name:text", "cost:int"]
groups = [["hotels"]]

[[relation]]
name = "cars"
columns = ["town:text", "firm:text"]
groups = [["cars"]]
"#;
    let query =
        "q(n, h, f) :- flights(n, \"SEA\", d, p), hotels(d, h, c), cars(d, f), p < 500, c <= 120.";
    let sites = [
        Csv(
            "east",
            "num,orig,dest,price\nUA1,SEA,BOS,310\nUA2,SEA,JFK,520\nDL7,PDX,BOS,200\n",
            &[],
        ),
        Csv("west", "num,orig,dest,price\nAS3,SEA,LAX,150\n", &[]),
        Csv(
            "hotels",
            "town,name,cost\nBOS,\"Inn, Old\",95\nBOS,Ritz,300\nLAX,Surf,120\n",
            &[],
        ),
        Csv("cars", "town,firm\nBOS,Acme\nLAX,Acme\nLAX,Zip\n", &[]),
    ];
    let mut out = sink(alloc);
    let outcome = run(&rt, alloc, (catalogue, query), &sites, &mut out)?;
    assert_eq!(rt; outcome.status, Status::Done);
    let text = b"AS3,Surf,Acme\nAS3,Surf,Zip\nUA1,\"Inn, Old\",Acme\n";
    assert_eq!(rt; out.bytes(), text.as_slice());
    Ok(())
}

#[test]
fn starves_at_a_later_atom(rt: HostRuntime) -> Result<(), Fail> {
    let alloc = rt.alloc();
    let mut out = sink(alloc);
    let query = "q(x) :- r(x, y), s(y, z), r(w, x).";
    let bad = Csv("s", "y,z\n20,b\nx,c\n", &[]);
    let outcome = run(&rt, alloc, (TWO_RELATIONS, query), &[R, bad], &mut out)?;
    let group = GroupName { atom: 2, group: 1 };
    assert_eq!(rt; outcome.status, Status::Starved { group });
    assert!(rt; out.bytes().is_empty());
    let members = outcome.members.as_slice();
    assert_eq!(rt; members.len(), 3);
    let fault = MemberFault::BadField { k: 2, column: 0 };
    assert_eq!(rt; members[0].state, MemberState::Ended);
    assert_eq!(rt; members[1].fault, Some(fault));
    assert_eq!(rt; members[2].state, MemberState::Idle);
    assert_eq!(rt; members[2].name.atom, 3);
    Ok(())
}

#[test]
fn answers_over_five_atoms_and_ten_variables(rt: HostRuntime) -> Result<(), Fail> {
    let alloc = rt.alloc();
    let catalogue =
        "[[relation]]\nname = \"e\"\ncolumns = [\"x:int\", \"y:int\"]\ngroups = [[\"e\"]]\n";
    let sites = [Csv("e", "x,y\n1,2\n2,3\n3,4\n4,5\n5,6\n", &[])];
    let mut out = sink(alloc);
    let query =
        "q(a, j) :- e(a, b), e(c, d), e(f, g), e(h, i), e(k, j), b = c, d = f, g = h, i = k.";
    let outcome = run(&rt, alloc, (catalogue, query), &sites, &mut out)?;
    assert_eq!(rt; outcome.status, Status::Done);
    assert_eq!(rt; out.bytes(), b"1,6\n".as_slice());
    assert_eq!(rt; outcome.members.as_slice().len(), 5);
    Ok(())
}
