//! What a user is told of each status.

use crate::{fault_text, write_fault};
use med_base::{GroupName, MemSink, Part, ShelfFile, SinkFault, Status};
use std::test::Fail;

const USAGE: &str =
    "usage: mediator run CATALOGUE QUERY [PLAN] [--threads N] [--report] [--journal]\n       mediator check CATALOGUE QUERY [PLAN]\n       mediator load NUMBER [--rows N] [--threads N]\n";

#[test]
fn each_status_has_its_text(rt: HostRuntime) -> Result<(), Fail> {
    let alloc = rt.alloc();
    let cannot_read = |file: ShelfFile| Status::ShelfFault { file };
    let plan_refused = |part: Part| Status::PlanRefused {
        why: 7,
        part,
        item: 2,
    };
    for (status, text) in [
        (Status::Done, ""),
        (Status::NoMemory, "mediator: out of memory\n"),
        (Status::Usage, USAGE),
        (
            cannot_read(ShelfFile::Catalogue),
            "mediator: cannot read catalogue\n",
        ),
        (
            cannot_read(ShelfFile::Query),
            "mediator: cannot read query\n",
        ),
        (cannot_read(ShelfFile::Plan), "mediator: cannot read plan\n"),
        (
            Status::CatalogueRefused {
                why: 4,
                relation: 0,
                item: 4294967295,
            },
            "mediator: catalogue refused 4 relation 0 item 4294967295\n",
        ),
        (
            Status::QueryRefused {
                why: 7,
                at: 1048576,
            },
            "mediator: query refused 7 at 1048576\n",
        ),
        (
            plan_refused(Part::Plan),
            "mediator: plan refused 7 plan 2\n",
        ),
        (
            plan_refused(Part::Fragment),
            "mediator: plan refused 7 fragment 2\n",
        ),
        (
            plan_refused(Part::Join),
            "mediator: plan refused 7 join 2\n",
        ),
        (
            plan_refused(Part::Group),
            "mediator: plan refused 7 group 2\n",
        ),
        (
            plan_refused(Part::Rule),
            "mediator: plan refused 7 rule 2\n",
        ),
        (
            plan_refused(Part::Atom),
            "mediator: plan refused 7 atom 2\n",
        ),
        (
            Status::Starved {
                group: GroupName { atom: 1, group: 2 },
            },
            "mediator: starved a1.2\n",
        ),
        (
            Status::RuleError { rule: 3 },
            "mediator: rule 3 stopped the run\n",
        ),
        (
            Status::SpillFault { file: 5 },
            "mediator: spill fault file 5\n",
        ),
        (
            Status::SpillFull {
                file: 5,
                need: 40,
                limit: 100,
            },
            "mediator: spill full file 5 need 40 limit 100\n",
        ),
        (
            Status::Differs {
                file: 5,
                kept: 12,
                found: 11,
            },
            "mediator: spill file 5 kept 12 found 11\n",
        ),
        (
            Status::Stalled { rounds: 100000 },
            "mediator: stalled 100000 rounds\n",
        ),
        (Status::OutFault, "mediator: output fault\n"),
        (Status::NotBuilt { why: 1 }, "mediator: not built yet 1\n"),
    ] {
        assert_eq!(rt; fault_text(alloc, &status)?.as_str(), text);
        let mut sink = MemSink::new(alloc, 3, Vec::new(alloc));
        let wrote = write_fault(alloc, &status, &mut sink);
        assert!(rt; wrote.is_ok());
        assert_eq!(rt; sink.bytes(), text.as_bytes());
    }
    Ok(())
}

#[test]
fn sink_that_fails_has_the_start_of_a_line(rt: HostRuntime) -> Result<(), Fail> {
    let alloc = rt.alloc();
    let mut sink = MemSink::new(alloc, 4, vec![in alloc; 1]?);
    let wrote = write_fault(alloc, &Status::OutFault, &mut sink);
    assert!(rt; matches!(wrote, Err(SinkFault::Failed)));
    assert_eq!(rt; sink.bytes(), b"medi".as_slice());
    Ok(())
}
