use crate::ending::{exit_number, print_status};
use rb_base::{Field, Numbers, OutFault, SiteId};
use rb_io::{MemorySink, SteadySink};
use rb_script::{Limit, ScriptKind};
use rb_top::Status;
use std::alloc::Global;
use std::process::Abort;
use std::test::Fail;

const KIND: ScriptKind = ScriptKind::Syntax;

/// Each kind of status, with the number of its exit and its line.
const STATUSES: [(Status, u8, &[u8]); 13] = [
    (Status::Done, 0, b""),
    (
        Status::Usage,
        2,
        b"usage: run [--brief] | read | make SEED COUNT | live\n",
    ),
    (
        Status::BadScript {
            line: 0,
            kind: KIND,
        },
        3,
        b"bad script: line 0 syntax\n",
    ),
    (
        Status::BadScript {
            line: 12,
            kind: KIND,
        },
        3,
        b"bad script: line 12 syntax\n",
    ),
    (
        Status::BadLog {
            position: 315,
            field: Field::TableId,
        },
        9,
        b"bad log: position 315 field TableId\n",
    ),
    (
        Status::BadLog {
            position: 1073741824,
            field: Field::Limit,
        },
        9,
        b"bad log: position 1073741824 field Limit\n",
    ),
    (Status::ReadFault, 4, b"read fault\n"),
    (Status::WriteFault, 5, b"write fault\n"),
    (Status::DiskFault { site: SiteId::A }, 6, b"disk fault A\n"),
    (Status::DiskFault { site: SiteId::B }, 6, b"disk fault B\n"),
    (Status::NoMemory, 7, b"no memory\n"),
    (
        Status::NotEmpty {
            site: SiteId::A,
            file: 0,
            length: 66,
        },
        8,
        b"not empty: site A file 0 length 66\n",
    ),
    (
        Status::NotEmpty {
            site: SiteId::B,
            file: 4294967295,
            length: 18446744073709551615,
        },
        8,
        b"not empty: site B file 4294967295 length 18446744073709551615\n",
    ),
];

#[test]
fn statuses_end_so(rt: HostRuntime) -> Result<(), Fail> {
    for (status, number, line) in STATUSES {
        let mut out = SteadySink::new(rt.alloc());
        print_status(rt.alloc(), &mut out, status)?;
        assert_eq!(rt; exit_number(status), number, "at {status:?}");
        assert_eq!(rt; out.bytes(), line, "at {status:?}");
    }
    Ok(())
}

// Line 3 is bad in this way, and this line names it.
fn check(rt: &impl Abort, alloc: Global, kind: ScriptKind, line: &[u8]) -> Result<(), Fail> {
    let mut out = SteadySink::new(alloc);
    let status = Status::BadScript { line: 3, kind };
    print_status(alloc, &mut out, status)?;
    assert_eq!(rt; exit_number(status), 3, "at {kind:?}");
    assert_eq!(rt; out.bytes(), line, "at {kind:?}");
    Ok(())
}

#[test]
fn bad_lines_are_named(rt: HostRuntime) -> Result<(), Fail> {
    let alloc = rt.alloc();
    check(
        &rt,
        alloc,
        ScriptKind::Syntax,
        b"bad script: line 3 syntax\n",
    )?;
    check(&rt, alloc, ScriptKind::Setup, b"bad script: line 3 setup\n")?;
    let cases: [(Limit, &[u8]); 11] = [
        (Limit::Bytes, b"bad script: line 3 limit Bytes\n"),
        (Limit::Lines, b"bad script: line 3 limit Lines\n"),
        (Limit::Tables, b"bad script: line 3 limit Tables\n"),
        (Limit::Columns, b"bad script: line 3 limit Columns\n"),
        (Limit::RowBytes, b"bad script: line 3 limit RowBytes\n"),
        (Limit::Groups, b"bad script: line 3 limit Groups\n"),
        (Limit::Replicas, b"bad script: line 3 limit Replicas\n"),
        (Limit::LogLimit, b"bad script: line 3 limit LogLimit\n"),
        (Limit::TxChanges, b"bad script: line 3 limit TxChanges\n"),
        (Limit::Changes, b"bad script: line 3 limit Changes\n"),
        (Limit::Work, b"bad script: line 3 limit Work\n"),
    ];
    for (limit, line) in cases {
        check(&rt, alloc, ScriptKind::Limit(limit), line)?;
    }
    Ok(())
}

#[test]
fn a_failing_sink_gets_nothing(rt: HostRuntime) -> Result<(), Fail> {
    let alloc = rt.alloc();
    let failing = Numbers::from_vec(vec![in alloc; 0u64]?);
    let mut out = MemorySink::new(alloc, failing);
    assert_eq!(rt;
        print_status(alloc, &mut out, Status::ReadFault),
        Err(OutFault::Failed)
    );
    assert_eq!(rt; out.bytes().len(), 0);
    Ok(())
}
