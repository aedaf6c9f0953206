//! The commands `sat` and `unsat` over devices in memory.

use formula_commands::{SatWords, UnsatWords, sat, unsat};
use grade_io::{MemShelf, MemSink, Shelf, Status};
use std::alloc::Global;
use std::test::Fail;

/// Each value of two variables breaks one of four clauses.
const FOUR: &str = "p cnf 2 4\n1 2 0\n1 -2 0\n-1 2 0\n-1 -2 0\n";

const FOUR_PROOF: &str = "l 1 0 2 1 0\nl 0 5 4 3 0\nend\n";

/// What a shelf holds, and the calls of the shelf and of the sink that fail (0: none).
#[derive(Clone, Copy)]
struct Setting {
    cnf: &'static str,
    log: &'static str,
    call: u64,
    put: u64,
}

const fn held(cnf: &'static str, log: &'static str) -> Setting {
    Setting {
        cnf,
        log,
        call: 0,
        put: 0,
    }
}

/// The status, what was written by puts of at most eight bytes, and what the log holds then.
#[derive(Drop)]
struct Ended {
    status: Status,
    text: Vec<u8>,
    log: Vec<u8>,
}

fn shelf_of(alloc: Global, setting: Setting) -> Result<MemShelf, Fail> {
    let mut shelf = MemShelf::new(alloc, vec![in alloc; setting.call]?);
    shelf.add("c.cnf", setting.cnf.as_bytes())?;
    shelf.add("log", setting.log.as_bytes())?;
    Ok(shelf)
}

fn end_of(
    alloc: Global,
    status: Status,
    shelf: &mut MemShelf,
    out: &MemSink,
) -> Result<Ended, Fail> {
    let log = shelf.fetch(alloc, "log", 65_536).ok().ok_or("no log")?;
    Ok(Ended {
        status,
        text: out.bytes().to_vec(alloc)?,
        log,
    })
}

fn solved(alloc: Global, setting: Setting, budget: u32) -> Result<Ended, Fail> {
    let mut shelf = shelf_of(alloc, setting)?;
    let mut out = MemSink::new(alloc, 8, vec![in alloc; setting.put]?);
    let words = SatWords {
        cnf: "c.cnf",
        log: "log",
        budget,
    };
    let status = sat(alloc, &words, &mut shelf, &mut out);
    end_of(alloc, status, &mut shelf, &out)
}

fn judged(alloc: Global, setting: Setting) -> Result<Ended, Fail> {
    let mut shelf = shelf_of(alloc, setting)?;
    let mut out = MemSink::new(alloc, 8, vec![in alloc; setting.put]?);
    let words = UnsatWords {
        cnf: "c.cnf",
        log: "log",
    };
    let status = unsat(alloc, &words, &mut shelf, &mut out);
    end_of(alloc, status, &mut shelf, &out)
}

/// Each row: the text of a formula and a budget, the status, what is written, and the log.
#[test]
fn formulas_are_solved(rt: HostRuntime) -> Result<(), Fail> {
    let rows: [(&'static str, u32, Status, &str, &str); 8] = [
        (
            FOUR,
            200_000,
            Status::NoCorrection,
            "unsatisfiable\n",
            FOUR_PROOF,
        ),
        (FOUR, 2, Status::NoCorrection, "unsatisfiable\n", FOUR_PROOF),
        (
            FOUR,
            1,
            Status::Spent,
            "budget spent 1\n",
            "l 1 0 2 1 0\nend\n",
        ),
        (
            "p cnf 2 2\n1 0\n-1 2 0\n",
            10,
            Status::Correct,
            "satisfiable\nv 1 2 0\n",
            "old",
        ),
        ("p cnf 0 0", 1, Status::Correct, "satisfiable\nv 0\n", "old"),
        (
            "p cnf 3 1\n-2 3 -3 0\n",
            1,
            Status::Correct,
            "satisfiable\nv -1 -2 -3 0\n",
            "old",
        ),
        (
            "p cnf 0 1\n0\n",
            1,
            Status::NoCorrection,
            "unsatisfiable\n",
            "l 0 1 0\nend\n",
        ),
        (
            "p cnf 1 1\n2 0\n",
            10,
            Status::Refused,
            "refused c.cnf line 2: Cnf\n",
            "old",
        ),
    ];
    for (cnf, budget, status, text, log) in rows {
        let ended = solved(rt.alloc(), held(cnf, "old"), budget)?;
        assert_eq!(rt; ended.status, status, "at {cnf:?}");
        assert_eq!(rt; ended.text.as_slice(), text.as_bytes(), "at {cnf:?}");
        assert_eq!(rt; ended.log.as_slice(), log.as_bytes(), "at {cnf:?}");
    }
    Ok(())
}

/// Each row: the text of a proof for the four clauses, the status, and what is written.
#[test]
fn proofs_are_judged(rt: HostRuntime) -> Result<(), Fail> {
    let rows: [(&'static str, Status, &str); 8] = [
        (FOUR_PROOF, Status::Correct, "unsatisfiable\n"),
        (
            "l 1 0 1 2 0\nend\n",
            Status::Rejected,
            "rejected WrongClaim\n",
        ),
        ("end\n", Status::Rejected, "rejected WrongClaim\n"),
        (
            "l 2 0 1 0\nend\n",
            Status::Rejected,
            "rejected WrongClaim\n",
        ),
        (
            "l 0 1 0\nend\n",
            Status::Rejected,
            "rejected BadStep step 1\n",
        ),
        (
            "l 1 0 1 2 0\nl 0 5 0\nend\n",
            Status::Rejected,
            "rejected BadStep step 2\n",
        ),
        (
            "l 0 5 0\nend\n",
            Status::Refused,
            "refused log line 1: Proof\n",
        ),
        (
            "l 1 0 1 2 0\n",
            Status::Refused,
            "refused log line 2: Proof\n",
        ),
    ];
    for (log, status, text) in rows {
        let ended = judged(rt.alloc(), held(FOUR, log))?;
        assert_eq!(rt; ended.status, status, "at {log:?}");
        assert_eq!(rt; ended.text.as_slice(), text.as_bytes(), "at {log:?}");
        assert_eq!(rt; ended.log.as_slice(), log.as_bytes(), "at {log:?}");
    }
    let ended = judged(rt.alloc(), held("p cnf 1 1\n1", "no proof"))?;
    assert_eq!(rt; ended.status, Status::Refused);
    assert_eq!(rt;
        ended.text.as_slice(),
        b"refused c.cnf line 3: Cnf\n".as_slice()
    );
    Ok(())
}

/// Each row: the calls of the shelf and of the sink that fail, the status, what is written, and
/// whether the log holds a proof then. The second call of `sat` is the store, of `unsat` a fetch.
#[test]
fn devices_may_fail(rt: HostRuntime) -> Result<(), Fail> {
    let rows: [(u64, u64, Status, &str, bool); 5] = [
        (1, 0, Status::ReadFailed, "", false),
        (2, 0, Status::StoreFailed, "", false),
        (2, 1, Status::StoreFailed, "", false),
        (0, 1, Status::WriteFailed, "", true),
        (0, 2, Status::WriteFailed, "unsatisf", true),
    ];
    for (call, put, status, text, stored) in rows {
        let setting = Setting {
            call,
            put,
            ..held(FOUR, "old")
        };
        let log = if stored { FOUR_PROOF } else { "old" };
        let found = solved(rt.alloc(), setting, 9)?;
        assert_eq!(rt;
            found.status,
            status,
            "with call {call} and put {put} failing"
        );
        assert_eq!(rt; found.text.as_slice(), text.as_bytes());
        assert_eq!(rt; found.log.as_slice(), log.as_bytes());
        let other = judged(
            rt.alloc(),
            Setting {
                log: FOUR_PROOF,
                ..setting
            },
        )?;
        let read = if call > 0 { Status::ReadFailed } else { status };
        assert_eq!(rt;
            other.status,
            read,
            "with call {call} and put {put} failing"
        );
        assert_eq!(rt; other.text.as_slice(), text.as_bytes());
        assert_eq!(rt; other.log.as_slice(), FOUR_PROOF.as_bytes());
    }
    Ok(())
}
