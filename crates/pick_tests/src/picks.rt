//! What `pick` writes.

use crate::requests::{Request, picked};
use grade_io::Status;
use std::test::Fail;

// Bounds with these parameters.
macro_rules! bounds {
    ($params:literal) => {
        concat!("width 8\nturns 8\ndepth 2\ncap 4\nentry f\n", $params)
    };
}

const SAME: &str = "def f(x):\n    return x\n";

const POSITIVE: &str = "def f(x):\n    return abs(x)\n";

const BUT_THREE: &str = "def f(x):\n    if x == 3:\n        return 0\n    return x\n";

/// It ends by a fault below 0.
const SOON_FAULTY: &str = concat!(
    "def f(x):\n    if x < 0:\n        return 6 // ((x - 69) // 70)\n",
    "    return 6 // (x // 70)\n"
);

const SOMETIMES_ZERO: &str = concat!(
    "def f(v, b):\n    if b and len(v) == 2 and v[0] == 1:\n",
    "        return 0\n    return len(v)\n"
);

/// Each with its status and with what is written.
const PICKS: [(Request<'_>, Status, &str); 17] = [
    // A case for each of two faults, and one that agrees.
    (
        Request {
            bounds: bounds!("param x int -5..5\n"),
            reference: SAME,
            submissions: &[SAME, POSITIVE, BUT_THREE],
        },
        Status::Correct,
        "input f(-5)\ninput f(3)\ns1.py agrees\ns2.py fails input 1\ns3.py fails input 2\n",
    ),
    // A program that fails on a case there is adds none, although it fails on an earlier input.
    (
        Request {
            bounds: bounds!("param x int -5..5\n"),
            reference: SAME,
            submissions: &[
                BUT_THREE,
                "def f(x):\n    if x < 4:\n        return 9\n    return x\n",
            ],
        },
        Status::Correct,
        "input f(3)\ns1.py fails input 1\ns2.py fails input 1\n",
    ),
    // More than 4,000,000,000 inputs.
    (
        Request {
            bounds: "width 6\nturns 4\ndepth 2\ncap 8\nentry f\nparam v list 0..8 of -8..7\n",
            reference: "def f(v):\n    return 1\n",
            submissions: &["def f(v):\n    return 1\n"],
        },
        Status::Refused,
        "refused ref.py line 1: TooLarge\n",
    ),
    // More than are counted.
    (
        Request {
            bounds: "width 6\nturns 4\ndepth 2\ncap 16\nentry f\nparam v list 0..16 of -8..7\n",
            reference: "def f(v):\n    return 1\n",
            submissions: &["def f(v):\n    return 1\n"],
        },
        Status::Refused,
        "refused ref.py line 1: TooLarge\n",
    ),
    // One input, with a parameter and without one.
    (
        Request {
            bounds: bounds!("param x int 4..4\n"),
            reference: SAME,
            submissions: &[POSITIVE, "def f(x):\n    return 5\n"],
        },
        Status::Correct,
        "input f(4)\ns1.py agrees\ns2.py fails input 1\n",
    ),
    (
        Request {
            bounds: bounds!(""),
            reference: "def f():\n    return 1\n",
            submissions: &["def f():\n    return 2\n", "def f():\n    return 1\n"],
        },
        Status::Correct,
        "input f()\ns1.py fails input 1\ns2.py agrees\n",
    ),
    // The last input of 63, of 64 and of 65, and beside it one that isn't an input.
    (
        Request {
            bounds: bounds!("param x int 0..62\n"),
            reference: SAME,
            submissions: &[
                "def f(x):\n    if x == 62:\n        return 0\n    return x\n",
                "def f(x):\n    if x > 62:\n        return 0\n    return x\n",
            ],
        },
        Status::Correct,
        "input f(62)\ns1.py fails input 1\ns2.py agrees\n",
    ),
    (
        Request {
            bounds: bounds!("param x int 0..63\n"),
            reference: SAME,
            submissions: &[
                "def f(x):\n    if x == 63:\n        return 0\n    return x\n",
                "def f(x):\n    if x > 63:\n        return 0\n    return x\n",
            ],
        },
        Status::Correct,
        "input f(63)\ns1.py fails input 1\ns2.py agrees\n",
    ),
    (
        Request {
            bounds: bounds!("param x int 0..64\n"),
            reference: SAME,
            submissions: &[
                "def f(x):\n    if x == 64:\n        return 0\n    return x\n",
                "def f(x):\n    if x > 64:\n        return 0\n    return x\n",
                "def f(x):\n    if x == 63:\n        return 0\n    return x\n",
            ],
        },
        Status::Correct,
        "input f(64)\ninput f(63)\ns1.py fails input 1\ns2.py agrees\ns3.py fails input 2\n",
    ),
    // Where the reference ends by a fault nothing is wanted; where the program does, it fails.
    (
        Request {
            bounds: bounds!("param x int -70..70\n"),
            reference: "def f(x):\n    return 6 // (x // 70)\n",
            submissions: &[
                "def f(x):\n    return 6\n",
                SOON_FAULTY,
                "def f(x):\n    if x > 69:\n        return 6 // 0\n    return 6 // (x // 70)\n",
            ],
        },
        Status::Correct,
        "input f(-70)\ninput f(70)\ns1.py fails input 1\ns2.py fails input 1\ns3.py fails input 2\n",
    ),
    // The reference ends on one input alone.
    (
        Request {
            bounds: bounds!("param x int 0..99\n"),
            reference: "def f(x):\n    return 1 // (x // 99)\n",
            submissions: &["def f(x):\n    return 1\n", "def f(x):\n    return x\n"],
        },
        Status::Correct,
        "input f(99)\ns1.py agrees\ns2.py fails input 1\n",
    ),
    // It ends on none.
    (
        Request {
            bounds: bounds!("param x int 0..99\n"),
            reference: "def g(x):\n    return x\n\ndef f(x):\n    return g(x) // 0\n",
            submissions: &[SAME],
        },
        Status::Refused,
        "refused ref.py line 4: EmptyReference\n",
    ),
    // Lists by their lengths, and the last parameter fastest.
    (
        Request {
            bounds: bounds!("param v list 0..2 of 0..1\nparam b bool\n"),
            reference: "def f(v, b):\n    return len(v)\n",
            submissions: &[SOMETIMES_ZERO, "def f(v, b):\n    return 0\n"],
        },
        Status::Correct,
        "input f([1, 0], True)\ns1.py fails input 1\ns2.py fails input 1\n",
    ),
    // What is printed is dropped, but a fault of it counts, in a function that is called too.
    (
        Request {
            bounds: bounds!("param x int -5..5\n"),
            reference: SAME,
            submissions: &[
                "def f(x):\n    print([x])\n    return x\n",
                "def f(x):\n    print(6 // x)\n    return x\n",
                "def g(x):\n    print(6 // (x - 3))\n    return x\n\ndef f(x):\n    return g(x)\n",
            ],
        },
        Status::Correct,
        "input f(0)\ninput f(3)\ns1.py agrees\ns2.py fails input 1\ns3.py fails input 2\n",
    ),
    // Refusals in order: of the bounds, of a program, of a result's type.
    (
        Request {
            bounds: "width 8\n",
            reference: "",
            submissions: &[""],
        },
        Status::Refused,
        "refused b.txt line 2: Syntax\n",
    ),
    (
        Request {
            bounds: bounds!("param x int 0..9\n"),
            reference: SAME,
            submissions: &[
                "def f(x):\n    return x == 1\n",
                "def f(x):\n    return y\n",
            ],
        },
        Status::Refused,
        "refused s2.py line 2: Name\n",
    ),
    (
        Request {
            bounds: bounds!("param x int 0..9\n"),
            reference: SAME,
            submissions: &[SAME, "\ndef f(x):\n    return x == 1\n"],
        },
        Status::Refused,
        "refused s2.py line 2: ResultType\n",
    ),
];

#[test]
fn answers_are_written(rt: HostRuntime) -> Result<(), Fail> {
    let alloc = rt.alloc();
    for (request, status, text) in PICKS {
        let (ended, written) = picked(alloc, request, Vec::new(alloc))?;
        assert_eq!(rt; written.as_str(), text);
        assert_eq!(rt; ended, status);
    }
    Ok(())
}
