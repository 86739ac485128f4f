// Runs the small rule files of both documents, and byte strings at the limits of size: NAME.image has the report NAME.report. The
// rule files are those of crates/starred, whose definitions give the same bytes and the same lines.
#![tactic(auto)]

use std::rt::Files;
use std::{fs, io};

// One byte more than any image has.
const TOO_MANY: usize = 61457;

// No report of data/ has more bytes.
const MOST_REPORT_BYTES: usize = 65536;

// What is reported, and the two files: their names as they stand, since a name put together takes heap.
struct Case {
    name: &'static str,
    image: &'static str,
    report: &'static str,
}

// The rule files.
const RULES: &[Case] = &[
    // ★A: `if x = x`
    Case {
        name: "if_equal",
        image: "if_equal.image",
        report: "if_equal.report",
    },
    // ★Module alone
    Case {
        name: "module_alone",
        image: "module_alone.image",
        report: "module_alone.report",
    },
    // ★Const c, `if c = c`
    Case {
        name: "const_equal",
        image: "const_equal.image",
        report: "const_equal.report",
    },
    // ★Const c, `if c : T; if c = x; then x = c`
    Case {
        name: "shadowed",
        image: "shadowed.image",
        report: "shadowed.report",
    },
    // ★`then x := f(x)!`
    Case {
        name: "defined_then",
        image: "defined_then.image",
        report: "defined_then.report",
    },
    // ★Branch of two blocks `if x = x`
    Case {
        name: "branches",
        image: "branches.image",
        report: "branches.report",
    },
    // ★The same after `if x = x`
    Case {
        name: "branches_after",
        image: "branches_after.image",
        report: "branches_after.report",
    },
    // ★Enum E with constructor E
    Case {
        name: "enum_twice",
        image: "enum_twice.image",
        report: "enum_twice.report",
    },
    // ★Model list with pred p under an outer p
    Case {
        name: "model_list",
        image: "model_list.image",
        report: "model_list.report",
    },
    // ★One pred with two arguments named a
    Case {
        name: "repeated_args",
        image: "repeated_args.image",
        report: "repeated_args.report",
    },
    // ★One pred with the arguments a, b, a
    Case {
        name: "apart_args",
        image: "apart_args.image",
        report: "apart_args.report",
    },
    // ★Match case of constructor Foo on (x, x)
    Case {
        name: "match_case",
        image: "match_case.image",
        report: "match_case.report",
    },
    // `then p(dom x)`, x new
    Case {
        name: "dom_term",
        image: "dom_term.image",
        report: "dom_term.report",
    },
];

// The byte strings at the limits of size.
const SIZES: &[Case] = &[
    // four sizes alone, N = 2,048: passes 2
    Case {
        name: "nodes_2048",
        image: "nodes_2048.image",
        report: "nodes_2048.report",
    },
    // N = 2,049: 2
    Case {
        name: "nodes_2049",
        image: "nodes_2049.image",
        report: "nodes_2049.report",
    },
    // 15 bytes: 1
    Case {
        name: "fifteen",
        image: "fifteen.image",
        report: "fifteen.report",
    },
    // no byte: 1
    Case {
        name: "empty",
        image: "empty.image",
        report: "empty.report",
    },
    // every size at its limit, 61,456 bytes, the rest 0
    Case {
        name: "longest",
        image: "longest.image",
        report: "longest.report",
    },
    // the same and more, 70,000 bytes
    Case {
        name: "longer",
        image: "longer.image",
        report: "longer.report",
    },
    // a whole image of 2,048 nodes
    Case {
        name: "full",
        image: "full.image",
        report: "full.report",
    },
];

// Whether the report of the image is what the other file holds. No, where one of the two cannot be opened; a read that fails ends the
// file. In fixed memory, as no heap is asked for: the sizes stand beside it.
fn is_reported<R: Files>(files: &R, case: &Case) -> bool {
    let Ok(mut given) = fs::open(files, case.image) else {
        return false;
    };
    let Ok(mut wanted) = fs::open(files, case.report) else {
        return false;
    };
    let mut bytes = [0u8; TOO_MANY];
    let got = input::read_full(&mut given, &mut bytes);
    let mut expected = [0u8; MOST_REPORT_BYTES];
    let length = input::read_full(&mut wanted, &mut expected);
    let mut out = [0u8; lines::LONGEST];
    let size = lines::report(&bytes[..got], &mut out);
    out[..size] == expected[..length]
}

fn run<R: Files + Print>(rt: &R, cases: &[Case]) -> io::Result<()> {
    for case in cases {
        let name = case.name;
        if is_reported(rt, case) {
            println!(rt; "{name} ok")?;
        } else {
            println!(rt; "{name} DIFFERS")?;
        }
    }
    Ok(())
}

fn main(rt: HostRuntime) -> io::Result<()> {
    run(&rt, RULES)?;
    run(&rt, SIZES)
}
