//! Guide files that are refused, and some that are read.
use super::texts::same;
use guide_toml::{GuideFileFault, read_guide};
use std::alloc::{AllocError, Global};
use std::test::Fail;

const HEAD: &str = "name=\"G\"\ngroup=\"PO\"\nset=\"850\"\nversion=\"005010\"\n";

/// The fault of a file; `None` where it is read.
pub fn fault_of(alloc: Global, file: &[u8]) -> Option<GuideFileFault> {
    match read_guide(alloc, file) {
        Ok(_) => None,
        Err(fault) => Some(fault),
    }
}

/// How a fault is written; `None` where there is none.
fn written(alloc: Global, fault: &Option<GuideFileFault>) -> Result<String, AllocError> {
    match fault {
        None => String::from_str(alloc, "None"),
        Some(fault) => format!(in alloc; "{fault:?}"),
    }
}

/// Whether it is the fault that is written so; if not, it is shown after what it is about.
pub fn expect(
    alloc: Global,
    of: &[u8],
    fault: &Option<GuideFileFault>,
    wanted: &str,
) -> Result<(), Fail> {
    let found = written(alloc, fault)?;
    same(alloc, of, found.as_bytes(), wanted.as_bytes())
}

/// The fault of a file with these nodes.
fn node_fault(alloc: Global, nodes: &str) -> Result<Option<GuideFileFault>, AllocError> {
    let file = format!(in alloc; "{HEAD}nodes=[{nodes}]\n")?;
    Ok(fault_of(alloc, file.as_bytes()))
}

/// The fault of a file of one segment with this row.
fn row_fault(alloc: Global, row: &str) -> Result<Option<GuideFileFault>, AllocError> {
    let node = format!(in alloc; "{{seg=\"REF\",min=0,max=1,elements=[\"{row}\"]}}")?;
    node_fault(alloc, node.as_str())
}

/// The number of a refusal; 0 where there is none.
fn number_of(fault: &Option<GuideFileFault>) -> u32 {
    match fault {
        None => 0,
        Some(fault) => fault.number(),
    }
}

/// Files, the fault of each and its number.
const FILES: &[(&[u8], &str, u32)] = &[
    (b"zeta=1\nalpha=1\n", "Unknown(\"alpha\", 0)", 4),
    (b"name=7\n", "WrongKind(\"name\", 0)", 3),
    (b"name=\n", "NotToml", 1),
    (&[], "Missing(\"name\", 0)", 2),
    (&[0xff], "NotToml", 1),
];

fn expect_file(alloc: Global, case: &(&[u8], &str, u32)) -> Result<(), Fail> {
    let (file, wanted, number) = *case;
    let fault = fault_of(alloc, file);
    if number_of(&fault) != number {
        return Err("another number".into());
    }
    expect(alloc, file, &fault, wanted)
}

fn expect_files(alloc: Global, cases: &[(&[u8], &str, u32)]) -> Result<(), Fail> {
    for case in cases {
        expect_file(alloc, case)?;
    }
    Ok(())
}

#[test]
fn first_faults(rt: HostRuntime) -> Result<(), Fail> {
    expect_files(rt.alloc(), FILES)
}

/// Nodes of a file, and the fault of each.
const NODES: &[[&str; 2]] = &[
    ["", "None"],
    ["1", "WrongKind(\"nodes\", 0)"],
    ["{}", "WrongKind(\"seg\", 1)"],
    ["{seg=\"REF\",loop=\"REF\",z=1}", "Unknown(\"z\", 1)"],
    ["{seg=\"REF\",min=0}", "Missing(\"max\", 1)"],
    ["{loop=\"L\",min=0,nodes=[{}]}", "Missing(\"max\", 1)"],
    // the node's number counts loops, and what is in them after each
    [
        "{seg=\"BEG\",min=1,max=1,elements=[]},{seg=\"REF\",min=0,elements=[]}",
        "Missing(\"max\", 2)",
    ],
    [
        "{loop=\"L\",min=0,max=9,nodes=[{seg=\"N1\",min=1,max=1}]}",
        "Missing(\"elements\", 2)",
    ],
    [
        "{loop=\"L\",min=0,max=9,nodes=[{seg=\"N1\",min=1,max=1,elements=[]}]},{seg=\"REF\",min=0,max=1,elements=1}",
        "WrongKind(\"elements\", 3)",
    ],
    [
        "{loop=\"L\",min=0,max=9,nodes=[{loop=\"K\",min=0,max=9,nodes=[]},{seg=\"N1\",min=1,max=1,elements=[],zeta=1}]}",
        "Unknown(\"zeta\", 3)",
    ],
    [
        "{loop=\"L\",min=0,max=9,nodes=[{seg=\"N1\",min=1,max=1,elements=[]},7]}",
        "WrongKind(\"nodes\", 1)",
    ],
    [
        "{seg=\"REF\",min=2,max=1,elements=[]}",
        "Guide(BadBounds(1))",
    ],
    [
        "{seg=\"REF\",min=0,max=1,elements=[\"1 M AN 1 1\",\"2 O AN 1 1\"],conditions=[\"R02\"]}",
        "Guide(BadCondition(1))",
    ],
    [
        "{seg=\"REF\",min=0,max=1,elements=[]},{seg=\"REF\",min=0,max=1,elements=[]}",
        "Guide(Ambiguous(1, 2))",
    ],
    [
        "{seg=\"BEG\",min=1,max=1,elements=[]},{loop=\"L\",min=0,max=9,nodes=[{seg=\"N1\",min=1,max=2,elements=[]}]}",
        "Guide(BadTrigger(2))",
    ],
];

pub fn expect_node(alloc: Global, nodes: &str, wanted: &str) -> Result<(), Fail> {
    let fault = node_fault(alloc, nodes)?;
    expect(alloc, nodes.as_bytes(), &fault, wanted)
}

fn expect_nodes(alloc: Global, cases: &[[&str; 2]]) -> Result<(), Fail> {
    for [nodes, wanted] in cases {
        expect_node(alloc, nodes, wanted)?;
    }
    Ok(())
}

#[test]
fn first_faults_of_nodes(rt: HostRuntime) -> Result<(), Fail> {
    expect_nodes(rt.alloc(), NODES)
}

const MALFORMED: &str = "WrongKind(\"elements\", 1)";

const OUT_OF_BOUNDS: &str = "Guide(BadBounds(1))";

/// Element rows, and the fault of each.
const ROWS: &[[&str; 2]] = &[
    ["353 M ID 2 2", "None"],
    ["- O N2 1 9 x3", "None"],
    ["128 N", "None"],
    ["1 O AN 1 30 wide = A B ! C", "None"],
    ["40 O C x2 ; 1 M AN 1 2 ; 2 N", "None"],
    ["40 O C", "None"],
    ["1 M R 01 0004", "None"],
    ["", MALFORMED],
    ["353", MALFORMED],
    ["353 M", MALFORMED],
    ["353  M ID 2 2", MALFORMED],
    ["353 M ID 2 2 ! A", MALFORMED],
    ["353 M ID 2 2 = A ;", MALFORMED],
    ["12345 M ID 2 2", MALFORMED],
    ["353 M NA 2 2", MALFORMED],
    ["353 M ID 2 4294967296", MALFORMED],
    ["353 N ; 1 N", MALFORMED],
    ["40 O C ; 1 M AN 1 2 x2", MALFORMED],
    ["353 M ID 2 2 wide x2", MALFORMED],
    ["353 M ID 2 2 =", OUT_OF_BOUNDS],
    ["353 M ID 2 2 = A !", OUT_OF_BOUNDS],
    ["353 M ID 0 2", OUT_OF_BOUNDS],
    ["353 M ID 3 2", OUT_OF_BOUNDS],
    ["353 M ID 1 2 x0", OUT_OF_BOUNDS],
];

fn expect_row(alloc: Global, row: &str, wanted: &str) -> Result<(), Fail> {
    let fault = row_fault(alloc, row)?;
    expect(alloc, row.as_bytes(), &fault, wanted)
}

fn expect_rows(alloc: Global, cases: &[[&str; 2]]) -> Result<(), Fail> {
    for [row, wanted] in cases {
        expect_row(alloc, row, wanted)?;
    }
    Ok(())
}

#[test]
fn element_rows(rt: HostRuntime) -> Result<(), Fail> {
    expect_rows(rt.alloc(), ROWS)
}
