//! What the check of the guide refuses for its size.
use super::files::expect_node;
use std::alloc::{AllocError, Global};
use std::test::Fail;

/// Loops nested so deep, each with a first segment of its own.
fn nested(alloc: Global, depth: u8) -> Result<String, AllocError> {
    let mut nodes = String::new(alloc);
    for level in 0..depth {
        let letter = char::from(b'A' + level % 26);
        nodes = format!(in alloc;
            "{{loop=\"L\",min=0,max=9,nodes=[{{seg=\"A{letter}\",min=1,max=1,elements=[]}},{nodes}]}}"
        )?;
    }
    Ok(nodes)
}

/// This many segments, each with an id of its own.
fn many(alloc: Global, count: u32) -> Result<String, AllocError> {
    let mut nodes = String::new(alloc);
    for i in 0..count {
        nodes.push_str("{seg=\"")?;
        nodes.push(char::from(b'A' + (i / 676 % 26) as u8))?;
        nodes.push(char::from(b'A' + (i / 26 % 26) as u8))?;
        nodes.push(char::from(b'A' + (i % 26) as u8))?;
        nodes.push_str("\",min=0,max=1,elements=[]},")?;
    }
    Ok(nodes)
}

fn expect_nested(alloc: Global, depth: u8, wanted: &str) -> Result<(), Fail> {
    let nodes = nested(alloc, depth)?;
    expect_node(alloc, nodes.as_str(), wanted)
}

fn expect_each(alloc: Global, cases: &[(u8, &str)]) -> Result<(), Fail> {
    for (depth, wanted) in cases {
        expect_nested(alloc, *depth, wanted)?;
    }
    Ok(())
}

fn expect_many(alloc: Global, count: u32, wanted: &str) -> Result<(), Fail> {
    let nodes = many(alloc, count)?;
    expect_node(alloc, nodes.as_str(), wanted)
}

/// How deep loops are nested, and the fault.
const NESTED: &[(u8, &str)] = &[(8, "None"), (9, "Guide(TooDeep)")];

#[test]
fn limits(rt: HostRuntime) -> Result<(), Fail> {
    expect_each(rt.alloc(), NESTED)?;
    expect_many(rt.alloc(), 2_001, "Guide(TooMany)")
}
