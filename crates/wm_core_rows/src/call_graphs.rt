// Small graphs of calls, worked by hand.
use std::alloc::Global;
use std::process::Abort;
use std::test::Fail;
use wm_calls::{call_offsets, recursion, tree_sizes};
use wm_lang::{Place, Position};
use wm_ops::List;
use wm_scope::CallPlace;

/// The functions of a graph, of each its callees. The calls are numbered in their order from 0.
fn graph(alloc: Global, rows: &[&[u32]]) -> Result<Vec<List<CallPlace>>, Fail> {
    let mut calls = Vec::new(alloc);
    let mut token = 0usize;
    for row in rows {
        let mut places = List::new(alloc);
        for function in *row {
            let place = Place {
                file: 0,
                line: 1,
                column: 1,
            };
            places.push(CallPlace {
                function: *function,
                at: Position { token, place },
                views: List::new(alloc),
            })?;
            token = token.wrapping_add(1);
        }
        calls.push(places)?;
    }
    Ok(calls)
}

#[test]
fn calls_that_come_back(rt: HostRuntime) -> Result<(), Fail> {
    let alloc = rt.alloc();
    let rows: [(&[&[u32]], Option<usize>); 8] = [
        (&[], None),
        (&[&[1], &[2], &[]], None),
        (&[&[1, 2, 1], &[2, 2], &[]], None),
        (&[&[0]], Some(0)),
        (&[&[1], &[2], &[0]], Some(0)),
        (&[&[1, 1], &[2, 1]], Some(3)),
        (&[&[1, 2], &[], &[0]], Some(1)),
        (&[&[1], &[2], &[3], &[2, 0]], Some(0)),
    ];
    for (row, expected) in rows {
        let calls = graph(alloc, row)?;
        let found = recursion(alloc, calls.as_slice())?;
        assert_eq!(rt; found.map(|at| at.token), expected);
    }
    Ok(())
}

#[test]
fn sizes_and_offsets(rt: HostRuntime) -> Result<(), Fail> {
    let alloc = rt.alloc();
    let calls = graph(alloc, &[&[1, 2, 1], &[2, 2], &[]])?;
    let sizes = tree_sizes(alloc, calls.as_slice())?;
    assert_eq!(rt; sizes.as_slice(), [8, 3, 1].as_slice());
    let offsets = call_offsets(alloc, sizes.as_slice(), calls.as_slice())?;
    let rows: [&[u32]; 3] = [[1, 4, 5].as_slice(), [1, 2].as_slice(), [].as_slice()];
    for (found, expected) in offsets.items().iter().zip(rows) {
        assert_eq!(rt; found.items(), expected);
    }
    Ok(())
}

/// A chain of 1,000 functions, each of which calls the next one twice, is told at once.
#[test]
fn a_tree_that_explodes(rt: HostRuntime) -> Result<(), Fail> {
    let alloc = rt.alloc();
    let mut calls = Vec::new(alloc);
    for function in 1..1000u32 {
        let next: [u32; 2] = [function, function];
        let rows: [&[u32]; 1] = [&next];
        let mut one = graph(alloc, &rows)?;
        if let Some(places) = one.pop() {
            calls.push(places)?;
        }
    }
    calls.push(List::new(alloc))?;
    let found = recursion(alloc, calls.as_slice())?;
    assert!(rt; found.is_none());
    let sizes = tree_sizes(alloc, calls.as_slice())?;
    assert_eq!(rt; sizes.len(), 1000);
    assert_eq!(rt; sizes[0], 4294967295);
    assert_eq!(rt; sizes[998], 3);
    assert_eq!(rt; sizes[999], 1);
    Ok(())
}
