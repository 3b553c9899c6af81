// A graph of five nodes with a return and a back edge, and the worked widths.
use std::alloc::Global;
use std::test::Fail;
use wm_flow::{Action, Edge, Graph, Head};
use wm_ops::{List, NoMemory};
use wm_uses::{last_uses, width};

/// A return, where there is a call's node, and else an edge without effect.
fn action(alloc: Global, call: Option<u32>) -> Action {
    match call {
        Some(call) => Action::Leave {
            call,
            from_call: List::new(alloc),
            from_exit: List::new(alloc),
            arrays: List::new(alloc),
            result: None,
        },
        None => Action::Clear {
            variables: List::new(alloc),
        },
    }
}

/// A graph of so many nodes, with these edges and the call of each that is a return, and the number of a back edge.
fn graph(
    alloc: Global,
    nodes: u32,
    edges: &[(u32, u32, Option<u32>)],
    back: u32,
) -> Result<Graph, NoMemory> {
    let mut graph = Graph {
        shapes: List::new(alloc),
        node_shape: List::new(alloc),
        node_instance: List::new(alloc),
        edges: List::new(alloc),
        heads: List::new(alloc),
        sums: List::new(alloc),
    };
    for _ in 0..nodes {
        graph.node_shape.push(0)?;
    }
    for (source, target, call) in edges {
        graph.edges.push(Edge {
            source: *source,
            target: *target,
            action: action(alloc, *call),
            site: None,
        })?;
    }
    graph.heads.push(Head {
        node: 1,
        instance: None,
        loop_id: None,
        entry: 0,
        back,
    })?;
    Ok(graph)
}

#[test]
fn a_return_and_a_back_edge(rt: HostRuntime) -> Result<(), Fail> {
    let alloc = rt.alloc();
    let edges = [
        (0, 1, None),
        (1, 2, None),
        (1, 4, None),
        (2, 3, Some(0)),
        (3, 1, None),
    ];
    let graph = graph(alloc, 5, &edges, 4)?;
    assert_eq!(rt;
        last_uses(alloc, &graph)?.as_slice(),
        [3, 4, 3, 4, 4].as_slice()
    );
    Ok(())
}

#[test]
fn worked_widths(rt: HostRuntime) {
    assert_eq!(rt; width(&[1, 1, 2]), 2);
    assert_eq!(rt; width(&[2, 2, 2]), 3);
    assert_eq!(rt; width(&[]), 0);
    assert_eq!(rt; width(&[3, 4, 3, 4, 4]), 4);
}
