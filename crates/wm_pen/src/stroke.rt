// What a pen records.
use wm_flow::Action;

/// A stroke of the drawing of a graph.
#[derive(Drop)]
pub enum Stroke {
    /// The next node: by what its shape is numbered, its instance, its counters of both kinds and its temporaries.
    Point {
        context: u32,
        instance: Option<u32>,
        counters: u32,
        temporaries: u32,
    },
    /// The next edge.
    Line {
        source: u32,
        target: u32,
        action: Action,
        site: Option<u32>,
    },
    /// The nodes and edges of an instance, from this node on.
    Part {
        instance: u32,
        start: u32,
    },
    /// The last edge enters a head, at this node.
    Begins {
        head: u32,
        instance: Option<u32>,
        loop_id: Option<u32>,
        node: u32,
    },
    /// The last edge is the back edge of a head.
    Turns {
        head: u32,
    },
}
