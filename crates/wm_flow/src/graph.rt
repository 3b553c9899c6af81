// The graph of a program: nodes with shapes, edges with actions, and the heads at which a state is kept.
use crate::action::Action;
use wm_domain::Shape;
use wm_ops::List;

/// A sum counter of a head: it is 0 where the loop is entered and grows by `step` with each turn.
#[derive(Clone, Copy, Debug, PartialEq, Eq)]
pub struct Sum {
    /// The number of the head, that of an innermost loop.
    pub head: u32,
    /// The accumulator: a state scalar or a local in the group of the head, and no offset of a view.
    pub variable: u32,
    /// 1 to 2147483647.
    pub step: u32,
}

/// The expanded graph of a program. What is numbered is numbered from 0.
#[derive(Drop)]
pub struct Graph {
    pub shapes: List<Shape>,
    /// The shape of each node.
    pub node_shape: List<u32>,
    /// The instance of each node; none at the frame head, and where a run without init starts.
    pub node_instance: List<Option<u32>>,
    /// The edges by source, and at one source by target. They run to higher nodes, but for the back edge of each head.
    pub edges: List<Edge>,
    /// The frame head, and then the heads of the loops by instance and in each by token.
    pub heads: List<Head>,
    /// The sum counters for which the graph was made.
    pub sums: List<Sum>,
}

/// An edge.
#[derive(Drop)]
pub struct Edge {
    pub source: u32,
    pub target: u32,
    pub action: Action,
    /// The site whose test, operation or read the edge makes.
    pub site: Option<u32>,
}

/// A head: the node before each frame, or the node of a loop before each turn.
#[derive(Clone, Copy, Debug, PartialEq, Eq)]
pub struct Head {
    pub node: u32,
    /// None for the frame head.
    pub instance: Option<u32>,
    /// None for the frame head.
    pub loop_id: Option<u32>,
    /// The number of the edge by which it is entered.
    pub entry: u32,
    /// The number of its back edge.
    pub back: u32,
}

/// What an accepted certificate tells of a graph: one entry per head, edge and node.
#[derive(Drop)]
pub struct Facts {
    /// How many turns the loop of a head makes at most; none at the frame head, where no number bounds them, and where
    /// the head's state has no point.
    pub turns: List<Option<u64>>,
    /// Whether the image along an edge has a point.
    pub live: List<bool>,
    /// Whether a run may stop at a node.
    pub stops: List<bool>,
}

/// A bound on what a frame counts.
#[derive(Clone, Copy, Debug, PartialEq, Eq)]
pub enum Bound {
    /// At most this number, which is at most 10^15.
    At(u64),
    /// This loop, the first such by number, has no bound on its turns.
    NoTrips { loop_id: u32 },
    /// The bound is above 10^15.
    TooLarge,
}
