// A path, with the paths through its loops.
use sqlite_items::Items;
use wm_ops::List;

/// The path of a turn of a loop.
#[derive(Drop)]
pub struct Body<C> {
    /// The number of the loop's head.
    pub head: u32,
    /// How many turns the loop makes.
    pub turns: u64,
    pub choice: C,
}

/// A path from a node to an end, without back edges.
#[derive(Drop)]
pub struct Choice {
    /// The numbers of its edges.
    pub edges: List<u32>,
    /// For each head of a loop to which it comes the path of a turn, where there is one; in the order in which it comes to them.
    pub bodies: Items<Body<Choice>>,
}
