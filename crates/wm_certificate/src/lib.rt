//! A certificate: what is claimed of the numbers at each head of a graph, as a state for each.
#![tactic(auto)]

use wm_ops::List;

/// One state for each head of a graph, in the order of its heads.
#[derive(Drop)]
pub struct Certificate<D> {
    pub heads: List<D>,
}
