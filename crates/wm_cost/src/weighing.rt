// The edges of a graph as paths see them.
ghost use Rattle.std.specs.Prelude.{◌≡◌, slice_index_or, false, ◌&&◌, nat_lt, IfOk};
ghost use Rattle.wm_cost.specs.Edges.{word_of, word_weight, way_of, ways_from};

use std::alloc::{AllocError, Global};
use wm_flow::{Action, Edge};
use wm_ops::Counted;
use wm_ways::Way;
use wm_weights::Weights;

/// The word that an action counts.
pub fn word_of(action: &Action) -> Option<Counted>
    ensures { result ≡ word_of action.now }
{
    match action {
        Action::Count { word } => Some(*word),
        Action::AssignForm { .. } => None,
        Action::Plain { .. } => None,
        Action::Cast { .. } => None,
        Action::AssignRange { .. } => None,
        Action::SetArray { .. } => None,
        Action::Operate { .. } => None,
        Action::Read { .. } => None,
        Action::Write { .. } => None,
        Action::Clear { .. } => None,
        Action::Keep { .. } => None,
        Action::Test { .. } => None,
        Action::Enter { .. } => None,
        Action::Leave { .. } => None,
        Action::Reset { .. } => None,
        Action::Turn { .. } => None,
        Action::Tie { .. } => None,
        Action::Inputs { .. } => None,
    }
}

fn word_weight(weights: &Weights, word: Option<Counted>) -> u32
    ensures { result ≡ word_weight weights.now word }
{
    match word {
        None => 0,
        Some(word) => match weights.weight(word) {
            None => 0,
            Some(weight) => weight,
        },
    }
}

/// A mark of a list, or false behind its end.
pub fn mark_at(marks: &[bool], place: usize) -> bool
    ensures { result ≡ slice_index_or marks.now place false }
{
    if place < marks.len() {
        return marks[place];
    }
    false
}

/// Whether a path may take the edge.
fn is_open(live: bool, edge: &Edge) -> bool
    ensures { result ≡ (live && nat_lt edge.now.source edge.now.target) }
{
    if live {
        return edge.source < edge.target;
    }
    false
}

#[tactic(auto, unfolding(crate::specs::Edges::way_of))]
fn way_of(weights: &Weights, live: bool, edge: &Edge) -> Way
    ensures { result ≡ way_of weights.now live edge.now }
{
    Way {
        source: edge.source,
        target: edge.target,
        weight: word_weight(weights, word_of(&edge.action)),
        open: is_open(live, edge),
    }
}

/// The edges of a graph as paths see them. `live` has an entry for each edge.
pub fn ways_of(
    alloc: Global,
    weights: &Weights,
    live: &[bool],
    edges: &[Edge],
) -> Result<Vec<Way>, AllocError>
    ensures { IfOk result (λ ways. ways.items ≡ ways_from weights.now live.now 0 edges.now) }
{
    let mut ways = Vec::new(alloc);
    for edge in edges {
        let is_live = mark_at(live, ways.len());
        ways.push(way_of(weights, is_live, edge))?;
    }
    Ok(ways)
}
