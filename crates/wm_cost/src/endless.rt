// The first loop that has a live head and no bound on its turns.
ghost use Rattle.std.specs.Prelude.{◌≡◌, None};
ghost use Rattle.wm_cost.specs.Endless.{lesser, without_turns, endless_at, endless_from};

use crate::turnings::turns_at;
use crate::weighing::mark_at;
use wm_flow::Head;

fn lesser(a: Option<u32>, b: Option<u32>) -> Option<u32>
    ensures { result ≡ lesser a b }
{
    match a {
        None => b,
        Some(here) => match b {
            None => Some(here),
            Some(there) => Some(here.min(there)),
        },
    }
}

fn without_turns(loop_id: Option<u32>, turns: Option<u64>) -> Option<u32>
    ensures { result ≡ without_turns loop_id turns }
{
    match turns {
        None => loop_id,
        Some(_turns) => None,
    }
}

#[tactic(auto, unfolding(crate::specs::Endless::endless_at))]
fn endless_at(start: u32, live: &[bool], turns: Option<u64>, head: Head) -> Option<u32>
    ensures { result ≡ endless_at start live.now turns head }
{
    if start < head.node {
        if mark_at(live, head.entry as usize) {
            return without_turns(head.loop_id, turns);
        }
    }
    None
}

/// The least number of a loop with a live head behind the frame head and no bound on its turns.
pub fn first_endless(
    start: u32,
    turns: &[Option<u64>],
    live: &[bool],
    heads: &[Head],
) -> Option<u32>
    ensures { result ≡ endless_from start turns.now live.now 0 heads.now None }
{
    let mut found = None;
    for number in 0..heads.len() {
        found = lesser(
            found,
            endless_at(start, live, turns_at(turns, number), heads[number]),
        );
    }
    found
}
