// Pairs of a node and its state, looked up from the end.
ghost use Rattle.std.specs.Prelude.{◌≡◌, ◌<◌, length, None, Some, IfSome, MatchOption};
ghost use Rattle.std.specs.Vec.{vec_capacity};
ghost use Rattle.wm_kept.specs.Pairs.{state_in, place_in, without};

/// Where the pair of the node stands.
#[tactic(auto, using(crate::proofs::Parts::place_in_push))]
fn place_of<D>(entries: &[(u32, D)], node: u32) -> Option<usize>
    ensures place { result ≡ place_in node entries.now }
    ensures inside { IfSome result (λ place. place < length entries.now) }
{
    match entries.split_last() {
        None => None,
        Some((last, rest)) => {
            if last.0 == node {
                Some(rest.len())
            } else {
                place_of(rest, node)
            }
        }
    }
}

/// The state of the node.
#[tactic(auto, using(crate::proofs::Parts::state_in_push))]
pub(crate) fn find<D>(entries: &[(u32, D)], node: u32) -> Option<&D>
    ensures { MatchOption result (state_in node entries.now ≡ None) (λ state. state_in node entries.now ≡ Some state.now) }
{
    match entries.split_last() {
        None => None,
        Some((last, rest)) => {
            if last.0 == node {
                Some(&last.1)
            } else {
                find(rest, node)
            }
        }
    }
}

/// Takes the pair of the node out. The room stays.
#[tactic(auto, unfolding(crate::specs::Pairs::without))]
pub(crate) fn take_out<D: Drop>(entries: &mut Vec<(u32, D)>, node: u32)
    ensures pairs { entries.new.items ≡ without node entries.old.items }
    ensures capacity { vec_capacity entries.new ≡ vec_capacity entries.old }
{
    match place_of(entries.as_slice(), node) {
        None => {}
        Some(place) => {
            entries.remove(place);
        }
    }
}
