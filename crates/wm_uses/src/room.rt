// How many states are needed at once.
ghost use Rattle.std.specs.Prelude.{◌≡◌, ◌^◌, ◌<◌, length};
ghost use Rattle.wm_uses.specs.Width.{is_needed, needed_at, widest};

/// Whether a node that is needed until here is needed by this node.
fn is_needed(until: u32, node: u32) -> bool
    ensures { result ≡ is_needed node until }
{
    until >= node
}

/// How many nodes up to this one are needed by it or by one behind it.
#[tactic(auto, unfolding(crate::specs::Width::needed_at))]
fn needed_at(last: &[u32], node: u32) -> u32
    requires is_one { node < length last.now }
    requires few { length last.now < 2 ^ 32 }
    ensures { result ≡ needed_at last.now node }
{
    let end = node as usize + 1;
    let nodes = &last[..end];
    let mut count = 0;
    for until in nodes {
        if is_needed(*until, node) {
            count += 1;
        }
    }
    count
}

/// The greatest number, over all nodes m, of nodes up to m whose last use is m or behind it.
///
/// There are fewer than 2^32 nodes.
pub fn width(last: &[u32]) -> u32
    requires { length last.now < 2 ^ 32 }
    ensures { result ≡ widest last.now (length last.now) }
{
    let count = last.len() as u32;
    let mut most = 0;
    for node in 0..count {
        most = needed_at(last, node).max(most);
    }
    most
}
