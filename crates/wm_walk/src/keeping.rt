// Labels that are kept.
ghost use Rattle.std.specs.Prelude.{◌≡◌, ◌<◌, ◌++◌, ◌∷◌, [], All, OnOk};
ghost use Rattle.wm_kept.specs.Pairs.{state_in};
ghost use Rattle.wm_walk.specs.Keeping.{without_all};

use wm_kept::Kept;
use wm_ops::NoMemory;

/// Keeps the label of a node behind all those that are kept. `NoMemory`: there is no room for it, which there is where the room
/// is that of the graph.
#[tactic(auto, using(crate::proofs::Pairs::not_there))]
pub fn keep<D: Drop>(kept: &mut Kept<D>, node: u32, label: D) -> Result<(), NoMemory>
    requires before { All (λ e. e.0 < node) kept.old.1 }
    ensures kept { OnOk result (kept.new.1 ≡ kept.old.1 ++ (node, label) ∷ []) }
{
    if kept.is_full() {
        return Err(NoMemory);
    }
    kept.put(node, label);
    Ok(())
}

/// Gives up the labels of these nodes.
pub fn give_up_all<D: Drop>(kept: &mut Kept<D>, nodes: &[u32])
    ensures given_up { kept.new.1 ≡ without_all nodes.now kept.old.1 }
{
    for node in nodes {
        kept.give_up(*node);
    }
}
