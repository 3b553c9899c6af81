// From where the variables and arrays of a node come, one list behind another.
ghost use Rattle.std.specs.Prelude.{◌≡◌, ◌++◌, ◌+◌, ◌∷◌, [], Some, OnOk, IfOk};
ghost use Rattle.wm_flow.specs.Calls as calls;
ghost use Rattle.wm_flow.specs.Places as places;

use wm_flow::Counts;
use wm_ops::{List, NoMemory};
use wm_places::{other_states, plus};

/// Places one after another.
#[tactic(auto, using(crate::proofs::Places::places_step))]
pub(crate) fn push_places(
    picks: &mut List<Option<u32>>,
    first: u32,
    count: u32,
) -> Result<(), NoMemory>
    ensures { OnOk result (picks.new ≡ picks.old ++ calls.places_from first count) }
{
    for k in 0..count {
        let place = plus(first, k)?;
        picks.push(Some(place))?;
    }
    Ok(())
}

/// Variables or arrays that come from nowhere.
#[tactic(auto, using(crate::proofs::Places::none_step))]
pub(crate) fn push_none(picks: &mut List<Option<u32>>, count: u32) -> Result<(), NoMemory>
    ensures { OnOk result (picks.new ≡ picks.old ++ calls.none_for count) }
{
    for k in 0..count {
        picks.push(None)?;
    }
    Ok(())
}

/// One place.
pub(crate) fn push_place(picks: &mut List<Option<u32>>, place: u32) -> Result<(), NoMemory>
    ensures { OnOk result (picks.new ≡ picks.old ++ Some place ∷ []) }
{
    picks.push(Some(place))
}

/// How many singles of static storage a node of an instance has: the state scalars that are no part of the group, the
/// inputs and `Overflow`.
pub(crate) fn static_count(counts: Counts) -> Result<u32, NoMemory>
    ensures { IfOk result (λ count. count ≡ places.other_states counts + counts.inputs + 1) }
{
    let both = plus(other_states(counts), counts.inputs)?;
    plus(both, 1)
}

/// The singles of static storage, from a node whose group has this size.
pub(crate) fn push_statics(
    picks: &mut List<Option<u32>>,
    counts: Counts,
    size: u32,
) -> Result<(), NoMemory>
    ensures { OnOk result (picks.new ≡ picks.old ++ calls.static_singles counts size) }
{
    let count = static_count(counts)?;
    push_places(picks, size, count)
}
