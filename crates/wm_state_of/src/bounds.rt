// The lines of variables and of pairs.
ghost use Rattle.std.specs.Prelude.{◌≡◌, ◌≤◌, ◌<◌, ◌^◌, OnOk, length};
ghost use Rattle.wm_domain.specs.States.{count_of};
ghost use Rattle.wm_state_of.specs.Cuts.{Cut};
ghost use Rattle.wm_state_of.specs.Meeting.{BoundsMet, PairsMet};

use crate::cuts::{keep_pair, keep_variable};
use std::alloc::Global;
use wm_cert_text::{Ends, Pair};
use wm_domain::Domain;
use wm_ops::NoMemory;

/// Keeps the points at which the first variables lie between their ends.
pub fn keep_bounds<D: Domain>(alloc: Global, state: &mut D, bounds: &[Ends]) -> Result<(), NoMemory>
    requires narrow { length bounds.now < 2 ^ 32 }
    requires inside { length bounds.now ≤ count_of (D.shape_of state.old) }
    ensures shape { OnOk result (D.shape_of state.new ≡ D.shape_of state.old) }
    ensures cut { OnOk result (Cut (D.holds state.old) (D.holds state.new) (BoundsMet 0 bounds.now)) }
{
    let mut v: u32 = 0;
    for ends in bounds {
        keep_variable(alloc, state, v, *ends)?;
        v += 1;
    }
    Ok(())
}

/// Keeps the points at which the pairs lie between their ends.
pub fn keep_pairs<D: Domain>(
    alloc: Global,
    state: &mut D,
    group: usize,
    pairs: &[Pair],
) -> Result<(), NoMemory>
    requires group { group ≡ length (D.shape_of state.old).group }
    ensures shape { OnOk result (D.shape_of state.new ≡ D.shape_of state.old) }
    ensures cut { OnOk result (Cut (D.holds state.old) (D.holds state.new) (PairsMet pairs.now)) }
{
    for pair in pairs {
        keep_pair(alloc, state, group, *pair)?;
    }
    Ok(())
}
