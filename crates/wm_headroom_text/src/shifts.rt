// The least shifts.
ghost use Rattle.std.specs.Prelude.{◌≡◌, slice_get, IfOk};
ghost use Rattle.wm_headroom_text.specs.Open.{open_at, AreShifts, Fits, FitEach, IsShift};
ghost use Rattle.wm_headroom_text.specs.Opened.{opened};

use crate::sites::{Open, open_at, three};
use std::alloc::{AllocError, Global};
use wm_findings::Verdict;
use wm_headroom::headroom;
use wm_program::SiteInfo;

/// The least shift of what is open.
fn shift_of(it: Option<Open<'_>>) -> Option<u32>
    requires { Fits (opened it) }
    ensures { IsShift (opened it.entry) result }
{
    match it {
        None => None,
        Some(found) => headroom(found.op, &three(found.boxes)),
    }
}

/// The least shift of what is open at the site of a number.
fn shift_at(sites: &[SiteInfo], verdicts: &[Verdict], k: usize) -> Option<u32>
    requires { FitEach sites.now verdicts.now }
    ensures { IsShift (open_at (slice_get sites.now k) (slice_get verdicts.now k)) result }
{
    shift_of(open_at(sites.get(k), verdicts.get(k)))
}

/// For each site the least shift of what is open there.
pub fn shifts_of(
    alloc: Global,
    sites: &[SiteInfo],
    verdicts: &[Verdict],
) -> Result<Vec<Option<u32>>, AllocError>
    requires { FitEach sites.now verdicts.now }
    ensures { IfOk result (λ shifts. AreShifts sites.now verdicts.now shifts.items) }
{
    let mut shifts = Vec::new(alloc);
    for k in 0..sites.len() {
        let shift = shift_at(sites, verdicts, k);
        shifts.push(shift)?;
    }
    Ok(shifts)
}
