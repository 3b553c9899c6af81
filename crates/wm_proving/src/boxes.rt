// Whether the boxes of findings lie in the argument types of their operators.
ghost use Rattle.std.specs.Prelude.{◌≡◌, [], ◌∷◌, IsTrue, Some, slice_get};
ghost use Rattle.std.specs.List.{slice_index_or};
ghost use Rattle.std.specs.Option.{option_copied};
ghost use Rattle.wm_headroom_text.specs.Open.{Fits, FitEach, open_at, open_in, three};
ghost use Rattle.wm_hull.specs.Boxes.{BoxesFit, used_box, zero_box};
ghost use Rattle.wm_ops.specs.Arguments.{FitsAt};

use wm_findings::{Findings, Verdict};
use wm_interval::Interval;
use wm_ops::{Op, Width, arg_width, arity};
use wm_program::{Program, SiteInfo, SiteKind};

/// Whether the number may be the operator's argument k.
fn fits(op: Op, k: usize, z: i64) -> bool
    ensures { IsTrue result → FitsAt op k z }
{
    if k >= arity(op) {
        return true;
    }
    match arg_width(op, k) {
        Width::W16 => -32_768 <= z && z <= 32_767,
        Width::W32 => -2_147_483_648 <= z && z <= 2_147_483_647,
    }
}

/// The box of argument k; where there are fewer, that of 0 alone.
fn box_at(boxes: &[Interval], k: usize) -> Interval
    ensures { result ≡ slice_index_or boxes.now k zero_box }
{
    if k < boxes.len() {
        return boxes[k];
    }
    Interval::new(0, 0)
}

/// Whether three boxes lie in the argument types.
fn are_in_types(op: Op, x: Interval, y: Interval, z: Interval) -> bool
    ensures { IsTrue result → BoxesFit op (used_box op (x ∷ y ∷ z ∷ []) 0) (used_box op (x ∷ y ∷ z ∷ []) 1) (used_box op (x ∷ y ∷ z ∷ []) 2) }
{
    if !fits(op, 0, x.low) {
        return false;
    }
    if !fits(op, 1, y.low) {
        return false;
    }
    if !fits(op, 2, z.low) {
        return false;
    }
    if !fits(op, 0, x.high) {
        return false;
    }
    if !fits(op, 1, y.high) {
        return false;
    }
    if !fits(op, 2, z.high) {
        return false;
    }
    true
}

fn boxes_fit(op: Op, boxes: &[Interval]) -> bool
    ensures { IsTrue result → BoxesFit op (used_box op (three boxes.now) 0) (used_box op (three boxes.now) 1) (used_box op (three boxes.now) 2) }
{
    are_in_types(op, box_at(boxes, 0), box_at(boxes, 1), box_at(boxes, 2))
}

fn site_fits(kind: SiteKind, verdict: &Verdict) -> bool
    ensures { IsTrue result → Fits (open_in kind (Some verdict.now)) }
{
    match kind {
        SiteKind::Operator(op) => match verdict {
            Verdict::Safe { .. } => true,
            Verdict::Never => true,
            Verdict::Unproved { boxes, .. } => boxes_fit(op, boxes.items()),
        },
        SiteKind::Index => true,
        SiteKind::View => true,
        SiteKind::Arithmetic => true,
        SiteKind::Narrowing => true,
    }
}

/// The boxes of what is open at a site lie in the argument types; nothing is open where there is no site or no verdict.
fn at_fits(site: Option<&SiteInfo>, verdict: Option<&Verdict>) -> bool
    ensures { IsTrue result → Fits (open_at (option_copied site.entry) (option_copied verdict.entry)) }
{
    match site {
        None => true,
        Some(site) => match verdict {
            None => true,
            Some(verdict) => site_fits(site.kind, verdict),
        },
    }
}

/// The same at the site of a number.
fn number_fits(sites: &[SiteInfo], verdicts: &[Verdict], k: usize) -> bool
    ensures { IsTrue result → Fits (open_at (slice_get sites.now k) (slice_get verdicts.now k)) }
{
    at_fits(sites.get(k), verdicts.get(k))
}

fn sites_fit(sites: &[SiteInfo], verdicts: &[Verdict]) -> bool
    ensures { IsTrue result → FitEach sites.now verdicts.now }
{
    for k in 0..sites.len() {
        if !number_fits(sites, verdicts, k) {
            return false;
        }
    }
    true
}

/// Whether the boxes of each operator that is not proved lie in its argument types. Those of the findings of a check do.
pub fn are_fitting(program: &Program, findings: &Findings) -> bool
    ensures fits { IsTrue result → FitEach program.now.sites findings.now.sites }
{
    sites_fit(program.sites.items(), findings.sites.items())
}
