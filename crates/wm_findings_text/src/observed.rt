// The text of what was seen beside what is proved.
ghost use Rattle.std.specs.Prelude.{◌≡◌, ◌++◌, slice_get, OnOk, IfOk};
ghost use Rattle.wm_findings_text.specs.Observed.{seen_line, seen_line_of, seen_lines, counted_line, counted_line_of, counted_lines, observe_text};

use crate::report::{object_name, push_bound_line, push_count, push_summary};
use std::alloc::{AllocError, Global};
use wm_arrays::{StateLine, Summary};
use wm_digits::{push_number, push_wide};
use wm_findings::{Findings, Seen};
use wm_flow::Bound;
use wm_lang::Name;
use wm_ops::NoMemory;
use wm_program::{ObjectInfo, Program, Spec};

#[tactic(auto, unfolding(crate::specs::Observed::seen_line))]
fn push_seen(
    text: &mut Vec<u8>,
    objects: &[ObjectInfo],
    k: u64,
    seen: Summary,
    line: StateLine,
) -> Result<(), AllocError>
    ensures { OnOk result (text.new.items ≡ text.old.items ++ seen_line objects.now k seen line) }
{
    text.extend_from_slice(b"state ")?;
    push_number(text, k)?;
    text.extend_from_slice(b" ")?;
    text.extend_from_slice(object_name(objects, line.object))?;
    text.extend_from_slice(b" seen ")?;
    push_summary(text, seen)?;
    text.extend_from_slice(b" proved ")?;
    push_summary(text, line.summary)?;
    text.extend_from_slice(b"\n")
}

/// The line of the object of this number, from 0; none where nothing was seen of it.
#[tactic(auto, unfolding(crate::specs::Observed::seen_line_of))]
fn push_seen_of(
    text: &mut Vec<u8>,
    objects: &[ObjectInfo],
    seen: &[StateLine],
    k: usize,
    line: &StateLine,
) -> Result<(), AllocError>
    ensures { OnOk result (text.new.items ≡ text.old.items ++ seen_line_of objects.now k (slice_get seen.now k) line.now) }
{
    match seen.get(k) {
        None => Ok(()),
        Some(seen) => push_seen(text, objects, k as u64 + 1, seen.summary, *line),
    }
}

fn push_seen_lines(
    text: &mut Vec<u8>,
    objects: &[ObjectInfo],
    seen: &[StateLine],
    lines: &[StateLine],
) -> Result<(), AllocError>
    ensures { OnOk result (text.new.items ≡ text.old.items ++ seen_lines objects.now seen.now 0 lines.now) }
{
    for (k, line) in lines.iter().enumerate() {
        push_seen_of(text, objects, seen, k, line)?;
    }
    Ok(())
}

/// The greatest count of a function's frames, and its bound.
#[tactic(auto, unfolding(crate::specs::Observed::counted_line))]
fn push_counted(
    text: &mut Vec<u8>,
    several: bool,
    name: &[u8],
    count: u128,
    bound: Bound,
) -> Result<(), AllocError>
    ensures { OnOk result (text.new.items ≡ text.old.items ++ counted_line several name.now count bound) }
{
    text.extend_from_slice(b"count ")?;
    push_wide(text, count)?;
    text.extend_from_slice(b" ")?;
    push_bound_line(text, several, name, bound)
}

fn push_counted_of(
    text: &mut Vec<u8>,
    several: bool,
    name: &Name,
    counts: &[u128],
    bounds: &[Bound],
    k: usize,
) -> Result<(), AllocError>
    ensures { OnOk result (text.new.items ≡ text.old.items ++ counted_line_of several name.now (slice_get counts.now k) (slice_get bounds.now k)) }
{
    match counts.get(k) {
        None => Ok(()),
        Some(count) => match bounds.get(k) {
            None => Ok(()),
            Some(bound) => push_counted(text, several, name.bytes(), *count, *bound),
        },
    }
}

fn push_counted_lines(
    text: &mut Vec<u8>,
    several: bool,
    names: &[Name],
    counts: &[u128],
    bounds: &[Bound],
) -> Result<(), AllocError>
    ensures { OnOk result (text.new.items ≡ text.old.items ++ counted_lines several counts.now bounds.now 0 names.now) }
{
    for (k, name) in names.iter().enumerate() {
        push_counted_of(text, several, name, counts, bounds, k)?;
    }
    Ok(())
}

/// The text of what was seen while sample frames were run, beside what is proved: for each object the numbers of its set cells as
/// the frames began, and for each frame function the greatest count. `spec` is the specification of which the program was made;
/// findings and what was seen are of this program, with the same objects in the same order.
#[tactic(auto, unfolding(crate::specs::Observed::observe_text))]
pub fn observe_text(
    alloc: Global,
    program: &Program,
    spec: &Spec,
    findings: &Findings,
    seen: &Seen,
) -> Result<Vec<u8>, NoMemory>
    ensures text { IfOk result (λ text. text.items ≡ observe_text program.now spec.now findings.now seen.now) }
{
    let names = spec.frames.items();
    let mut text = Vec::from_slice(alloc, b"wmops observe 1\n")?;
    push_count(&mut text, b"frames", seen.frames as usize)?;
    push_seen_lines(
        &mut text,
        program.objects.items(),
        seen.states.items(),
        findings.states.items(),
    )?;
    push_counted_lines(
        &mut text,
        names.len() > 1,
        names,
        seen.counts.items(),
        findings.bounds.items(),
    )?;
    Ok(text)
}
