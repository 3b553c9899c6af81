// The text of a report.
ghost use Rattle.std.specs.Prelude.{◌≡◌, ◌++◌, ◌%◌, ◌<◌, length, slice_get, OnOk, IfOk};
ghost use Rattle.std.specs.List.{list_all};
ghost use Rattle.wm_findings_text.specs.Report.{count_line, turns_text, loop_line, loop_line_of, loop_lines, summary_text, object_name, state_line, state_lines, bound_text, digit_text, three_digits, thousandths_text, millions_text, rate_text, function_text, bound_line, rate_line, bound_line_of, rate_line_of, bound_lines, rate_lines, rates_part, is_several, is_proved, is_number, is_safe, result_line, sites_part, loops_part, states_part, bounds_part, report_text};

use crate::places::push_place;
use crate::sites::{push_interval, push_sites};
use std::alloc::{AllocError, Global};
use wm_arrays::{StateLine, Summary};
use wm_digits::{push_number, push_wide};
use wm_findings::{Findings, Turns, Verdict};
use wm_flow::Bound;
use wm_lang::Name;
use wm_ops::NoMemory;
use wm_program::{LoopInfo, ObjectInfo, Program, Spec};

/// A line of a word and a number.
#[tactic(auto, unfolding(crate::specs::Report::count_line))]
pub fn push_count(text: &mut Vec<u8>, word: &[u8], n: usize) -> Result<(), AllocError>
    ensures { OnOk result (text.new.items ≡ text.old.items ++ count_line word.now n) }
{
    text.extend_from_slice(word)?;
    text.extend_from_slice(b" ")?;
    push_number(text, n as u64)?;
    text.extend_from_slice(b"\n")
}

// ---- loops

fn push_turns(text: &mut Vec<u8>, found: Turns) -> Result<(), AllocError>
    ensures { OnOk result (text.new.items ≡ text.old.items ++ turns_text found) }
{
    match found {
        Turns::Never => text.extend_from_slice(b"never"),
        Turns::None => text.extend_from_slice(b"trips none"),
        Turns::Most(n) => {
            text.extend_from_slice(b"trips ")?;
            push_number(text, n)
        }
    }
}

#[tactic(auto, unfolding(crate::specs::Report::loop_line))]
fn push_loop(
    text: &mut Vec<u8>,
    names: &[Name],
    k: u64,
    info: LoopInfo,
    found: Turns,
) -> Result<(), AllocError>
    ensures { OnOk result (text.new.items ≡ text.old.items ++ loop_line names.now k info found) }
{
    text.extend_from_slice(b"loop ")?;
    push_number(text, k)?;
    text.extend_from_slice(b" ")?;
    push_place(text, names, info.place)?;
    text.extend_from_slice(b" ")?;
    push_turns(text, found)?;
    text.extend_from_slice(b"\n")
}

#[tactic(auto, unfolding(crate::specs::Report::loop_line_of))]
fn push_loop_of(
    text: &mut Vec<u8>,
    names: &[Name],
    k: usize,
    info: &LoopInfo,
    found: &[Turns],
) -> Result<(), AllocError>
    ensures { OnOk result (text.new.items ≡ text.old.items ++ loop_line_of names.now k info.now (slice_get found.now k)) }
{
    match found.get(k) {
        None => Ok(()),
        Some(found) => push_loop(text, names, k as u64 + 1, *info, *found),
    }
}

fn push_loops(
    text: &mut Vec<u8>,
    names: &[Name],
    loops: &[LoopInfo],
    found: &[Turns],
) -> Result<(), AllocError>
    ensures { OnOk result (text.new.items ≡ text.old.items ++ loop_lines names.now found.now 0 loops.now) }
{
    for (k, info) in loops.iter().enumerate() {
        push_loop_of(text, names, k, info, found)?;
    }
    Ok(())
}

// ---- states

pub fn push_summary(text: &mut Vec<u8>, summary: Summary) -> Result<(), AllocError>
    ensures { OnOk result (text.new.items ≡ text.old.items ++ summary_text summary) }
{
    match summary {
        Summary::Empty => text.extend_from_slice(b"empty"),
        Summary::Range(i) => push_interval(text, i),
    }
}

pub fn object_name(objects: &[ObjectInfo], object: u32) -> &[u8]
    ensures { result.now ≡ object_name (slice_get objects.now object) }
{
    match objects.get(object as usize) {
        None => b"",
        Some(it) => it.name.bytes(),
    }
}

#[tactic(auto, unfolding(crate::specs::Report::state_line))]
fn push_state(
    text: &mut Vec<u8>,
    objects: &[ObjectInfo],
    k: u64,
    line: StateLine,
) -> Result<(), AllocError>
    ensures { OnOk result (text.new.items ≡ text.old.items ++ state_line objects.now k line) }
{
    text.extend_from_slice(b"state ")?;
    push_number(text, k)?;
    text.extend_from_slice(b" ")?;
    text.extend_from_slice(object_name(objects, line.object))?;
    text.extend_from_slice(b" ")?;
    push_summary(text, line.summary)?;
    text.extend_from_slice(b"\n")
}

fn push_states(
    text: &mut Vec<u8>,
    objects: &[ObjectInfo],
    lines: &[StateLine],
) -> Result<(), AllocError>
    ensures { OnOk result (text.new.items ≡ text.old.items ++ state_lines objects.now 1 lines.now) }
{
    for (k, line) in lines.iter().enumerate() {
        push_state(text, objects, k as u64 + 1, *line)?;
    }
    Ok(())
}

// ---- bounds

pub fn push_bound(text: &mut Vec<u8>, bound: Bound) -> Result<(), AllocError>
    ensures { OnOk result (text.new.items ≡ text.old.items ++ bound_text bound) }
{
    match bound {
        Bound::At(n) => {
            text.extend_from_slice(b"bound ")?;
            push_number(text, n)
        }
        Bound::NoTrips { loop_id } => {
            text.extend_from_slice(b"bound none loop ")?;
            push_number(text, u64::from(loop_id) + 1)
        }
        Bound::TooLarge => text.extend_from_slice(b"bound large"),
    }
}

fn push_digit(text: &mut Vec<u8>, n: u8) -> Result<(), AllocError>
    requires { n < 10 }
    ensures { OnOk result (text.new.items ≡ text.old.items ++ digit_text n) }
{
    text.push(48 + n)?;
    Ok(())
}

/// A number below 1000 as three digits.
#[tactic(auto, unfolding(crate::specs::Report::three_digits))]
fn push_three(text: &mut Vec<u8>, n: u16) -> Result<(), AllocError>
    requires { n < 1000 }
    ensures { OnOk result (text.new.items ≡ text.old.items ++ three_digits n) }
{
    push_digit(text, (n / 100) as u8)?;
    push_digit(text, (n / 10 % 10) as u8)?;
    push_digit(text, (n % 10) as u8)
}

#[tactic(auto, unfolding(crate::specs::Report::thousandths_text))]
fn push_thousandths(text: &mut Vec<u8>, n: u128) -> Result<(), AllocError>
    ensures { OnOk result (text.new.items ≡ text.old.items ++ thousandths_text n) }
{
    text.extend_from_slice(b"wmops ")?;
    push_wide(text, n / 1000)?;
    text.extend_from_slice(b".")?;
    push_three(text, (n % 1000) as u16)
}

fn push_millions(text: &mut Vec<u8>, us: u32, n: u64) -> Result<(), AllocError>
    ensures { OnOk result (text.new.items ≡ text.old.items ++ millions_text us n) }
{
    if us == 0 {
        return text.extend_from_slice(b"wmops none");
    }
    let thousand = u128::from(n) * 1000;
    push_thousandths(text, thousand.div_ceil(u128::from(us)))
}

fn push_rate(text: &mut Vec<u8>, us: u32, bound: Bound) -> Result<(), AllocError>
    ensures { OnOk result (text.new.items ≡ text.old.items ++ rate_text us bound) }
{
    match bound {
        Bound::At(n) => push_millions(text, us, n),
        Bound::NoTrips { .. } => text.extend_from_slice(b"wmops none"),
        Bound::TooLarge => text.extend_from_slice(b"wmops none"),
    }
}

/// The function of a bound, where there are several.
fn push_function(text: &mut Vec<u8>, several: bool, name: &[u8]) -> Result<(), AllocError>
    ensures { OnOk result (text.new.items ≡ text.old.items ++ function_text several name.now) }
{
    if several {
        text.extend_from_slice(b" in ")?;
        text.extend_from_slice(name)?;
    }
    Ok(())
}

#[tactic(auto, unfolding(crate::specs::Report::bound_line))]
pub fn push_bound_line(
    text: &mut Vec<u8>,
    several: bool,
    name: &[u8],
    bound: Bound,
) -> Result<(), AllocError>
    ensures { OnOk result (text.new.items ≡ text.old.items ++ bound_line several name.now bound) }
{
    push_bound(text, bound)?;
    push_function(text, several, name)?;
    text.extend_from_slice(b"\n")
}

#[tactic(auto, unfolding(crate::specs::Report::rate_line))]
fn push_rate_line(
    text: &mut Vec<u8>,
    us: u32,
    several: bool,
    name: &[u8],
    bound: Bound,
) -> Result<(), AllocError>
    ensures { OnOk result (text.new.items ≡ text.old.items ++ rate_line us several name.now bound) }
{
    push_rate(text, us, bound)?;
    push_function(text, several, name)?;
    text.extend_from_slice(b"\n")
}

fn push_bound_line_of(
    text: &mut Vec<u8>,
    several: bool,
    name: &Name,
    bounds: &[Bound],
    k: usize,
) -> Result<(), AllocError>
    ensures { OnOk result (text.new.items ≡ text.old.items ++ bound_line_of several name.now (slice_get bounds.now k)) }
{
    match bounds.get(k) {
        None => Ok(()),
        Some(bound) => push_bound_line(text, several, name.bytes(), *bound),
    }
}

fn push_rate_line_of(
    text: &mut Vec<u8>,
    us: u32,
    several: bool,
    name: &Name,
    bounds: &[Bound],
    k: usize,
) -> Result<(), AllocError>
    ensures { OnOk result (text.new.items ≡ text.old.items ++ rate_line_of us several name.now (slice_get bounds.now k)) }
{
    match bounds.get(k) {
        None => Ok(()),
        Some(bound) => push_rate_line(text, us, several, name.bytes(), *bound),
    }
}

fn push_bound_lines(
    text: &mut Vec<u8>,
    several: bool,
    names: &[Name],
    bounds: &[Bound],
) -> Result<(), AllocError>
    ensures { OnOk result (text.new.items ≡ text.old.items ++ bound_lines several bounds.now 0 names.now) }
{
    for (k, name) in names.iter().enumerate() {
        push_bound_line_of(text, several, name, bounds, k)?;
    }
    Ok(())
}

fn push_rate_lines(
    text: &mut Vec<u8>,
    us: u32,
    several: bool,
    names: &[Name],
    bounds: &[Bound],
) -> Result<(), AllocError>
    ensures { OnOk result (text.new.items ≡ text.old.items ++ rate_lines us several bounds.now 0 names.now) }
{
    for (k, name) in names.iter().enumerate() {
        push_rate_line_of(text, us, several, name, bounds, k)?;
    }
    Ok(())
}

fn push_rates(
    text: &mut Vec<u8>,
    frame_us: Option<u32>,
    several: bool,
    names: &[Name],
    bounds: &[Bound],
) -> Result<(), AllocError>
    ensures { OnOk result (text.new.items ≡ text.old.items ++ rates_part frame_us several names.now bounds.now) }
{
    match frame_us {
        None => Ok(()),
        Some(us) => push_rate_lines(text, us, several, names, bounds),
    }
}

// ---- the result

fn is_proved(verdict: &Verdict) -> bool
    ensures { result ≡ is_proved verdict.now }
{
    match verdict {
        Verdict::Safe { .. } => true,
        Verdict::Never => true,
        Verdict::Unproved { .. } => false,
    }
}

fn is_number(bound: Bound) -> bool
    ensures { result ≡ is_number bound }
{
    match bound {
        Bound::At(_) => true,
        Bound::NoTrips { .. } => false,
        Bound::TooLarge => false,
    }
}

fn all_proved(verdicts: &[Verdict]) -> bool
    ensures { result ≡ list_all is_proved verdicts.now }
{
    verdicts.iter().all(|verdict| is_proved(verdict))
}

fn all_numbers(bounds: &[Bound]) -> bool
    ensures { result ≡ list_all is_number bounds.now }
{
    bounds.iter().all(|bound| is_number(*bound))
}

/// Whether no site may fail and each bound is a number.
pub fn is_safe(findings: &Findings) -> bool
    ensures safe { result ≡ is_safe findings.now }
{
    all_proved(findings.sites.items()) && all_numbers(findings.bounds.items())
}

fn result_line(safe: bool) -> &'static [u8]
    ensures { result.now ≡ result_line safe }
{
    if safe {
        b"result safe\n"
    } else {
        b"result open\n"
    }
}

// ---- the report

#[tactic(auto, unfolding(crate::specs::Report::sites_part))]
fn push_sites_part(
    text: &mut Vec<u8>,
    names: &[Name],
    program: &Program,
    verdicts: &[Verdict],
) -> Result<(), AllocError>
    ensures { OnOk result (text.new.items ≡ text.old.items ++ sites_part names.now program.now verdicts.now) }
{
    push_count(text, b"sites", program.sites.items().len())?;
    push_sites(text, names, program, program.sites.items(), verdicts)
}

#[tactic(auto, unfolding(crate::specs::Report::loops_part))]
fn push_loops_part(
    text: &mut Vec<u8>,
    names: &[Name],
    loops: &[LoopInfo],
    found: &[Turns],
) -> Result<(), AllocError>
    ensures { OnOk result (text.new.items ≡ text.old.items ++ loops_part names.now loops.now found.now) }
{
    push_count(text, b"loops", loops.len())?;
    push_loops(text, names, loops, found)
}

#[tactic(auto, unfolding(crate::specs::Report::states_part))]
fn push_states_part(
    text: &mut Vec<u8>,
    objects: &[ObjectInfo],
    lines: &[StateLine],
) -> Result<(), AllocError>
    ensures { OnOk result (text.new.items ≡ text.old.items ++ states_part objects.now lines.now) }
{
    push_count(text, b"states", lines.len())?;
    push_states(text, objects, lines)
}

#[tactic(auto, unfolding(crate::specs::Report::bounds_part))]
fn push_bounds_part(text: &mut Vec<u8>, spec: &Spec, bounds: &[Bound]) -> Result<(), AllocError>
    ensures { OnOk result (text.new.items ≡ text.old.items ++ bounds_part spec.now bounds.now) }
{
    let names = spec.frames.items();
    let several = names.len() > 1;
    push_bound_lines(text, several, names, bounds)?;
    push_rates(text, spec.frame_us, several, names, bounds)
}

/// The text of a report. `spec` is the specification of which the program was made, and the findings are of this program: a
/// verdict for each site, an entry for each loop, a line for each state, and a bound for each frame function. A rate, in millions
/// of weighted operations in a second, stands where the specification has the length of a frame, rounded up to three decimals.
#[tactic(auto, unfolding(crate::specs::Report::report_text))]
pub fn report_text(
    alloc: Global,
    program: &Program,
    spec: &Spec,
    findings: &Findings,
) -> Result<Vec<u8>, NoMemory>
    ensures text { IfOk result (λ text. text.items ≡ report_text program.now spec.now findings.now) }
{
    let names = spec.sources.items();
    let mut text = Vec::from_slice(alloc, b"wmops report 1\n")?;
    push_sites_part(&mut text, names, program, findings.sites.items())?;
    push_loops_part(
        &mut text,
        names,
        program.loops.items(),
        findings.loops.items(),
    )?;
    push_states_part(&mut text, program.objects.items(), findings.states.items())?;
    push_bounds_part(&mut text, spec, findings.bounds.items())?;
    text.extend_from_slice(result_line(is_safe(findings)))?;
    Ok(text)
}
