// The summary of a generated example.
ghost use Rattle.std.specs.Prelude.{◌≡◌, ◌++◌, count_by, OnOk, IfOk};
ghost use Rattle.wm_findings_text.specs.Demo.{is_safe, is_never, is_open, tally_line, plain_line, bounds_text, demo_text};

use crate::report::{push_bound, push_count};
use std::alloc::{AllocError, Global};
use wm_digits::push_number;
use wm_findings::{Findings, Verdict};
use wm_flow::Bound;
use wm_ops::NoMemory;

fn is_safe(verdict: &Verdict) -> bool
    ensures { result ≡ is_safe verdict.now }
{
    match verdict {
        Verdict::Safe { .. } => true,
        Verdict::Never => false,
        Verdict::Unproved { .. } => false,
    }
}

fn is_never(verdict: &Verdict) -> bool
    ensures { result ≡ is_never verdict.now }
{
    match verdict {
        Verdict::Safe { .. } => false,
        Verdict::Never => true,
        Verdict::Unproved { .. } => false,
    }
}

fn is_open(verdict: &Verdict) -> bool
    ensures { result ≡ is_open verdict.now }
{
    match verdict {
        Verdict::Safe { .. } => false,
        Verdict::Never => false,
        Verdict::Unproved { .. } => true,
    }
}

fn safe_sites(verdicts: &[Verdict]) -> usize
    ensures { result ≡ count_by is_safe verdicts.now }
{
    verdicts.iter().filter(|verdict| is_safe(*verdict)).count()
}

fn never_sites(verdicts: &[Verdict]) -> usize
    ensures { result ≡ count_by is_never verdicts.now }
{
    verdicts.iter().filter(|verdict| is_never(*verdict)).count()
}

fn open_sites(verdicts: &[Verdict]) -> usize
    ensures { result ≡ count_by is_open verdicts.now }
{
    verdicts.iter().filter(|verdict| is_open(*verdict)).count()
}

/// The line of the sites, with how many there are of each kind.
#[tactic(auto, unfolding(crate::specs::Demo::tally_line))]
fn push_tally(text: &mut Vec<u8>, verdicts: &[Verdict]) -> Result<(), AllocError>
    ensures { OnOk result (text.new.items ≡ text.old.items ++ tally_line verdicts.now) }
{
    text.extend_from_slice(b"sites ")?;
    push_number(text, verdicts.len() as u64)?;
    text.extend_from_slice(b" safe ")?;
    push_number(text, safe_sites(verdicts) as u64)?;
    text.extend_from_slice(b" never ")?;
    push_number(text, never_sites(verdicts) as u64)?;
    text.extend_from_slice(b" unproved ")?;
    push_number(text, open_sites(verdicts) as u64)?;
    text.extend_from_slice(b"\n")
}

#[tactic(auto, unfolding(crate::specs::Demo::plain_line))]
fn push_plain(text: &mut Vec<u8>, bound: Bound) -> Result<(), AllocError>
    ensures { OnOk result (text.new.items ≡ text.old.items ++ plain_line bound) }
{
    push_bound(text, bound)?;
    text.extend_from_slice(b"\n")
}

fn push_bounds(text: &mut Vec<u8>, bounds: &[Bound]) -> Result<(), AllocError>
    ensures { OnOk result (text.new.items ≡ text.old.items ++ bounds_text bounds.now) }
{
    for bound in bounds {
        push_plain(text, *bound)?;
    }
    Ok(())
}

/// The summary of the example of so many stages: its sites by kind of verdict, and its bound.
#[tactic(auto, unfolding(crate::specs::Demo::demo_text))]
pub fn demo_text(alloc: Global, stages: u32, findings: &Findings) -> Result<Vec<u8>, NoMemory>
    ensures text { IfOk result (λ text. text.items ≡ demo_text stages findings.now) }
{
    let mut text = Vec::from_slice(alloc, b"wmops demo 1\n")?;
    push_count(&mut text, b"stages", stages as usize)?;
    push_tally(&mut text, findings.sites.items())?;
    push_bounds(&mut text, findings.bounds.items())?;
    Ok(text)
}
