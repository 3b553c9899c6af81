// The text.
ghost use Rattle.std.specs.Prelude.{◌≡◌, ◌<◌, ◌^◌, ◌++◌, slice_get, slice_index_or, None, IfOk, OnOk};
ghost use Rattle.wm_headroom_text.specs.Open.{open_in, FitEach};
ghost use Rattle.wm_headroom_text.specs.Opened.{opened};
ghost use Rattle.wm_headroom_text.specs.Text.{shift_text, shift_line, open_line, site_line, shift_lines, text_with, IsHeadroomText};

use crate::shifts::shifts_of;
use crate::sites::{Open, open_in};
use std::alloc::{AllocError, Global};
use wm_digits::push_number;
use wm_findings::{Findings, Verdict};
use wm_findings_text::push_place;
use wm_lang::{Name, Place};
use wm_ops::{NoMemory, Op, name};
use wm_program::{Program, SiteInfo, Spec};

fn push_shift(text: &mut Vec<u8>, shift: Option<u32>) -> Result<(), AllocError>
    ensures { OnOk result (text.new.items ≡ text.old.items ++ shift_text shift) }
{
    match shift {
        None => text.extend_from_slice(b"none"),
        Some(places) => push_number(text, u64::from(places)),
    }
}

#[tactic(auto, unfolding(crate::specs::Text::shift_line))]
fn push_line(
    text: &mut Vec<u8>,
    names: &[Name],
    k: u64,
    place: Place,
    op: Op,
    shift: Option<u32>,
) -> Result<(), AllocError>
    ensures { OnOk result (text.new.items ≡ text.old.items ++ shift_line names.now k place op shift) }
{
    text.extend_from_slice(b"site ")?;
    push_number(text, k)?;
    text.extend_from_slice(b" ")?;
    push_place(text, names, place)?;
    text.extend_from_slice(b" ")?;
    text.extend_from_slice(name(op))?;
    text.extend_from_slice(b" shift ")?;
    push_shift(text, shift)?;
    text.extend_from_slice(b"\n")
}

fn push_open(
    text: &mut Vec<u8>,
    names: &[Name],
    k: u64,
    place: Place,
    it: Option<Open<'_>>,
    shift: Option<u32>,
) -> Result<(), AllocError>
    ensures { OnOk result (text.new.items ≡ text.old.items ++ open_line names.now k place (opened it.entry) shift) }
{
    match it {
        None => Ok(()),
        Some(found) => push_line(text, names, k, place, found.op, shift),
    }
}

/// The shift of this number.
fn shift_at(shifts: &[Option<u32>], k: usize) -> Option<u32>
    ensures { result ≡ slice_index_or shifts.now k None }
{
    if k < shifts.len() {
        return shifts[k];
    }
    None
}

/// The line of what is open at the site of this number, from 0.
#[tactic(auto, unfolding(crate::specs::Text::site_line))]
fn push_site(
    text: &mut Vec<u8>,
    names: &[Name],
    k: usize,
    site: &SiteInfo,
    verdicts: &[Verdict],
    shifts: &[Option<u32>],
) -> Result<(), AllocError>
    requires { k < 2 ^ 63 }
    ensures { OnOk result (text.new.items ≡ text.old.items ++ site_line names.now k site.now (slice_get verdicts.now k) (slice_index_or shifts.now k None)) }
{
    let found = open_in(site.kind, verdicts.get(k));
    push_open(
        text,
        names,
        k as u64 + 1,
        site.place,
        found,
        shift_at(shifts, k),
    )
}

fn push_lines(
    text: &mut Vec<u8>,
    names: &[Name],
    sites: &[SiteInfo],
    verdicts: &[Verdict],
    shifts: &[Option<u32>],
) -> Result<(), AllocError>
    ensures { OnOk result (text.new.items ≡ text.old.items ++ shift_lines names.now verdicts.now shifts.now 0 sites.now) }
{
    for (k, site) in sites.iter().enumerate() {
        push_site(text, names, k, site, verdicts, shifts)?;
    }
    Ok(())
}

#[tactic(auto, unfolding(crate::specs::Text::text_with))]
fn text_with(
    alloc: Global,
    shifts: &[Option<u32>],
    program: &Program,
    spec: &Spec,
    findings: &Findings,
) -> Result<Vec<u8>, AllocError>
    ensures { IfOk result (λ text. text.items ≡ text_with shifts.now program.now spec.now findings.now) }
{
    let mut text = Vec::from_slice(alloc, b"wmops headroom 1\n")?;
    push_lines(
        &mut text,
        spec.sources.items(),
        program.sites.items(),
        findings.sites.items(),
        shifts,
    )?;
    Ok(text)
}

/// The text of how far the operands of each operator that is not proved have to be shifted to the right so that it fails
/// nowhere in the boxes that the report shows: the least number of places from 0 to 31, or none. `spec` is the specification of
/// which the program was made, the findings are of this program, and the boxes of each such operator lie in its argument types.
pub fn headroom_text(
    alloc: Global,
    program: &Program,
    spec: &Spec,
    findings: &Findings,
) -> Result<Vec<u8>, NoMemory>
    requires types { FitEach program.now.sites findings.now.sites }
    ensures text { IfOk result (λ text. IsHeadroomText program.now spec.now findings.now text.items) }
{
    let shifts = shifts_of(alloc, program.sites.items(), findings.sites.items())?;
    let text = text_with(alloc, shifts.as_slice(), program, spec, findings)?;
    Ok(text)
}
