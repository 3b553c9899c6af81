// The lines of sites.
ghost use Rattle.std.specs.Prelude.{◌≡◌, ◌++◌, OnOk, slice_get};
ghost use Rattle.wm_findings_text.specs.Sites.{interval_text, kind_word, box_text, value_text, boxes_text, values_text, safe_text, unproved_text, verdict_text, site_head, site_line, site_line_of, site_lines};

use crate::places::{push_instance, push_place};
use std::alloc::AllocError;
use wm_digits::{push_number, push_signed};
use wm_findings::Verdict;
use wm_interval::Interval;
use wm_lang::Name;
use wm_ops::name;
use wm_program::{Program, SiteInfo, SiteKind};

/// LOW..HIGH
pub fn push_interval(text: &mut Vec<u8>, i: Interval) -> Result<(), AllocError>
    ensures { OnOk result (text.new.items ≡ text.old.items ++ interval_text i) }
{
    push_signed(text, i.low)?;
    text.extend_from_slice(b"..")?;
    push_signed(text, i.high)
}

fn kind_word(kind: SiteKind) -> &'static [u8]
    ensures { result.now ≡ kind_word kind }
{
    match kind {
        SiteKind::Operator(op) => name(op),
        SiteKind::Index => b"index",
        SiteKind::View => b"view",
        SiteKind::Arithmetic => b"arithmetic",
        SiteKind::Narrowing => b"narrowing",
    }
}

#[tactic(auto, unfolding(crate::specs::Sites::box_text))]
fn push_box(text: &mut Vec<u8>, i: Interval) -> Result<(), AllocError>
    ensures { OnOk result (text.new.items ≡ text.old.items ++ box_text i) }
{
    text.extend_from_slice(b" ")?;
    push_interval(text, i)
}

#[tactic(auto, unfolding(crate::specs::Sites::value_text))]
fn push_value(text: &mut Vec<u8>, z: i64) -> Result<(), AllocError>
    ensures { OnOk result (text.new.items ≡ text.old.items ++ value_text z) }
{
    text.extend_from_slice(b" ")?;
    push_signed(text, z)
}

fn push_boxes(text: &mut Vec<u8>, boxes: &[Interval]) -> Result<(), AllocError>
    ensures { OnOk result (text.new.items ≡ text.old.items ++ boxes_text boxes.now) }
{
    for i in boxes {
        push_box(text, *i)?;
    }
    Ok(())
}

fn push_values(text: &mut Vec<u8>, values: &[i64]) -> Result<(), AllocError>
    ensures { OnOk result (text.new.items ≡ text.old.items ++ values_text values.now) }
{
    for z in values {
        push_value(text, *z)?;
    }
    Ok(())
}

fn safe_word(unset: bool) -> &'static [u8]
    ensures { result.now ≡ safe_text unset }
{
    if unset { b"safe unset" } else { b"safe" }
}

/// The boxes, values that fail in them, and the instance.
#[tactic(auto, unfolding(crate::specs::Sites::unproved_text))]
fn push_unproved(
    text: &mut Vec<u8>,
    names: &[Name],
    program: &Program,
    boxes: &[Interval],
    values: &[i64],
    instance: u32,
) -> Result<(), AllocError>
    ensures { OnOk result (text.new.items ≡ text.old.items ++ unproved_text names.now program.now boxes.now values.now instance) }
{
    text.extend_from_slice(b"unproved")?;
    push_boxes(text, boxes)?;
    text.extend_from_slice(b" at")?;
    push_values(text, values)?;
    push_instance(text, names, program, instance)
}

fn push_verdict(
    text: &mut Vec<u8>,
    names: &[Name],
    program: &Program,
    verdict: &Verdict,
) -> Result<(), AllocError>
    ensures { OnOk result (text.new.items ≡ text.old.items ++ verdict_text names.now program.now verdict.now) }
{
    match verdict {
        Verdict::Safe { unset } => text.extend_from_slice(safe_word(*unset)),
        Verdict::Never => text.extend_from_slice(b"never"),
        Verdict::Unproved {
            boxes,
            values,
            instance,
        } => push_unproved(
            text,
            names,
            program,
            boxes.items(),
            values.items(),
            *instance,
        ),
    }
}

/// What stands before the verdict of the site of this number, from 1.
#[tactic(auto, unfolding(crate::specs::Sites::site_head))]
fn push_site_head(
    text: &mut Vec<u8>,
    names: &[Name],
    k: u64,
    site: SiteInfo,
) -> Result<(), AllocError>
    ensures { OnOk result (text.new.items ≡ text.old.items ++ site_head names.now k site) }
{
    text.extend_from_slice(b"site ")?;
    push_number(text, k)?;
    text.extend_from_slice(b" ")?;
    push_place(text, names, site.place)?;
    text.extend_from_slice(b" ")?;
    text.extend_from_slice(kind_word(site.kind))?;
    text.extend_from_slice(b" ")
}

#[tactic(auto, unfolding(crate::specs::Sites::site_line))]
fn push_site(
    text: &mut Vec<u8>,
    names: &[Name],
    program: &Program,
    k: u64,
    site: SiteInfo,
    verdict: &Verdict,
) -> Result<(), AllocError>
    ensures { OnOk result (text.new.items ≡ text.old.items ++ site_line names.now program.now k site verdict.now) }
{
    push_site_head(text, names, k, site)?;
    push_verdict(text, names, program, verdict)?;
    text.extend_from_slice(b"\n")
}

/// The line of the site of this number, from 0; none where it has no verdict.
#[tactic(auto, unfolding(crate::specs::Sites::site_line_of))]
fn push_site_of(
    text: &mut Vec<u8>,
    names: &[Name],
    program: &Program,
    k: usize,
    site: &SiteInfo,
    verdicts: &[Verdict],
) -> Result<(), AllocError>
    ensures { OnOk result (text.new.items ≡ text.old.items ++ site_line_of names.now program.now k site.now (slice_get verdicts.now k)) }
{
    match verdicts.get(k) {
        None => Ok(()),
        Some(verdict) => push_site(text, names, program, k as u64 + 1, *site, verdict),
    }
}

/// A line for each site with its verdict.
pub fn push_sites(
    text: &mut Vec<u8>,
    names: &[Name],
    program: &Program,
    sites: &[SiteInfo],
    verdicts: &[Verdict],
) -> Result<(), AllocError>
    ensures { OnOk result (text.new.items ≡ text.old.items ++ site_lines names.now program.now verdicts.now 0 sites.now) }
{
    for (k, site) in sites.iter().enumerate() {
        push_site_of(text, names, program, k, site, verdicts)?;
    }
    Ok(())
}
