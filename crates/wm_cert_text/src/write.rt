// The whole text.
ghost use Rattle.std.specs.Prelude.{◌≡◌, ◌++◌, OnOk, IfOk};
ghost use Rattle.wm_cert_text.specs.declared.told.HeadName.TheVariants.{Loop};
ghost use Rattle.wm_cert_text.specs.Heads.{name_words, head_line, bounds_of, state_lines, head_text, head_texts};
ghost use Rattle.wm_cert_text.specs.Whole.{has_any, has_sums, version_line, count_line, certificate_text};

use crate::digits::push_number;
use crate::lines::{push_arrays, push_bounds, push_numbered, push_pairs, push_sums};
use crate::told::{Head, HeadName, State, SumStep};
use std::alloc::{AllocError, Global};
use wm_ops::NoMemory;

fn push_name(text: &mut Vec<u8>, name: HeadName) -> Result<(), AllocError>
    ensures { OnOk result (text.new.items ≡ text.old.items ++ name_words name) }
{
    match name {
        HeadName::Frame => text.extend_from_slice(b" frame\n"),
        HeadName::Loop { loop_id, instance } => push_loop(text, loop_id, instance),
    }
}

fn push_loop(text: &mut Vec<u8>, loop_id: u32, instance: u32) -> Result<(), AllocError>
    ensures { OnOk result (text.new.items ≡ text.old.items ++ name_words (Loop loop_id instance)) }
{
    push_numbered(text, b" loop", u64::from(loop_id) + 1)?;
    push_numbered(text, b" instance", u64::from(instance) + 1)?;
    text.extend_from_slice(b"\n")
}

#[tactic(auto, unfolding(crate::specs::Heads::head_line))]
fn push_head_line(text: &mut Vec<u8>, number: u64, name: HeadName) -> Result<(), AllocError>
    ensures { OnOk result (text.new.items ≡ text.old.items ++ head_line number name) }
{
    push_numbered(text, b"head", number)?;
    push_name(text, name)
}

#[tactic(auto, unfolding(crate::specs::Heads::bounds_of))]
fn push_bounds_of(text: &mut Vec<u8>, state: &State) -> Result<(), AllocError>
    ensures { OnOk result (text.new.items ≡ text.old.items ++ bounds_of state.now) }
{
    push_bounds(text, state.bounds.items())?;
    push_pairs(text, state.pairs.items())?;
    push_arrays(text, state.arrays.items())
}

fn push_state(text: &mut Vec<u8>, state: &Option<State>) -> Result<(), AllocError>
    ensures { OnOk result (text.new.items ≡ text.old.items ++ state_lines state.now) }
{
    match state {
        None => text.extend_from_slice(b"empty\n"),
        Some(state) => push_bounds_of(text, state),
    }
}

#[tactic(auto, unfolding(crate::specs::Heads::head_text))]
fn push_head(text: &mut Vec<u8>, number: u64, head: &Head) -> Result<(), AllocError>
    ensures { OnOk result (text.new.items ≡ text.old.items ++ head_text number head.now) }
{
    push_head_line(text, number, head.name)?;
    push_sums(text, head.sums.items())?;
    push_state(text, &head.state)
}

fn push_heads(text: &mut Vec<u8>, heads: &[Head]) -> Result<(), AllocError>
    ensures { OnOk result (text.new.items ≡ text.old.items ++ head_texts 1 heads.now) }
{
    for (k, head) in heads.iter().enumerate() {
        push_head(text, k as u64 + 1, head)?;
    }
    Ok(())
}

fn has_any(sums: &[SumStep]) -> bool
    ensures { result ≡ has_any sums.now }
{
    match sums.first() {
        None => false,
        Some(_sum) => true,
    }
}

/// Whether some head has sum counters.
fn has_sums(heads: &[Head]) -> bool
    ensures { result ≡ has_sums heads.now }
{
    for head in heads {
        if has_any(head.sums.items()) {
            return true;
        }
    }
    false
}

fn version_line(has_sums: bool) -> &'static [u8]
    ensures { result.now ≡ version_line has_sums }
{
    if has_sums {
        b"wmops certificate 2\n"
    } else {
        b"wmops certificate 1\n"
    }
}

#[tactic(auto, unfolding(crate::specs::Whole::count_line))]
fn push_count(text: &mut Vec<u8>, heads: u64) -> Result<(), AllocError>
    ensures { OnOk result (text.new.items ≡ text.old.items ++ count_line heads) }
{
    text.extend_from_slice(b"heads ")?;
    push_number(text, heads)?;
    text.extend_from_slice(b"\n")
}

/// The text of a certificate with these heads. It is one of the second version where some head has sum counters.
#[tactic(auto, unfolding(crate::specs::Whole::certificate_text))]
pub fn certificate_text(alloc: Global, heads: &[Head]) -> Result<Vec<u8>, NoMemory>
    ensures text { IfOk result (λ text. text.items ≡ certificate_text heads.now) }
{
    let mut text = Vec::from_slice(alloc, version_line(has_sums(heads)))?;
    push_count(&mut text, heads.len() as u64)?;
    push_heads(&mut text, heads)?;
    text.extend_from_slice(b"end\n")?;
    Ok(text)
}
