// The lines of a head.
ghost use Rattle.std.specs.Prelude.{◌≡◌, ◌++◌, OnOk};
ghost use Rattle.wm_cert_text.specs.Lines.{numbered, ends_words, bound_line, kind_word, pair_line, cells_words, array_line, sum_line, bound_lines, pair_lines, array_lines, sum_lines};

use crate::digits::{push_number, push_signed};
use crate::told::{Cells, Ends, Kind, Pair, SumStep};
use std::alloc::AllocError;

/// A word and a number.
#[tactic(auto, unfolding(crate::specs::Lines::numbered))]
pub fn push_numbered(text: &mut Vec<u8>, word: &[u8], number: u64) -> Result<(), AllocError>
    ensures { OnOk result (text.new.items ≡ text.old.items ++ numbered word.now number) }
{
    text.extend_from_slice(word)?;
    text.extend_from_slice(b" ")?;
    push_number(text, number)
}

#[tactic(auto, unfolding(crate::specs::Lines::ends_words))]
fn push_ends(text: &mut Vec<u8>, ends: Ends) -> Result<(), AllocError>
    ensures { OnOk result (text.new.items ≡ text.old.items ++ ends_words ends) }
{
    text.extend_from_slice(b" ")?;
    push_signed(text, ends.low)?;
    text.extend_from_slice(b" ")?;
    push_signed(text, ends.high)?;
    text.extend_from_slice(b"\n")
}

#[tactic(auto, unfolding(crate::specs::Lines::bound_line))]
fn push_bound(text: &mut Vec<u8>, variable: u64, ends: Ends) -> Result<(), AllocError>
    ensures { OnOk result (text.new.items ≡ text.old.items ++ bound_line variable ends) }
{
    push_numbered(text, b"bound", variable)?;
    push_ends(text, ends)
}

fn kind_word(kind: Kind) -> &'static [u8]
    ensures { result.now ≡ kind_word kind }
{
    match kind {
        Kind::Minus => b"minus",
        Kind::Plus => b"plus",
    }
}

#[tactic(auto, unfolding(crate::specs::Lines::pair_line))]
fn push_pair(text: &mut Vec<u8>, pair: Pair) -> Result<(), AllocError>
    ensures { OnOk result (text.new.items ≡ text.old.items ++ pair_line pair) }
{
    push_numbered(text, kind_word(pair.kind), u64::from(pair.first) + 1)?;
    text.extend_from_slice(b" ")?;
    push_number(text, u64::from(pair.second) + 1)?;
    push_ends(text, pair.ends)
}

fn push_cells(text: &mut Vec<u8>, held: Cells) -> Result<(), AllocError>
    ensures { OnOk result (text.new.items ≡ text.old.items ++ cells_words held) }
{
    match held {
        Cells::Empty => text.extend_from_slice(b" empty\n"),
        Cells::Range(ends) => push_ends(text, ends),
    }
}

#[tactic(auto, unfolding(crate::specs::Lines::array_line))]
fn push_array(text: &mut Vec<u8>, array: u64, held: Cells) -> Result<(), AllocError>
    ensures { OnOk result (text.new.items ≡ text.old.items ++ array_line array held) }
{
    push_numbered(text, b"array", array)?;
    push_cells(text, held)
}

#[tactic(auto, unfolding(crate::specs::Lines::sum_line))]
fn push_sum(text: &mut Vec<u8>, sum: SumStep) -> Result<(), AllocError>
    ensures { OnOk result (text.new.items ≡ text.old.items ++ sum_line sum) }
{
    push_numbered(text, b"sum", u64::from(sum.variable) + 1)?;
    text.extend_from_slice(b" ")?;
    push_number(text, u64::from(sum.step))?;
    text.extend_from_slice(b"\n")
}

pub fn push_bounds(text: &mut Vec<u8>, bounds: &[Ends]) -> Result<(), AllocError>
    ensures { OnOk result (text.new.items ≡ text.old.items ++ bound_lines 1 bounds.now) }
{
    for (k, ends) in bounds.iter().enumerate() {
        push_bound(text, k as u64 + 1, *ends)?;
    }
    Ok(())
}

pub fn push_pairs(text: &mut Vec<u8>, pairs: &[Pair]) -> Result<(), AllocError>
    ensures { OnOk result (text.new.items ≡ text.old.items ++ pair_lines pairs.now) }
{
    for pair in pairs {
        push_pair(text, *pair)?;
    }
    Ok(())
}

pub fn push_arrays(text: &mut Vec<u8>, arrays: &[Cells]) -> Result<(), AllocError>
    ensures { OnOk result (text.new.items ≡ text.old.items ++ array_lines 1 arrays.now) }
{
    for (k, held) in arrays.iter().enumerate() {
        push_array(text, k as u64 + 1, *held)?;
    }
    Ok(())
}

pub fn push_sums(text: &mut Vec<u8>, sums: &[SumStep]) -> Result<(), AllocError>
    ensures { OnOk result (text.new.items ≡ text.old.items ++ sum_lines sums.now) }
{
    for sum in sums {
        push_sum(text, *sum)?;
    }
    Ok(())
}
