// The words of a gap in a certificate.
ghost use Rattle.std.specs.Prelude.{◌≡◌, ◌++◌, OnOk};
ghost use Rattle.wm_report.specs.Gap.{numbered, numbered_pair, line_words, allowed_word, gap_edge, gap_line, gap_bounds, gap_words};

use crate::words::{edge_word, end_word};
use std::alloc::AllocError;
use wm_cert::{Gap, Line};
use wm_digits::{push_number, push_signed};

/// A word and a number, which counts from 1 in a text.
#[tactic(auto, unfolding(crate::specs::Gap::numbered))]
fn push_numbered(text: &mut Vec<u8>, word: &[u8], number: u32) -> Result<(), AllocError>
    ensures { OnOk result (text.new.items ≡ text.old.items ++ numbered word.now number) }
{
    text.extend_from_slice(word)?;
    text.extend_from_slice(b" ")?;
    push_number(text, u64::from(number) + 1)
}

#[tactic(auto, unfolding(crate::specs::Gap::numbered_pair))]
fn push_pair(text: &mut Vec<u8>, word: &[u8], first: u32, second: u32) -> Result<(), AllocError>
    ensures { OnOk result (text.new.items ≡ text.old.items ++ numbered_pair word.now first second) }
{
    push_numbered(text, word, first)?;
    text.extend_from_slice(b" ")?;
    push_number(text, u64::from(second) + 1)
}

fn push_line(text: &mut Vec<u8>, line: Line) -> Result<(), AllocError>
    ensures { OnOk result (text.new.items ≡ text.old.items ++ line_words line) }
{
    match line {
        Line::Bound { variable } => push_numbered(text, b"bound", variable),
        Line::Minus { first, second } => push_pair(text, b"minus", first, second),
        Line::Plus { first, second } => push_pair(text, b"plus", first, second),
        Line::Array { array } => push_numbered(text, b"array", array),
    }
}

fn push_allowed(text: &mut Vec<u8>, allowed: Option<i64>) -> Result<(), AllocError>
    ensures { OnOk result (text.new.items ≡ text.old.items ++ allowed_word allowed) }
{
    match allowed {
        None => text.extend_from_slice(b"none"),
        Some(z) => push_signed(text, z),
    }
}

/// The head and the edge.
fn push_gap_edge(text: &mut Vec<u8>, gap: Gap) -> Result<(), AllocError>
    ensures { OnOk result (text.new.items ≡ text.old.items ++ gap_edge gap) }
{
    push_numbered(text, b"NotInductive head", gap.head)?;
    text.extend_from_slice(b" ")?;
    text.extend_from_slice(edge_word(gap.back))?;
    Ok(())
}

/// The line and the end.
#[tactic(auto, unfolding(crate::specs::Gap::gap_line))]
fn push_gap_line(text: &mut Vec<u8>, gap: Gap) -> Result<(), AllocError>
    ensures { OnOk result (text.new.items ≡ text.old.items ++ gap_line gap) }
{
    text.extend_from_slice(b" ")?;
    push_line(text, gap.line)?;
    text.extend_from_slice(b" ")?;
    text.extend_from_slice(end_word(gap.end))
}

/// The bound of the image and that of the head's state.
#[tactic(auto, unfolding(crate::specs::Gap::gap_bounds))]
fn push_gap_bounds(text: &mut Vec<u8>, gap: Gap) -> Result<(), AllocError>
    ensures { OnOk result (text.new.items ≡ text.old.items ++ gap_bounds gap) }
{
    text.extend_from_slice(b" have ")?;
    push_signed(text, gap.have)?;
    text.extend_from_slice(b" allowed ")?;
    push_allowed(text, gap.allowed)
}

#[tactic(auto, unfolding(crate::specs::Gap::gap_words))]
pub fn push_gap(text: &mut Vec<u8>, gap: Gap) -> Result<(), AllocError>
    ensures { OnOk result (text.new.items ≡ text.old.items ++ gap_words gap) }
{
    push_gap_edge(text, gap)?;
    push_gap_line(text, gap)?;
    push_gap_bounds(text, gap)
}
