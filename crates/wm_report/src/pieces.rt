// The pieces of a fault's line: places, keys and names.
ghost use Rattle.std.specs.Prelude.{◌≡◌, ◌++◌, decimal, OnOk};
ghost use Rattle.wm_report.specs.Fault.{place_text, place_or_end, place_behind, shown_byte, shown_key, named, sample_of, number_of_cell};

use crate::fault::At;
use std::alloc::AllocError;
use wm_digits::{push_number, push_signed, push_wide};
use wm_lang::Name;

/// FILE:LINE:COLUMN
#[tactic(auto, unfolding(crate::specs::Fault::place_text))]
fn push_place(text: &mut Vec<u8>, at: &At) -> Result<(), AllocError>
    ensures { OnOk result (text.new.items ≡ text.old.items ++ place_text at.now) }
{
    text.extend_from_slice(at.file.bytes())?;
    text.extend_from_slice(b":")?;
    push_number(text, u64::from(at.line))?;
    text.extend_from_slice(b":")?;
    push_number(text, u64::from(at.column))
}

/// A place, or `end` behind the last token.
pub fn push_place_or_end(text: &mut Vec<u8>, at: &Option<At>) -> Result<(), AllocError>
    ensures { OnOk result (text.new.items ≡ text.old.items ++ place_or_end at.now) }
{
    match at {
        None => text.extend_from_slice(b"end"),
        Some(at) => push_place(text, at),
    }
}

/// A space and a place, or nothing for the whole program.
pub fn push_place_behind(text: &mut Vec<u8>, at: &Option<At>) -> Result<(), AllocError>
    ensures { OnOk result (text.new.items ≡ text.old.items ++ place_behind at.now) }
{
    match at {
        None => Ok(()),
        Some(at) => {
            text.extend_from_slice(b" ")?;
            push_place(text, at)
        }
    }
}

/// A byte of a key as it is printed.
fn shown_byte(byte: u8) -> u8
    ensures { result ≡ shown_byte byte }
{
    if byte < 33 {
        b'?'
    } else if byte > 126 {
        b'?'
    } else {
        byte
    }
}

fn push_shown(text: &mut Vec<u8>, key: &[u8]) -> Result<(), AllocError>
    ensures { OnOk result (text.new.items ≡ text.old.items ++ shown_key key.now) }
{
    for byte in key {
        text.push(shown_byte(*byte))?;
    }
    Ok(())
}

/// A word and what it names.
#[tactic(auto, unfolding(crate::specs::Fault::named))]
pub fn push_named(text: &mut Vec<u8>, word: &[u8], name: &[u8]) -> Result<(), AllocError>
    ensures { OnOk result (text.new.items ≡ text.old.items ++ named word.now name.now) }
{
    text.extend_from_slice(word)?;
    text.extend_from_slice(b" ")?;
    text.extend_from_slice(name)
}

/// A word and a key.
#[tactic(auto, unfolding(crate::specs::Fault::named))]
pub fn push_keyed(text: &mut Vec<u8>, word: &[u8], key: &Name) -> Result<(), AllocError>
    ensures { OnOk result (text.new.items ≡ text.old.items ++ named word.now (shown_key key.now)) }
{
    text.extend_from_slice(word)?;
    text.extend_from_slice(b" ")?;
    push_shown(text, key.bytes())
}

/// A word and a number.
#[tactic(auto, unfolding(crate::specs::Fault::named))]
pub fn push_counted(text: &mut Vec<u8>, word: &[u8], number: u64) -> Result<(), AllocError>
    ensures { OnOk result (text.new.items ≡ text.old.items ++ named word.now (decimal number)) }
{
    text.extend_from_slice(word)?;
    text.extend_from_slice(b" ")?;
    push_number(text, number)
}

/// The frame and the input of a sample.
fn push_sample(text: &mut Vec<u8>, frame: u64, name: &[u8]) -> Result<(), AllocError>
    ensures { OnOk result (text.new.items ≡ text.old.items ++ sample_of frame name.now) }
{
    text.extend_from_slice(b"OutOfRange frame ")?;
    push_wide(text, u128::from(frame) + 1)?;
    text.extend_from_slice(b" ")?;
    text.extend_from_slice(name)?;
    Ok(())
}

/// A cell, and the number there.
#[tactic(auto, unfolding(crate::specs::Fault::number_of_cell))]
fn push_cell(text: &mut Vec<u8>, cell: u32, value: i64) -> Result<(), AllocError>
    ensures { OnOk result (text.new.items ≡ text.old.items ++ number_of_cell cell value) }
{
    text.extend_from_slice(b" cell ")?;
    push_number(text, u64::from(cell))?;
    text.extend_from_slice(b" value ")?;
    push_signed(text, value)
}

/// The frame, the input and the cell of a sample, and the number there.
pub fn push_out_of_range(
    text: &mut Vec<u8>,
    frame: u64,
    name: &[u8],
    cell: u32,
    value: i64,
) -> Result<(), AllocError>
    ensures { OnOk result (text.new.items ≡ text.old.items ++ (sample_of frame name.now ++ number_of_cell cell value)) }
{
    push_sample(text, frame, name)?;
    push_cell(text, cell, value)
}
