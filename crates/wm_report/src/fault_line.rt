// The one line of a refusal, and the status with which it ends.
ghost use Rattle.std.specs.Prelude.{◌≡◌, ◌++◌, codes, OnOk, IfOk};
ghost use Rattle.wm_report.specs.Fault.{named, place_or_end, place_behind, fault_words, status_of, fault_text};
ghost use Rattle.wm_report.specs.Words.{source_word, what_word};

use crate::fault::{At, RunFault, SourceName};
use crate::gap_words::push_gap;
use crate::pieces::{
    push_counted, push_keyed, push_named, push_out_of_range, push_place_behind, push_place_or_end,
};
use crate::words::{source_word, what_word};
use std::alloc::{AllocError, Global};
use wm_digits::push_number;
use wm_ops::{NoMemory, counted_name};
use wm_program::What;

/// The status of a refusal: 2 for the sources, 3 for specification, weights and samples, 4 for a certificate, 5 for a
/// read, 6 for a write, 7 for want of memory, 8 for the words.
pub fn status_of(fault: &RunFault) -> u8
    ensures status { result ≡ status_of fault.now }
{
    match fault {
        RunFault::SourcesTooLong => 2,
        RunFault::Source { .. } => 2,
        RunFault::TooMany { .. } => 2,
        RunFault::NoFrame { .. } => 2,
        RunFault::NoInit { .. } => 2,
        RunFault::BadInput { .. } => 2,
        RunFault::FileTooLong { .. } => 3,
        RunFault::NotToml { .. } => 3,
        RunFault::MissingKey { .. } => 3,
        RunFault::UnknownKey { .. } => 3,
        RunFault::BadValue { .. } => 3,
        RunFault::BadKey { .. } => 3,
        RunFault::BadNumber { .. } => 3,
        RunFault::MissingWeight { .. } => 3,
        RunFault::Rest { .. } => 3,
        RunFault::OutOfRange { .. } => 3,
        RunFault::CertificateTooLong => 4,
        RunFault::BadText { .. } => 4,
        RunFault::WrongHeads => 4,
        RunFault::NotInductive { .. } => 4,
        RunFault::ReadFailed { .. } => 5,
        RunFault::WriteFailed { .. } => 6,
        RunFault::Memory => 7,
        RunFault::Words => 8,
    }
}

#[tactic(auto, unfolding(crate::specs::Fault::named))]
fn push_source(text: &mut Vec<u8>, fault: SourceName, at: &Option<At>) -> Result<(), AllocError>
    ensures { OnOk result (text.new.items ≡ text.old.items ++ named (source_word fault) (place_or_end at.now)) }
{
    text.extend_from_slice(source_word(fault))?;
    text.extend_from_slice(b" ")?;
    push_place_or_end(text, at)
}

fn push_too_many(text: &mut Vec<u8>, what: What, at: &Option<At>) -> Result<(), AllocError>
    ensures { OnOk result (text.new.items ≡ text.old.items ++ (named (codes "TooMany") (what_word what) ++ place_behind at.now)) }
{
    push_named(text, b"TooMany", what_word(what))?;
    push_place_behind(text, at)
}

/// What the line says behind the status.
fn push_words(text: &mut Vec<u8>, fault: &RunFault) -> Result<(), AllocError>
    ensures { OnOk result (text.new.items ≡ text.old.items ++ fault_words fault.now) }
{
    match fault {
        RunFault::SourcesTooLong => text.extend_from_slice(b"TooLong"),
        RunFault::Source { fault, at } => push_source(text, *fault, at),
        RunFault::TooMany { what, at } => push_too_many(text, *what, at),
        RunFault::NoFrame { name } => push_named(text, b"NoFrame", name.bytes()),
        RunFault::NoInit { name } => push_named(text, b"NoInit", name.bytes()),
        RunFault::BadInput { name } => push_named(text, b"BadInput", name.bytes()),
        RunFault::FileTooLong { name } => push_named(text, b"TooLong", name.bytes()),
        RunFault::NotToml { name } => push_named(text, b"NotToml", name.bytes()),
        RunFault::MissingKey { key } => push_keyed(text, b"MissingKey", key),
        RunFault::UnknownKey { key } => push_keyed(text, b"UnknownKey", key),
        RunFault::BadValue { key } => push_keyed(text, b"BadValue", key),
        RunFault::BadKey { key } => push_keyed(text, b"BadKey", key),
        RunFault::BadNumber { key } => push_keyed(text, b"BadNumber", key),
        RunFault::MissingWeight { word } => {
            push_named(text, b"MissingWeight", counted_name(*word))
        }
        RunFault::Rest { bytes } => push_counted(text, b"Rest", *bytes),
        RunFault::OutOfRange {
            frame,
            name,
            cell,
            value,
        } => push_out_of_range(text, *frame, name.bytes(), *cell, *value),
        RunFault::CertificateTooLong => text.extend_from_slice(b"TooLong"),
        RunFault::BadText { line } => push_counted(text, b"BadText line", *line),
        RunFault::WrongHeads => text.extend_from_slice(b"WrongHeads"),
        RunFault::NotInductive { gap } => push_gap(text, *gap),
        RunFault::ReadFailed { name } => push_named(text, b"read", name.bytes()),
        RunFault::WriteFailed { name } => push_named(text, b"write", name.bytes()),
        RunFault::Memory => text.extend_from_slice(b"memory"),
        RunFault::Words => text.extend_from_slice(b"words"),
    }
}

/// The line of a refusal, with its line feed: `fault`, the status, and what is wrong. Numbers that count from 0 in the
/// program count from 1 there, but for cells. Names are printed as their bytes are; a byte of a key outside 33 to 126 is
/// printed as a question mark.
#[tactic(auto, unfolding(crate::specs::Fault::fault_text))]
pub fn fault_text(alloc: Global, fault: &RunFault) -> Result<Vec<u8>, NoMemory>
    ensures text { IfOk result (λ text. text.items ≡ fault_text fault.now) }
{
    let mut text = Vec::from_slice(alloc, b"fault ")?;
    push_number(&mut text, u64::from(status_of(fault)))?;
    text.extend_from_slice(b" ")?;
    push_words(&mut text, fault)?;
    text.extend_from_slice(b"\n")?;
    Ok(text)
}
