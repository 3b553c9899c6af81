// The whole text.
ghost use Rattle.std.specs.Prelude.{◌≡◌, ◌+◌, ◌<◌, ◌≤◌, ◌^◌, length, IfOk, Some};
ghost use Rattle.wm_cert_read.specs.Whole.{line_length, first_item, behind_line, is_end, finished, moved_to, moved, stepped, read_from, from_head, from_third, from_second, from_version, from_first, read, Reads};

use crate::begin::{after, begun, heads_of, lacks_sums, may_end};
use crate::fault::TextFault;
use crate::reading::{Reading, Step};
use std::alloc::Global;
use wm_cert_lines::{Item, item_of};
use wm_cert_text::{Head, HeadName};
use wm_ops::{List, NoMemory};

/// How many bytes stand before the first line feed.
fn line_length(text: &[u8]) -> usize
    ensures count { result ≡ line_length text.now }
    ensures within { result ≤ length text.now }
{
    for (index, byte) in text.iter().enumerate() {
        if *byte == b'\n' {
            return index;
        }
    }
    text.len()
}

/// What the first line tells; None where it is none, or its line feed is not there.
#[tactic(auto, unfolding(crate::specs::Whole::first_item))]
fn first_item(text: &[u8]) -> Option<Item>
    ensures { result ≡ first_item text.now }
{
    let end = line_length(text);
    if end < text.len() {
        return item_of(&text[..end]);
    }
    None
}

#[tactic(auto, unfolding(crate::specs::Whole::behind_line))]
fn behind_line(text: &[u8]) -> &[u8]
    ensures { result.now ≡ behind_line text.now }
{
    let end = line_length(text);
    if end < text.len() {
        return &text[end + 1..];
    }
    &[]
}

fn is_end_item(item: Item) -> bool
    ensures { result ≡ is_end (Some item) }
{
    match item {
        Item::Version { .. } => false,
        Item::Heads { .. } => false,
        Item::Head { .. } => false,
        Item::Sum(_sum) => false,
        Item::Empty => false,
        Item::Bound { .. } => false,
        Item::Pair(_pair) => false,
        Item::Array { .. } => false,
        Item::End => true,
    }
}

fn is_end(item: Option<Item>) -> bool
    ensures { result ≡ is_end item }
{
    match item {
        None => false,
        Some(item) => is_end_item(item),
    }
}

/// The last line, which stands at the end of the text.
#[tactic(auto, unfolding(crate::specs::Whole::finished))]
fn finished(reading: Reading, line: u64, behind: &[u8]) -> Result<Step, NoMemory>
    requires { line < 2 ^ 63 + 4 }
    ensures { IfOk result (λ step. step ≡ finished reading line behind.now) }
{
    if may_end(&reading) {
        if behind.len() == 0 {
            return Ok(Step::Done(heads_of(reading)?));
        }
        return Ok(Step::Fault(line + 1));
    }
    Ok(Step::Fault(line))
}

fn moved_to(next: Option<Reading>, line: u64) -> Step
    ensures { result ≡ moved_to next line }
{
    match next {
        None => Step::Fault(line),
        Some(next) => Step::Next(next),
    }
}

fn moved(alloc: Global, reading: Reading, line: u64, item: Option<Item>) -> Result<Step, NoMemory>
    ensures { IfOk result (λ step. step ≡ moved reading line item) }
{
    match item {
        None => Ok(Step::Fault(line)),
        Some(item) => Ok(moved_to(after(alloc, reading, item)?, line)),
    }
}

/// One more line.
#[tactic(auto, unfolding(crate::specs::Whole::stepped))]
fn stepped(alloc: Global, reading: Reading, line: u64, text: &[u8]) -> Result<Step, NoMemory>
    requires { line < 2 ^ 63 + 4 }
    ensures { IfOk result (λ step. step ≡ stepped reading line text.now) }
{
    let item = first_item(text);
    if is_end(item) {
        return finished(reading, line, behind_line(text));
    }
    moved(alloc, reading, line, item)
}

/// The lines behind the first head's, which is the third.
fn read_from(alloc: Global, reading: Reading, text: &[u8]) -> Result<List<Head>, TextFault>
    ensures { Reads result (read_from text.now reading 4 text.now) }
{
    let mut reading = reading;
    let mut rest = text;
    let mut line: u64 = 4;
    for byte in text {
        let _byte = *byte;
        match stepped(alloc, reading, line, rest)? {
            Step::Done(heads) => return Ok(heads),
            Step::Fault(line) => return Err(TextFault::BadText { line }),
            Step::Next(next) => {
                reading = next;
                rest = behind_line(rest);
                line += 1;
            }
        }
    }
    Err(TextFault::BadText { line })
}

#[tactic(auto, unfolding(crate::specs::Whole::from_head))]
fn from_head(
    alloc: Global,
    pairs_allowed: bool,
    second: bool,
    last: u32,
    head: u32,
    name: HeadName,
    behind: &[u8],
) -> Result<List<Head>, TextFault>
    ensures { Reads result (from_head pairs_allowed second last head name behind.now) }
{
    if head != 0 {
        return Err(TextFault::BadText { line: 3 });
    }
    if lacks_sums(second, last, false, head, name) {
        return Err(TextFault::BadText { line: 3 });
    }
    let reading = begun(
        alloc,
        pairs_allowed,
        second,
        last,
        false,
        List::new(alloc),
        name,
    );
    read_from(alloc, reading, behind)
}

/// The third line, the first head's.
fn from_third(
    alloc: Global,
    pairs_allowed: bool,
    second: bool,
    last: u32,
    item: Option<Item>,
    behind: &[u8],
) -> Result<List<Head>, TextFault>
    ensures { Reads result (from_third pairs_allowed second last item behind.now) }
{
    match item {
        None => Err(TextFault::BadText { line: 3 }),
        Some(item) => match item {
            Item::Version { .. } => Err(TextFault::BadText { line: 3 }),
            Item::Heads { .. } => Err(TextFault::BadText { line: 3 }),
            Item::Head { head, name } => {
                from_head(alloc, pairs_allowed, second, last, head, name, behind)
            }
            Item::Sum(_sum) => Err(TextFault::BadText { line: 3 }),
            Item::Empty => Err(TextFault::BadText { line: 3 }),
            Item::Bound { .. } => Err(TextFault::BadText { line: 3 }),
            Item::Pair(_pair) => Err(TextFault::BadText { line: 3 }),
            Item::Array { .. } => Err(TextFault::BadText { line: 3 }),
            Item::End => Err(TextFault::BadText { line: 3 }),
        },
    }
}

/// The second line, the number of heads.
fn from_second(
    alloc: Global,
    pairs_allowed: bool,
    second: bool,
    item: Option<Item>,
    behind: &[u8],
) -> Result<List<Head>, TextFault>
    ensures { Reads result (from_second pairs_allowed second item behind.now) }
{
    match item {
        None => Err(TextFault::BadText { line: 2 }),
        Some(item) => match item {
            Item::Version { .. } => Err(TextFault::BadText { line: 2 }),
            Item::Heads { last } => {
                let third = first_item(behind);
                from_third(
                    alloc,
                    pairs_allowed,
                    second,
                    last,
                    third,
                    behind_line(behind),
                )
            }
            Item::Head { .. } => Err(TextFault::BadText { line: 2 }),
            Item::Sum(_sum) => Err(TextFault::BadText { line: 2 }),
            Item::Empty => Err(TextFault::BadText { line: 2 }),
            Item::Bound { .. } => Err(TextFault::BadText { line: 2 }),
            Item::Pair(_pair) => Err(TextFault::BadText { line: 2 }),
            Item::Array { .. } => Err(TextFault::BadText { line: 2 }),
            Item::End => Err(TextFault::BadText { line: 2 }),
        },
    }
}

fn from_version(
    alloc: Global,
    pairs_allowed: bool,
    second: bool,
    behind: &[u8],
) -> Result<List<Head>, TextFault>
    ensures { Reads result (from_version pairs_allowed second behind.now) }
{
    if second {
        if !pairs_allowed {
            return Err(TextFault::BadText { line: 1 });
        }
        let item = first_item(behind);
        return from_second(alloc, pairs_allowed, true, item, behind_line(behind));
    }
    let item = first_item(behind);
    from_second(alloc, pairs_allowed, false, item, behind_line(behind))
}

/// The first line, the version.
fn from_first(
    alloc: Global,
    pairs_allowed: bool,
    item: Option<Item>,
    behind: &[u8],
) -> Result<List<Head>, TextFault>
    ensures { Reads result (from_first pairs_allowed item behind.now) }
{
    match item {
        None => Err(TextFault::BadText { line: 1 }),
        Some(item) => match item {
            Item::Version { second } => from_version(alloc, pairs_allowed, second, behind),
            Item::Heads { .. } => Err(TextFault::BadText { line: 1 }),
            Item::Head { .. } => Err(TextFault::BadText { line: 1 }),
            Item::Sum(_sum) => Err(TextFault::BadText { line: 1 }),
            Item::Empty => Err(TextFault::BadText { line: 1 }),
            Item::Bound { .. } => Err(TextFault::BadText { line: 1 }),
            Item::Pair(_pair) => Err(TextFault::BadText { line: 1 }),
            Item::Array { .. } => Err(TextFault::BadText { line: 1 }),
            Item::End => Err(TextFault::BadText { line: 1 }),
        },
    }
}

/// The heads of a certificate's text, or the first line through which the bytes begin no text. Where pairs are not
/// allowed, the lines of pairs and the version with sum counters belong to no text.
pub fn read(alloc: Global, pairs_allowed: bool, text: &[u8]) -> Result<List<Head>, TextFault>
    ensures read { Reads result (read pairs_allowed text.now) }
{
    let item = first_item(text);
    from_first(alloc, pairs_allowed, item, behind_line(text))
}
