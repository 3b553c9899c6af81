// The forms of the lines.
ghost use Rattle.std.specs.Prelude.{◌≡◌};
ghost use Rattle.wm_cert_lines.specs.Numbers.{ordinal};
ghost use Rattle.wm_cert_lines.specs.Forms.{ordered, ends_of, narrow, bound_with, bound_of, pair_with, pair_of, array_with, range_of, cells_of, array_of, sum_with, sum_of, heads_with, loop_with, loop_of, name_of, head_with, head_of, bounding, naming, item_of};

use crate::items::Item;
use crate::numbers::{ordinal, whole};
use crate::words::{rest, word};
use wm_cert_text::{Cells, Ends, HeadName, Kind, Pair, SumStep};

fn ordered(low: Option<i64>, high: Option<i64>) -> Option<Ends>
    ensures { result ≡ ordered low high }
{
    match low {
        None => None,
        Some(low) => match high {
            None => None,
            Some(high) => {
                if low <= high {
                    return Some(Ends { low, high });
                }
                None
            }
        },
    }
}

/// Two numbers in order.
#[tactic(auto, unfolding(crate::specs::Forms::ends_of))]
fn ends_of(line: &[u8]) -> Option<Ends>
    ensures { result ≡ ends_of line.now }
{
    ordered(whole(word(line)), whole(rest(line)))
}

/// Two numbers of 32 bits.
fn narrow(ends: Option<Ends>) -> Option<Ends>
    ensures { result ≡ narrow ends }
{
    match ends {
        None => None,
        Some(ends) => {
            if ends.low < -2_147_483_648 {
                return None;
            }
            if ends.high > 2_147_483_647 {
                return None;
            }
            Some(ends)
        }
    }
}

fn bound_with(variable: Option<u32>, ends: Option<Ends>) -> Option<Item>
    ensures { result ≡ bound_with variable ends }
{
    match variable {
        None => None,
        Some(variable) => match ends {
            None => None,
            Some(ends) => Some(Item::Bound { variable, ends }),
        },
    }
}

#[tactic(auto, unfolding(crate::specs::Forms::bound_of))]
fn bound_of(line: &[u8]) -> Option<Item>
    ensures { result ≡ bound_of line.now }
{
    bound_with(ordinal(word(line)), narrow(ends_of(rest(line))))
}

fn pair_with(
    kind: Kind,
    first: Option<u32>,
    second: Option<u32>,
    ends: Option<Ends>,
) -> Option<Item>
    ensures { result ≡ pair_with kind first second ends }
{
    match first {
        None => None,
        Some(first) => match second {
            None => None,
            Some(second) => match ends {
                None => None,
                Some(ends) => Some(Item::Pair(Pair {
                    kind,
                    first,
                    second,
                    ends,
                })),
            },
        },
    }
}

#[tactic(auto, unfolding(crate::specs::Forms::pair_of))]
fn pair_of(kind: Kind, line: &[u8]) -> Option<Item>
    ensures { result ≡ pair_of kind line.now }
{
    let behind = rest(line);
    pair_with(
        kind,
        ordinal(word(line)),
        ordinal(word(behind)),
        ends_of(rest(behind)),
    )
}

fn array_with(array: Option<u32>, held: Option<Cells>) -> Option<Item>
    ensures { result ≡ array_with array held }
{
    match array {
        None => None,
        Some(array) => match held {
            None => None,
            Some(held) => Some(Item::Array { array, held }),
        },
    }
}

fn range_of(ends: Option<Ends>) -> Option<Cells>
    ensures { result ≡ range_of ends }
{
    match ends {
        None => None,
        Some(ends) => Some(Cells::Range(ends)),
    }
}

#[tactic(auto, unfolding(crate::specs::Forms::cells_of))]
fn cells_of(line: &[u8]) -> Option<Cells>
    ensures { result ≡ cells_of line.now }
{
    if line == b"empty".as_slice() {
        return Some(Cells::Empty);
    }
    range_of(narrow(ends_of(line)))
}

#[tactic(auto, unfolding(crate::specs::Forms::array_of))]
fn array_of(line: &[u8]) -> Option<Item>
    ensures { result ≡ array_of line.now }
{
    array_with(ordinal(word(line)), cells_of(rest(line)))
}

fn sum_with(variable: Option<u32>, step: Option<u32>) -> Option<Item>
    ensures { result ≡ sum_with variable step }
{
    match variable {
        None => None,
        Some(variable) => match step {
            None => None,
            Some(step) => {
                if variable > 19 {
                    return None;
                }
                if step > 2_147_483_646 {
                    return None;
                }
                Some(Item::Sum(SumStep {
                    variable,
                    step: step + 1,
                }))
            }
        },
    }
}

#[tactic(auto, unfolding(crate::specs::Forms::sum_of))]
fn sum_of(line: &[u8]) -> Option<Item>
    ensures { result ≡ sum_of line.now }
{
    sum_with(ordinal(word(line)), ordinal(rest(line)))
}

fn heads_with(last: Option<u32>) -> Option<Item>
    ensures { result ≡ heads_with last }
{
    match last {
        None => None,
        Some(last) => Some(Item::Heads { last }),
    }
}

fn loop_with(loop_id: Option<u32>, fits: bool, instance: Option<u32>) -> Option<HeadName>
    ensures { result ≡ loop_with loop_id fits instance }
{
    match loop_id {
        None => None,
        Some(loop_id) => {
            if !fits {
                return None;
            }
            match instance {
                None => None,
                Some(instance) => Some(HeadName::Loop { loop_id, instance }),
            }
        }
    }
}

#[tactic(auto, unfolding(crate::specs::Forms::loop_of))]
fn loop_of(line: &[u8]) -> Option<HeadName>
    ensures { result ≡ loop_of line.now }
{
    let behind = rest(line);
    let fits = word(behind) == b"instance".as_slice();
    loop_with(ordinal(word(line)), fits, ordinal(rest(behind)))
}

#[tactic(auto, unfolding(crate::specs::Forms::name_of))]
fn name_of(line: &[u8]) -> Option<HeadName>
    ensures { result ≡ name_of line.now }
{
    if line == b"frame".as_slice() {
        return Some(HeadName::Frame);
    }
    if word(line) == b"loop".as_slice() {
        return loop_of(rest(line));
    }
    None
}

fn head_with(head: Option<u32>, name: Option<HeadName>) -> Option<Item>
    ensures { result ≡ head_with head name }
{
    match head {
        None => None,
        Some(head) => match name {
            None => None,
            Some(name) => Some(Item::Head { head, name }),
        },
    }
}

#[tactic(auto, unfolding(crate::specs::Forms::head_of))]
fn head_of(line: &[u8]) -> Option<Item>
    ensures { result ≡ head_of line.now }
{
    head_with(ordinal(word(line)), name_of(rest(line)))
}

/// A line that bounds something, by its first word.
#[tactic(auto, unfolding(crate::specs::Forms::bounding))]
fn bounding(first: &[u8], line: &[u8]) -> Option<Item>
    ensures { result ≡ bounding first.now line.now }
{
    if first == b"bound".as_slice() {
        return bound_of(line);
    }
    if first == b"minus".as_slice() {
        return pair_of(Kind::Minus, line);
    }
    if first == b"plus".as_slice() {
        return pair_of(Kind::Plus, line);
    }
    if first == b"array".as_slice() {
        return array_of(line);
    }
    None
}

#[tactic(auto, unfolding(crate::specs::Forms::naming))]
fn naming(first: &[u8], line: &[u8]) -> Option<Item>
    ensures { result ≡ naming first.now line.now }
{
    if first == b"head".as_slice() {
        return head_of(line);
    }
    if first == b"sum".as_slice() {
        return sum_of(line);
    }
    if first == b"heads".as_slice() {
        return heads_with(ordinal(line));
    }
    bounding(first, line)
}

/// What a line tells, without its line feed; None where no certificate has such a line.
#[tactic(auto, unfolding(crate::specs::Forms::item_of))]
pub fn item_of(line: &[u8]) -> Option<Item>
    ensures item { result ≡ item_of line.now }
{
    if line == b"empty".as_slice() {
        return Some(Item::Empty);
    }
    if line == b"end".as_slice() {
        return Some(Item::End);
    }
    if line == b"wmops certificate 1".as_slice() {
        return Some(Item::Version { second: false });
    }
    if line == b"wmops certificate 2".as_slice() {
        return Some(Item::Version { second: true });
    }
    naming(word(line), rest(line))
}
