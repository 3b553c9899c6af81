//! The calls that are timed, and the checksum of a pass over what was drawn for them.

use crate::boxes::{BOXES, Drawn};
use crate::octagons::{self, BOUNDS};
use std::alloc::Global;
use std::slice;
use wm_hull::{hull, worst};
use wm_lang::{Place, Token, TokenKind};
use wm_lex::{LexFault, lex};
use wm_ops::NoMemory;

/// A call, and what was drawn for it.
#[derive(Clone, Copy)]
pub(crate) enum Call<'d> {
    Hull(&'d [Drawn]),
    Worst(&'d [Drawn]),
    AddBound(&'d octagons::Drawn),
    CopyAndJoin(&'d octagons::Drawn),
    WithinItself(&'d octagons::Drawn),
    Lex(&'d Vec<u8>),
}

impl<'d> Call<'d> {
    /// How often a pass makes the call; for a source, how many bytes it has.
    pub(crate) fn times(self) -> u32 {
        match self {
            Call::Hull(_) => BOXES,
            Call::Worst(_) => BOXES,
            Call::AddBound(_) => BOUNDS,
            Call::CopyAndJoin(_) => 1,
            Call::WithinItself(_) => 1,
            Call::Lex(text) => u32::try_from(text.len()).unwrap_or(u32::MAX),
        }
    }

    /// The checksum of one pass: for boxes the sum modulo 2^64 of what the call gives on each, for octagons the bound that is
    /// left to the first drawn sum, or whether the one lies within the other, for a source that of its tokens.
    pub(crate) fn pass(self, alloc: Global) -> Result<i64, NoMemory> {
        match self {
            Call::Hull(all) => Ok(sum_of_hulls(all)),
            Call::Worst(all) => Ok(sum_of_worsts(all)),
            Call::AddBound(drawn) => drawn.add_bounds(alloc),
            Call::CopyAndJoin(drawn) => drawn.copy_and_join(alloc),
            Call::WithinItself(drawn) => Ok(drawn.within_itself()),
            Call::Lex(text) => sum_of_source(alloc, text),
        }
    }
}

// A range counts as `low ^ high`, and None as 7.
fn sum_of_hulls(all: &[Drawn]) -> i64 {
    let mut sum: i64 = 0;
    for drawn in all {
        let value = match hull(drawn.op, &drawn.boxes) {
            Some(range) => range.low ^ range.high,
            None => 7,
        };
        sum = sum.wrapping_add(value);
    }
    sum
}

// Three numbers count as their `^`, and None as 7.
fn sum_of_worsts(all: &[Drawn]) -> i64 {
    let mut sum: i64 = 0;
    for drawn in all {
        let value = match worst(drawn.op, &drawn.boxes) {
            Some(failing) => failing[0] ^ failing[1] ^ failing[2],
            None => 7,
        };
        sum = sum.wrapping_add(value);
    }
    sum
}

// The most bytes of a source.
const MOST_BYTES: usize = 1_000_000_000;

// How many numbers 32 bits have.
const NUMBERS: u64 = 4_294_967_296;

// The checksum of a source's tokens, or of its fault.
fn sum_of_source(alloc: Global, text: &Vec<u8>) -> Result<i64, NoMemory> {
    if text.len() > MOST_BYTES {
        return Ok(7);
    }
    match lex(alloc, slice::from_ref(text)) {
        Ok(tokens) => Ok(in_32_bits(sum_of_tokens(&tokens))),
        Err(LexFault::TooManyTokens { place }) => Ok(in_32_bits(with_place(1, place))),
        Err(LexFault::NoMemory) => Err(NoMemory),
        Err(_) => Ok(7),
    }
}

// Each token takes the sum so far times 31, adds its kind and its place, and leaves 32 bits.
fn sum_of_tokens(tokens: &[Token]) -> u64 {
    let mut sum: u64 = 0;
    for token in tokens {
        let more = sum.wrapping_mul(31).wrapping_add(number_of(&token.kind));
        sum = with_place(more, token.place);
    }
    sum
}

fn with_place(sum: u64, place: Place) -> u64 {
    let line = u64::from(place.line).wrapping_mul(1009);
    sum.wrapping_add(line).wrapping_add(u64::from(place.column)) % NUMBERS
}

#[tactic(auto, using(std::proofs::lemmas::Nat::mod_below))]
fn in_32_bits(sum: u64) -> i64 {
    (sum % NUMBERS) as i64
}

// A name counts as its bytes in base 31, a number as its size, a key as 1 and a mark as 2.
fn number_of(kind: &TokenKind) -> u64 {
    match kind {
        TokenKind::Name(name) => in_base_31(name.bytes()),
        TokenKind::Number(value) => value.unsigned_abs(),
        TokenKind::Key(_) => 1,
        TokenKind::Punct(_) => 2,
    }
}

fn in_base_31(bytes: &[u8]) -> u64 {
    let mut number: u64 = 0;
    for byte in bytes {
        number = number.wrapping_mul(31).wrapping_add(u64::from(*byte));
    }
    number
}
