// The third stage: a line as words, numbers and marks (C99 6.4), each with its place.
ghost use Rattle.std.specs.Prelude.{◌≡◌, ◌<◌, ◌≤◌, length, IfOk, OnSome};
ghost use Rattle.wm_lex.specs.Pieces.{pair_at, kind_of_number, kind_of_byte, front_of, pieces, is_hash, lexeme_at};
ghost use Rattle.wm_lex.specs.Punctuation.{single_mark};
ghost use Rattle.wm_lex.specs.Answers.{Gives};

use crate::character::{
    Character, is_digit, is_letter, is_space, number_length, place_of, spelled, word_length,
};
use crate::fault::LexFault;
use crate::lexeme::Lexeme;
use crate::number::number_of;
use crate::punctuation::{pair_mark, single_mark};
use std::alloc::Global;
use wm_lang::{Name, Place, Punct};
use wm_ops::NoMemory;

/// What stands at one place of a line.
#[derive(Drop)]
pub enum PieceKind {
    Whole(Lexeme),
    Hash,
    BadByte,
    BadNumber,
}

/// A piece of a line, its place, and whether white space or the start of the line stands directly before it.
#[derive(Drop)]
pub struct Piece {
    pub kind: PieceKind,
    pub place: Place,
    pub spaced: bool,
}

/// The piece at the front of some characters, and how many characters it has behind its first.
#[derive(Drop)]
pub struct Front {
    pub kind: PieceKind,
    pub more: usize,
}

/// The mark of two bytes whose first stands before the rest.
fn pair_at(byte: u8, rest: &[Character]) -> Option<Punct>
    ensures mark { result ≡ pair_at byte rest.now }
    ensures within { OnSome result (0 < length rest.now) }
{
    match rest.first() {
        None => None,
        Some(next) => pair_mark(byte, next.byte),
    }
}

/// What a number is by its value.
fn kind_of_number(value: Option<i64>) -> PieceKind
    ensures { result ≡ kind_of_number value }
{
    match value {
        None => PieceKind::BadNumber,
        Some(value) => PieceKind::Whole(Lexeme::Number(value)),
    }
}

/// What a byte is that begins no longer piece.
fn kind_of_byte(byte: u8) -> PieceKind
    ensures { result ≡ kind_of_byte byte (single_mark byte) }
{
    match single_mark(byte) {
        Some(mark) => PieceKind::Whole(Lexeme::Mark(mark)),
        None => {
            if byte == b'#' {
                PieceKind::Hash
            } else {
                PieceKind::BadByte
            }
        }
    }
}

#[tactic(auto, unfolding(crate::specs::Pieces::front_of))]
/// The piece that begins with a character, which is no space and stands before the rest.
fn front_of(alloc: Global, first: Character, rest: &[Character]) -> Result<Front, NoMemory>
    ensures front { IfOk result (λ front. front ≡ front_of first rest.now) }
    ensures within { IfOk result (λ front. front.more ≤ length rest.now) }
{
    if is_letter(first.byte) {
        let more = word_length(rest);
        let word = spelled(alloc, first, &rest[..more])?;
        let kind = PieceKind::Whole(Lexeme::Word(Name::new(alloc, &word)?));
        return Ok(Front { kind, more });
    }
    if is_digit(first.byte) {
        let more = number_length(rest);
        let spelling = spelled(alloc, first, &rest[..more])?;
        let kind = kind_of_number(number_of(&spelling));
        return Ok(Front { kind, more });
    }
    match pair_at(first.byte, rest) {
        Some(mark) => Ok(Front {
            kind: PieceKind::Whole(Lexeme::Mark(mark)),
            more: 1,
        }),
        None => Ok(Front {
            kind: kind_of_byte(first.byte),
            more: 0,
        }),
    }
}

/// Whether a piece is a `#`.
pub fn is_hash(kind: &PieceKind) -> bool
    ensures { result ≡ is_hash kind.now }
{
    match kind {
        PieceKind::Whole(_) => false,
        PieceKind::Hash => true,
        PieceKind::BadByte => false,
        PieceKind::BadNumber => false,
    }
}

/// The lexeme that a piece has to be outside directives, or its fault.
pub fn lexeme_at(kind: PieceKind, place: Place) -> Result<Lexeme, LexFault>
    ensures { Gives (λ lexeme. lexeme) result (lexeme_at kind place) }
{
    match kind {
        PieceKind::Whole(lexeme) => Ok(lexeme),
        PieceKind::Hash => Err(LexFault::BadByte { place }),
        PieceKind::BadByte => Err(LexFault::BadByte { place }),
        PieceKind::BadNumber => Err(LexFault::BadNumber { place }),
    }
}

/// The pieces of a line.
pub fn pieces(alloc: Global, file: u32, line: &[Character]) -> Result<Vec<Piece>, NoMemory>
    ensures { IfOk result (λ found. found.items ≡ pieces file line.now) }
{
    let mut found = Vec::new(alloc);
    let mut spaced = true;
    let mut left = line;
    while let Some((first, rest)) = left.split_first() {
        if is_space(first.byte) {
            spaced = true;
            left = rest;
            continue;
        }
        let front = front_of(alloc, *first, rest)?;
        found.push(Piece {
            kind: front.kind,
            place: place_of(file, *first),
            spaced,
        })?;
        spaced = false;
        left = &rest[front.more..];
    }
    Ok(found)
}
