// Directive lines (C99 6.10 in the profile).
ghost use Rattle.std.specs.Prelude.{◌≡◌};
ghost use Rattle.std.specs.Option.{option_copied};
ghost use Rattle.wm_lex.specs.Answers.{Gives};
ghost use Rattle.wm_lex.specs.Lines.{word_in, word_of, is_left_parenthesis, is_parenthesis, opens_directly, is_lexeme, are_lexemes, is_list, lexemes_of, after_list, after_define, after_undef, after_hash};
ghost use Rattle.wm_lex.specs.Macros.{list_of};
ghost use Rattle.wm_lex.specs.Pieces.{lexeme_at};

use crate::definitions::{Definitions, Macro, Replacement};
use crate::fault::LexFault;
use crate::lexeme::{Lexeme, copied, same_lexeme};
use crate::piece::{Piece, PieceKind};
use crate::punctuation::mark_number;
use std::alloc::Global;
use wm_lang::{Name, Place, Punct};

/// The word that a piece is.
fn word_in(kind: &PieceKind) -> Option<&[u8]>
    ensures { option_copied result ≡ word_in kind.now }
{
    match kind {
        PieceKind::Whole(lexeme) => word_of(lexeme),
        PieceKind::Hash => None,
        PieceKind::BadByte => None,
        PieceKind::BadNumber => None,
    }
}

fn word_of(lexeme: &Lexeme) -> Option<&[u8]>
    ensures { option_copied result ≡ word_of lexeme.now }
{
    match lexeme {
        Lexeme::Word(name) => Some(name.bytes()),
        Lexeme::Number(_) => None,
        Lexeme::Mark(_) => None,
    }
}

fn is_left_parenthesis(lexeme: &Lexeme) -> bool
    ensures { result ≡ is_left_parenthesis lexeme.now }
{
    match lexeme {
        Lexeme::Word(_) => false,
        Lexeme::Number(_) => false,
        Lexeme::Mark(mark) => mark_number(*mark) == mark_number(Punct::LeftParenthesis),
    }
}

/// Whether a piece is a left parenthesis.
fn is_parenthesis(kind: &PieceKind) -> bool
    ensures { result ≡ is_parenthesis kind.now }
{
    match kind {
        PieceKind::Whole(lexeme) => is_left_parenthesis(lexeme),
        PieceKind::Hash => false,
        PieceKind::BadByte => false,
        PieceKind::BadNumber => false,
    }
}

/// Whether the pieces behind a name begin with a parenthesis directly behind it.
fn opens_directly(pieces: &[Piece]) -> bool
    ensures { result ≡ opens_directly pieces.now }
{
    match pieces.first() {
        None => false,
        Some(piece) => !piece.spaced && is_parenthesis(&piece.kind),
    }
}

/// Whether a piece is this lexeme.
fn is_lexeme(lexeme: &Lexeme, kind: &PieceKind) -> bool
    ensures { result ≡ is_lexeme lexeme.now kind.now }
{
    match kind {
        PieceKind::Whole(other) => same_lexeme(lexeme, other),
        PieceKind::Hash => false,
        PieceKind::BadByte => false,
        PieceKind::BadNumber => false,
    }
}

/// Whether pieces are these lexemes.
fn are_lexemes(lexemes: &[Lexeme], pieces: &[Piece]) -> bool
    ensures { result ≡ are_lexemes lexemes.now pieces.now }
{
    if lexemes.len() != pieces.len() {
        return false;
    }
    for (index, lexeme) in lexemes.iter().enumerate() {
        if !is_lexeme(lexeme, &pieces[index].kind) {
            return false;
        }
    }
    true
}

/// The lexemes of pieces, or the first fault among them.
fn lexemes_of(alloc: Global, pieces: &[Piece]) -> Result<Vec<Lexeme>, LexFault>
    ensures { Gives (λ lexemes. lexemes.items) result (lexemes_of pieces.now) }
{
    let mut lexemes = Vec::with_capacity(alloc, pieces.len())?;
    for piece in pieces {
        lexemes.push(copied_at(alloc, &piece.kind, piece.place)?)?;
    }
    Ok(lexemes)
}

/// The lexeme that a piece is, or its fault.
fn copied_at(alloc: Global, kind: &PieceKind, place: Place) -> Result<Lexeme, LexFault>
    ensures { Gives (λ lexeme. lexeme) result (lexeme_at kind.now place) }
{
    match kind {
        PieceKind::Whole(lexeme) => Ok(copied(alloc, lexeme)?),
        PieceKind::Hash => Err(LexFault::BadByte { place }),
        PieceKind::BadByte => Err(LexFault::BadByte { place }),
        PieceKind::BadNumber => Err(LexFault::BadNumber { place }),
    }
}

/// Reads the list behind the name of a define.
fn read_list(
    alloc: Global,
    definitions: &mut Definitions,
    hash: Place,
    word: &[u8],
    pieces: &[Piece],
) -> Result<(), LexFault>
    ensures { Gives (λ _. definitions.new) result (after_list definitions.old hash word.now pieces.now) }
{
    if definitions.is_named(word) {
        if has_list(definitions, word, pieces) {
            return Ok(());
        }
        return Err(LexFault::BadDirective { place: hash });
    }
    let lexemes = Replacement::new(lexemes_of(alloc, pieces)?);
    let name = Name::new(alloc, word)?;
    definitions.put(
        alloc,
        Macro {
            name,
            lexemes: Some(lexemes),
            is_first: false,
        },
    )?;
    Ok(())
}

/// Whether pieces are the list that a word has.
fn has_list(definitions: &Definitions, word: &[u8], pieces: &[Piece]) -> bool
    ensures { result ≡ is_list (list_of word.now definitions.now) pieces.now }
{
    match definitions.list_of(word) {
        None => false,
        Some(list) => are_lexemes(list, pieces),
    }
}

#[tactic(auto, unfolding(crate::specs::Lines::after_define))]
/// Reads what stands behind `#define`.
fn read_define(
    alloc: Global,
    definitions: &mut Definitions,
    hash: Place,
    pieces: &[Piece],
) -> Result<(), LexFault>
    ensures { Gives (λ _. definitions.new) result (after_define definitions.old hash pieces.now) }
{
    if let Some((piece, rest)) = pieces.split_first() {
        if let Some(word) = word_in(&piece.kind) {
            if !opens_directly(rest) {
                return read_list(alloc, definitions, hash, word, rest);
            }
        }
    }
    Err(LexFault::BadDirective { place: hash })
}

#[tactic(auto, unfolding(crate::specs::Lines::after_undef))]
/// Reads what stands behind `#undef`.
fn read_undef(definitions: &mut Definitions, hash: Place, pieces: &[Piece]) -> Result<(), LexFault>
    ensures { Gives (λ _. definitions.new) result (after_undef definitions.old hash pieces.now) }
{
    if let Some((piece, rest)) = pieces.split_first() {
        if rest.is_empty() {
            if let Some(word) = word_in(&piece.kind) {
                definitions.end(word);
                return Ok(());
            }
        }
    }
    Err(LexFault::BadDirective { place: hash })
}

#[tactic(auto, unfolding(crate::specs::Lines::after_hash))]
/// Reads what stands behind the `#` of a directive, which stands at this place.
pub fn read_directive(
    alloc: Global,
    definitions: &mut Definitions,
    hash: Place,
    pieces: &[Piece],
) -> Result<(), LexFault>
    ensures { Gives (λ _. definitions.new) result (after_hash definitions.old hash pieces.now) }
{
    let Some((piece, rest)) = pieces.split_first() else {
        return Ok(());
    };
    let Some(word) = word_in(&piece.kind) else {
        return Err(LexFault::BadDirective { place: hash });
    };
    if word == b"include".as_slice() || word == b"pragma".as_slice() {
        return Ok(());
    }
    if word == b"define".as_slice() {
        return read_define(alloc, definitions, hash, rest);
    }
    if word == b"undef".as_slice() {
        return read_undef(definitions, hash, rest);
    }
    Err(LexFault::BadDirective { place: hash })
}
