// The lines of texts, one after the other.
ghost use Rattle.std.specs.Prelude.{◌≡◌, ◌<◌, ◌^◌, length, map, All, vec_len, []};
ghost use Rattle.wm_lex.specs.Answers.{Gives};
ghost use Rattle.wm_lex.specs.Lines.{progress_of, after_pieces, after_line, after_lines, after_text, tokens_of};

use crate::beginning::first_definitions;
use crate::character::{Character, place_of};
use crate::comment::uncommented;
use crate::directive::read_directive;
use crate::fault::LexFault;
use crate::piece::{Piece, is_hash, lexeme_at, pieces};
use crate::splice::spliced;
use crate::state::State;
use std::alloc::Global;
use wm_lang::Token;

/// Reads the pieces of a line of text.
fn read_pieces(alloc: Global, state: &mut State, pieces: Vec<Piece>) -> Result<(), LexFault>
    ensures { Gives (λ _. progress_of state.new) result (after_pieces (progress_of state.old) pieces.items) }
{
    for piece in pieces {
        let lexeme = lexeme_at(piece.kind, piece.place)?;
        state.read(alloc, lexeme, piece.place)?;
    }
    Ok(())
}

#[tactic(auto, unfolding(crate::specs::Lines::after_line_pieces))]
/// Reads a line.
fn read_line(
    alloc: Global,
    file: u32,
    state: &mut State,
    line: &[Character],
) -> Result<(), LexFault>
    ensures { Gives (λ _. progress_of state.new) result (after_line file (progress_of state.old) line.now) }
{
    let pieces = pieces(alloc, file, line)?;
    if let Some((piece, rest)) = pieces.split_first() {
        if is_hash(&piece.kind) {
            return read_directive(alloc, &mut state.definitions, piece.place, rest);
        }
    }
    read_pieces(alloc, state, pieces)
}

/// Reads characters without comments, line by line.
fn read_lines(
    alloc: Global,
    file: u32,
    state: &mut State,
    characters: &[Character],
) -> Result<(), LexFault>
    ensures { Gives (λ _. progress_of state.new) result (after_lines file (progress_of state.old) [] characters.now) }
{
    let mut start = 0;
    for (index, character) in characters.iter().enumerate() {
        if character.byte != b'\n' {
            continue;
        }
        read_line(alloc, file, state, &characters[start..index])?;
        start = index + 1;
    }
    read_line(alloc, file, state, &characters[start..])
}

#[tactic(auto, unfolding(crate::specs::Lines::after_text))]
/// Reads a text.
fn read_text(alloc: Global, file: u32, state: &mut State, text: &[u8]) -> Result<(), LexFault>
    requires { length text.now < 2 ^ 32 }
    ensures { Gives (λ _. progress_of state.new) result (after_text file (progress_of state.old) text.now) }
{
    let characters = spliced(alloc, text)?;
    let (characters, region) = uncommented(alloc, &characters)?;
    read_lines(alloc, file, state, &characters)?;
    match region.opened() {
        None => Ok(()),
        Some(first) => Err(LexFault::OpenComment {
            place: place_of(file, first),
        }),
    }
}

#[tactic(auto, unfolding(crate::specs::Lines::tokens_of))]
/// The tokens of the texts after macro replacement, or the fault at the least place.
pub fn lex(alloc: Global, texts: &[Vec<u8>]) -> Result<Vec<Token>, LexFault>
    requires texts { length texts.now < 2 ^ 32 }
    requires bytes { All (λ text. vec_len text < 2 ^ 32) texts.now }
    ensures tokens { Gives (λ tokens. tokens.items) result (tokens_of (map (λ text. text.items) texts.now)) }
{
    let mut state = State {
        definitions: first_definitions(alloc)?,
        tokens: Vec::new(alloc),
        room: 1_000_000,
    };
    for (file, text) in texts.iter().enumerate() {
        read_text(alloc, file as u32, &mut state, text)?;
    }
    Ok(state.tokens)
}
