// The bytes of a text as the later stages see them.
ghost use Rattle.std.specs.Prelude.{◌≡◌, ◌≤◌, ◌∷◌, ◌++◌, length, IfOk, OnOk, option_to_list};
ghost use Rattle.wm_lex.specs.Characters.{place_of, is_space, is_letter, is_digit, is_word_byte, is_number_byte, run_length, bytes_of};

use std::alloc::{AllocError, Global};
use wm_lang::Place;

/// A byte of a text, with the line and the column, both from 1, where it stands in the file as it is written.
#[derive(Clone, Copy)]
pub struct Character {
    pub byte: u8,
    pub line: u32,
    pub column: u32,
}

/// Where the character stands in this file.
pub fn place_of(file: u32, character: Character) -> Place
    ensures { result ≡ place_of file character }
{
    Place {
        file,
        line: character.line,
        column: character.column,
    }
}

/// Whether the byte is white space: space, tab, line feed, vertical tab, form feed or carriage return (C99 6.4).
pub fn is_space(byte: u8) -> bool
    ensures { result ≡ is_space byte }
{
    byte == b' ' || (9 <= byte && byte <= 13)
}

/// Whether the byte is a letter or `_`.
pub fn is_letter(byte: u8) -> bool
    ensures { result ≡ is_letter byte }
{
    (b'a' <= byte && byte <= b'z') || (b'A' <= byte && byte <= b'Z') || byte == b'_'
}

/// Whether the byte is a decimal digit.
pub fn is_digit(byte: u8) -> bool
    ensures { result ≡ is_digit byte }
{
    b'0' <= byte && byte <= b'9'
}

/// Whether a word goes on with the byte.
fn is_word_byte(byte: u8) -> bool
    ensures { result ≡ is_word_byte byte }
{
    is_letter(byte) || is_digit(byte)
}

/// Whether a number goes on with the byte.
fn is_number_byte(byte: u8) -> bool
    ensures { result ≡ is_number_byte byte }
{
    is_word_byte(byte) || byte == b'.'
}

/// How many characters from the first on a word goes on with.
pub fn word_length(characters: &[Character]) -> usize
    ensures length { result ≡ run_length is_word_byte characters.now }
    ensures within { result ≤ length characters.now }
{
    for (index, character) in characters.iter().enumerate() {
        if !is_word_byte(character.byte) {
            return index;
        }
    }
    characters.len()
}

/// How many characters from the first on a number goes on with.
pub fn number_length(characters: &[Character]) -> usize
    ensures length { result ≡ run_length is_number_byte characters.now }
    ensures within { result ≤ length characters.now }
{
    for (index, character) in characters.iter().enumerate() {
        if !is_number_byte(character.byte) {
            return index;
        }
    }
    characters.len()
}

/// What the character and those behind it spell.
pub fn spelled(alloc: Global, first: Character, more: &[Character]) -> Result<Vec<u8>, AllocError>
    ensures { IfOk result (λ bytes. bytes.items ≡ first.byte ∷ bytes_of more.now) }
{
    let mut bytes = Vec::with_capacity(alloc, more.len().saturating_add(1))?;
    bytes.push(first.byte)?;
    for character in more {
        bytes.push(character.byte)?;
    }
    Ok(bytes)
}

/// Puts a character that is left behind the others.
pub fn push_kept(left: &mut Vec<Character>, kept: Option<Character>) -> Result<(), AllocError>
    ensures { OnOk result (left.new.items ≡ left.old.items ++ option_to_list kept) }
{
    if let Some(character) = kept {
        left.push(character)?;
    }
    Ok(())
}
