// The second stage: each comment stands for one space (C99 5.1.1.2, phase 3; 6.4.9).
ghost use Rattle.std.specs.Prelude.{◌≡◌, IfOk};
ghost use Rattle.wm_lex.specs.Comments.{next_is, behind_code, region_after, left_of_code, left_in, uncommented, last_region, opened};

use crate::character::{Character, push_kept};
use std::alloc::{AllocError, Global};

/// What a character stands in.
#[derive(Clone, Copy)]
pub enum Region {
    Code,
    /// A comment that goes to the end of the line.
    LineComment,
    /// The star that opens a comment whose first character this is.
    Opening(Character),
    /// A comment whose first character this is.
    BlockComment(Character),
    /// The slash that closes a comment.
    Closing,
}

/// Whether the first of the characters is this byte.
fn next_is(byte: u8, rest: &[Character]) -> bool
    ensures { result ≡ next_is byte rest.now }
{
    match rest.first() {
        None => false,
        Some(next) => next.byte == byte,
    }
}

impl Region {
    #[tactic(auto, unfolding(crate::specs::Comments::left_in))]
    /// What a character of this region, which stands before the rest, leaves in the code.
    fn left(&self, character: Character, rest: &[Character]) -> Option<Character>
        ensures { result ≡ left_in self.now character rest.now }
    {
        match self {
            Region::Code => Some(left_of_code(character, rest)),
            Region::LineComment => {
                if character.byte == b'\n' {
                    Some(character)
                } else {
                    None
                }
            }
            Region::Opening(_) => None,
            Region::BlockComment(_) => None,
            Region::Closing => None,
        }
    }

    #[tactic(auto, unfolding(crate::specs::Comments::region_after))]
    /// The region behind it.
    fn after(&self, character: Character, rest: &[Character]) -> Region
        ensures { result ≡ region_after self.now character rest.now }
    {
        match self {
            Region::Code => behind_code(character, rest),
            Region::LineComment => {
                if character.byte == b'\n' {
                    Region::Code
                } else {
                    Region::LineComment
                }
            }
            Region::Opening(first) => Region::BlockComment(*first),
            Region::BlockComment(first) => {
                if character.byte == b'*' && next_is(b'/', rest) {
                    Region::Closing
                } else {
                    Region::BlockComment(*first)
                }
            }
            Region::Closing => Region::Code,
        }
    }

    /// The first character of a comment that is open in this region.
    pub fn opened(&self) -> Option<Character>
        ensures { result ≡ opened self.now }
    {
        match self {
            Region::Code => None,
            Region::LineComment => None,
            Region::Opening(first) => Some(*first),
            Region::BlockComment(first) => Some(*first),
            Region::Closing => None,
        }
    }
}

/// The region behind a character of code that stands before the rest.
fn behind_code(character: Character, rest: &[Character]) -> Region
    ensures { result ≡ behind_code character rest.now }
{
    if character.byte == b'/' {
        if next_is(b'/', rest) {
            return Region::LineComment;
        }
        if next_is(b'*', rest) {
            return Region::Opening(character);
        }
    }
    Region::Code
}

/// What a character of code that stands before the rest leaves: itself, or the space for the comment that it begins.
fn left_of_code(character: Character, rest: &[Character]) -> Character
    ensures { result ≡ left_of_code character rest.now }
{
    if character.byte == b'/' && (next_is(b'/', rest) || next_is(b'*', rest)) {
        return Character {
            byte: b' ',
            line: character.line,
            column: character.column,
        };
    }
    character
}

/// The characters without comments, and the region at their end.
pub fn uncommented(
    alloc: Global,
    characters: &[Character],
) -> Result<(Vec<Character>, Region), AllocError>
    ensures left { IfOk result (λ found. found.0.items ≡ uncommented characters.now) }
    ensures last { IfOk result (λ found. found.1 ≡ last_region characters.now) }
{
    let mut left = Vec::with_capacity(alloc, characters.len())?;
    let mut region = Region::Code;
    for (index, character) in characters.iter().enumerate() {
        let rest = &characters[index + 1..];
        let kept = region.left(*character, rest);
        push_kept(&mut left, kept)?;
        region = region.after(*character, rest);
    }
    Ok((left, region))
}
