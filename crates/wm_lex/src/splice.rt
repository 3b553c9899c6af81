// The first stage: a backslash directly before the end of a line is taken out with it (C99 5.1.1.2, phase 2).
ghost use Rattle.std.specs.Prelude.{◌≡◌, ◌+◌, ◌<◌, ◌≤◌, ◌^◌, length, IfOk};
ghost use Rattle.wm_lex.specs.Splices.{line_end, left_of, cursor_after, spliced};

use crate::character::{Character, push_kept};
use std::alloc::{AllocError, Global};

/// Where the next byte of a text stands, and how many bytes from it on belong to a splice.
#[derive(Clone, Copy)]
pub struct Cursor {
    pub line: u64,
    pub column: u64,
    pub skip: usize,
}

/// How many bytes the end of a line takes that stands at the front of the bytes; 0 where none does.
fn line_end(bytes: &[u8]) -> usize
    ensures { result ≡ line_end bytes.now }
{
    match bytes {
        [b'\n', ..] => 1,
        [b'\r', b'\n', ..] => 2,
        _ => 0,
    }
}

impl Cursor {
    #[tactic(auto, unfolding(crate::specs::Splices::left_of, crate::specs::Splices::cursor_after))]
    /// Goes past a byte that stands before the rest; gives it with its place where it is no part of a splice.
    fn pass(&mut self, byte: u8, rest: &[u8]) -> Option<Character>
        requires line { self.old.line < 2 ^ 32 }
        requires column { self.old.column < 2 ^ 32 }
        ensures left { result ≡ left_of self.old byte rest.now }
        ensures after { self.new ≡ cursor_after self.old byte rest.now }
        ensures line_after { self.new.line ≤ self.old.line + 1 }
        ensures column_after { self.new.column ≤ self.old.column + 1 }
    {
        if self.skip > 0 {
            self.skip -= 1;
            return None;
        }
        if byte == b'\\' {
            let end = line_end(rest);
            if end > 0 {
                *self = Cursor {
                    line: self.line + 1,
                    column: 1,
                    skip: end,
                };
                return None;
            }
        }
        let left = Character {
            byte,
            line: self.line as u32,
            column: self.column as u32,
        };
        if byte == b'\n' {
            self.line += 1;
            self.column = 1;
        } else {
            self.column += 1;
        }
        Some(left)
    }
}

/// The bytes of the text without its splices, each with its line and column.
pub fn spliced(alloc: Global, text: &[u8]) -> Result<Vec<Character>, AllocError>
    requires { length text.now < 2 ^ 32 }
    ensures { IfOk result (λ left. left.items ≡ spliced text.now) }
{
    let mut left = Vec::with_capacity(alloc, text.len())?;
    let mut cursor = Cursor {
        line: 1,
        column: 1,
        skip: 0,
    };
    for (index, byte) in text.iter().enumerate() {
        let kept = cursor.pass(*byte, &text[index + 1..]);
        push_kept(&mut left, kept)?;
    }
    Ok(left)
}
