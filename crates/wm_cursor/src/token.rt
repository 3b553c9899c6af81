// The tokens that are left to read, and the steps that every production is made of.
ghost use Rattle.std.specs.Prelude.{◌≡◌};
ghost use Rattle.wm_cursor.specs.Inputs.{Reads, input_of, kind_of, same_mark, peek, position, after, sees, eaten, expect, identifier, count, number, begin, enter};

use crate::fault::ParseFault;
use std::alloc::Global;
use wm_lang::{Identifier, Key, Name, Place, Position, Punct, Token, TokenKind};

/// What the next token is.
#[derive(Clone, Copy)]
pub enum Next {
    /// There is none.
    End,
    Name,
    Number(i64),
    Key(Key),
    Mark(Punct),
}

/// A cursor over a list of tokens.
#[derive(Drop)]
pub struct Tokens<'a> {
    pub left: &'a [Token],
    /// How many tokens the whole list has.
    pub total: usize,
}

/// What a token is.
fn kind_of(kind: &TokenKind) -> Next
    ensures { result ≡ kind_of kind.now }
{
    match kind {
        TokenKind::Name(_) => Next::Name,
        TokenKind::Number(value) => Next::Number(*value),
        TokenKind::Key(key) => Next::Key(*key),
        TokenKind::Punct(mark) => Next::Mark(*mark),
    }
}

#[tactic(auto, unfolding(crate::specs::Inputs::same_mark))]
/// Whether two marks are the same.
fn same_mark(one: Punct, other: Punct) -> bool
    ensures { result ≡ same_mark one other }
{
    one == other
}

impl<'a> Tokens<'a> {
    /// All tokens of a list.
    pub fn new(tokens: &'a [Token]) -> Tokens<'a>
        ensures { input_of result ≡ begin tokens.now }
    {
        Tokens {
            left: tokens,
            total: tokens.len(),
        }
    }

    #[tactic(auto, unfolding(crate::specs::Inputs::count))]
    /// How many tokens are left.
    pub fn count(&self) -> usize
        ensures { result ≡ count (input_of self.now) }
    {
        self.left.len()
    }

    #[tactic(auto, unfolding(crate::specs::Inputs::number))]
    /// The number of the next token.
    fn number(&self) -> usize
        ensures { result ≡ number (input_of self.now) }
    {
        self.total.saturating_sub(self.left.len())
    }

    #[tactic(auto, unfolding(crate::specs::Inputs::peek))]
    /// What the next token is.
    pub fn peek(&self) -> Next
        ensures { result ≡ peek (input_of self.now) }
    {
        match self.left.first() {
            None => Next::End,
            Some(token) => kind_of(&token.kind),
        }
    }

    #[tactic(auto, unfolding(crate::specs::Inputs::position))]
    /// Where the next token stands; behind the last one no place is told.
    pub fn position(&self) -> Position
        ensures { result ≡ position (input_of self.now) }
    {
        let place = match self.left.first() {
            None => Place {
                file: 0,
                line: 0,
                column: 0,
            },
            Some(token) => token.place,
        };
        Position {
            token: self.number(),
            place,
        }
    }

    /// The fault of a next token that does not fit.
    pub fn refuse(&self) -> ParseFault
        ensures { result ≡ ParseFault.Syntax (number (input_of self.now)) }
    {
        ParseFault::Syntax {
            token: self.number(),
        }
    }

    #[tactic(auto, unfolding(crate::specs::Inputs::after))]
    /// Takes the next token, whatever it is.
    pub fn take(&mut self) -> Position
        ensures at { result ≡ position (input_of self.old) }
        ensures after { input_of self.new ≡ after (input_of self.old) }
    {
        let at = self.position();
        if let Some((_, left)) = self.left.split_first() {
            self.left = left;
        }
        at
    }

    #[tactic(auto, unfolding(crate::specs::Inputs::sees))]
    /// Whether the next token is this mark.
    pub fn sees(&self, mark: Punct) -> bool
        ensures { result ≡ sees mark (input_of self.now) }
    {
        match self.peek() {
            Next::Mark(next) => same_mark(next, mark),
            Next::End => false,
            Next::Name => false,
            Next::Number(_) => false,
            Next::Key(_) => false,
        }
    }

    #[tactic(auto, unfolding(crate::specs::Inputs::eaten))]
    /// Takes the next token if it is this mark.
    pub fn eat(&mut self, mark: Punct) -> bool
        ensures found { result ≡ sees mark (input_of self.old) }
        ensures after { input_of self.new ≡ eaten mark (input_of self.old) }
    {
        let found = self.sees(mark);
        if found {
            self.take();
        }
        found
    }

    #[tactic(auto, unfolding(crate::specs::Inputs::expect))]
    /// Takes the next token, which must be this mark.
    pub fn expect(&mut self, mark: Punct) -> Result<Position, ParseFault>
        ensures { Reads (expect mark (input_of self.old)) result (input_of self.new) }
    {
        if self.sees(mark) {
            Ok(self.take())
        } else {
            Err(self.refuse())
        }
    }

    #[tactic(auto, unfolding(crate::specs::Inputs::enter))]
    /// Takes the next token, whatever it is, which opens one of the levels that are left.
    pub fn enter(&mut self, depth: usize) -> Result<Position, ParseFault>
        ensures { Reads (enter depth (input_of self.old)) result (input_of self.new) }
    {
        if depth == 0 {
            return Err(self.refuse());
        }
        Ok(self.take())
    }

    #[tactic(auto, unfolding(crate::specs::Inputs::identifier, crate::specs::Inputs::after))]
    /// Takes the next token, which must be a name.
    pub fn identifier(&mut self, alloc: Global) -> Result<Identifier, ParseFault>
        ensures { Reads (identifier (input_of self.old)) result (input_of self.new) }
    {
        let at = self.position();
        if let Some((token, left)) = self.left.split_first() {
            if let TokenKind::Name(name) = &token.kind {
                let name = Name::new(alloc, name.bytes())?;
                self.left = left;
                return Ok(Identifier { name, at });
            }
        }
        Err(self.refuse())
    }
}
