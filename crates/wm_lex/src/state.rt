// How far the texts are read, and what a lexeme of a text does to it.
ghost use Rattle.std.specs.Prelude.{◌≡◌, ◌≤◌};

use crate::definitions::Definitions;
use crate::fault::LexFault;
use crate::lexeme::{Lexeme, token_from};
use crate::replacement::{replace, replacement_of};
use crate::walk::loops;
use std::alloc::Global;
use std::slice;
use wm_lang::{Place, Token};

/// The macros, the tokens, and how many tokens and replaced names there is room for.
#[derive(Drop)]
pub struct State {
    pub definitions: Definitions,
    pub tokens: Vec<Token>,
    pub room: u32,
    ghost within: { room ≤ 1000000 },
}

impl State {
    ghost use Rattle.std.specs.Prelude.{◌≡◌, IsSome, None};
    ghost use Rattle.wm_lex.specs.Answers.{Gives};
    ghost use Rattle.wm_lex.specs.Lines.{progress_of, after_lexeme};
    ghost use Rattle.wm_lex.specs.Replacing.{replacement_of};

    /// Reads a lexeme of a text at this place.
    pub fn read(&mut self, alloc: Global, lexeme: Lexeme, place: Place) -> Result<(), LexFault>
        ensures { Gives (λ _. progress_of self.new) result (after_lexeme (progress_of self.old) place lexeme) }
    {
        match replacement_of(&self.definitions, &lexeme) {
            None => self.read_token(lexeme, place),
            Some(_) => self.read_macro(alloc, &lexeme, place),
        }
    }

    /// Reads a lexeme that is no macro in force.
    fn read_token(&mut self, lexeme: Lexeme, place: Place) -> Result<(), LexFault>
        requires { replacement_of self.old.definitions lexeme ≡ None }
        ensures { Gives (λ _. progress_of self.new) result (after_lexeme (progress_of self.old) place lexeme) }
    {
        if self.room == 0 {
            return Err(LexFault::TooManyTokens { place });
        }
        self.tokens.push(token_from(lexeme, place))?;
        self.room -= 1;
        Ok(())
    }

    /// Reads a macro. Only where there is not enough room for all that it makes it may reach itself.
    fn read_macro(&mut self, alloc: Global, lexeme: &Lexeme, place: Place) -> Result<(), LexFault>
        ensures { Gives (λ _. progress_of self.new) result (after_lexeme (progress_of self.old) place lexeme.now) }
    {
        let one = slice::from_ref(lexeme);
        match replace(
            alloc,
            &self.definitions,
            one,
            place,
            &mut self.tokens,
            self.room,
        )? {
            Some(room) => {
                self.room = room;
                Ok(())
            }
            None => {
                if loops(alloc, &self.definitions, lexeme)? {
                    Err(LexFault::MacroLoop { place })
                } else {
                    Err(LexFault::TooManyTokens { place })
                }
            }
        }
    }
}
