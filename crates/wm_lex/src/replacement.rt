// Macro replacement: a list that replaces a name is looked at again (C99 6.10.3.4).
ghost use Rattle.std.specs.Prelude.{◌≡◌, IfOk, option_map, option_copied};
ghost use Rattle.wm_lex.specs.Replacing.{made, replaced, replacement_of};

use crate::definitions::Definitions;
use crate::lexeme::{Lexeme, token_of};
use std::alloc::Global;
use wm_lang::{Place, Token};
use wm_ops::NoMemory;

/// The list that replaces a lexeme; None where it is no macro in force.
pub fn replacement_of<'d>(definitions: &'d Definitions, lexeme: &Lexeme) -> Option<&'d [Lexeme]>
    ensures { option_copied result ≡ replacement_of definitions.now lexeme.now }
{
    match lexeme {
        Lexeme::Word(name) => definitions.list_of(name.bytes()),
        Lexeme::Number(_) => None,
        Lexeme::Mark(_) => None,
    }
}

/// Puts the tokens that a list makes, all at this place, behind those that are there. Gives the room that is left; None where there
/// is not enough.
pub fn replace(
    alloc: Global,
    definitions: &Definitions,
    list: &[Lexeme],
    place: Place,
    tokens: &mut Vec<Token>,
    room: u32,
) -> Result<Option<u32>, NoMemory>
    ensures { IfOk result (λ left. option_map (λ room. made tokens.new.items room) left ≡ replaced definitions.now place room tokens.old.items list.now) }
{
    let mut room = room;
    let mut open: Vec<&[Lexeme]> = Vec::new(alloc);
    open.push(list)?;
    'lists: while let Some(list) = open.pop() {
        let Some((lexeme, left)) = list.split_first() else {
            continue;
        };
        if room == 0 {
            return Ok(None);
        }
        room -= 1;
        open.push(left)?;
        let Some(inner) = replacement_of(definitions, lexeme) else {
            tokens.push(token_of(alloc, lexeme, place)?)?;
            continue;
        };
        open.push(inner)?;
    }
    Ok(Some(room))
}
