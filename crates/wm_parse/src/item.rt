// The items of a unit.
ghost use Rattle.std.specs.Prelude.{◌≡◌};
ghost use Rattle.wm_cursor.specs.Inputs.{Reads, input_of};
ghost use Rattle.wm_parse.specs.Units as spec;

use crate::function::{Heading, function};
use std::alloc::Global;
use wm_cursor::{Head, ParseFault, Tokens, head_of};
use wm_declarations::{Front, declared, objects, structure, words};
use wm_lang::{Item, Position, Punct, Words};

/// How many levels of syntax may be open at a token.
const LEVELS: usize = 64;

#[tactic(auto, unfolding(crate::specs::Units::typed))]
/// A function with a result, or a declaration, behind its type.
fn typed(alloc: Global, tokens: &mut Tokens<'_>, front: Front) -> Result<Item, ParseFault>
    ensures { Reads (spec.typed front (input_of tokens.old)) result (input_of tokens.new) }
{
    let name = tokens.identifier(alloc)?;
    if !tokens.sees(Punct::LeftParenthesis) {
        return Ok(Item::Objects(declared(alloc, tokens, LEVELS, front, name)?));
    }
    let heading = Heading {
        at: front.at,
        words: front.words,
        result: Some(front.base),
        name,
    };
    Ok(Item::Function(function(alloc, tokens, LEVELS, heading)?))
}

#[tactic(auto, unfolding(crate::specs::Units::without_result))]
/// A function without a result, behind its `void`.
fn without_result(
    alloc: Global,
    tokens: &mut Tokens<'_>,
    at: Position,
    words: Words,
) -> Result<Item, ParseFault>
    ensures { Reads (spec.without_result at words (input_of tokens.old)) result (input_of tokens.new) }
{
    let name = tokens.identifier(alloc)?;
    let heading = Heading {
        at,
        words,
        result: None,
        name,
    };
    Ok(Item::Function(function(alloc, tokens, LEVELS, heading)?))
}

/// Whether there is a word at all.
fn has_words(words: Words) -> bool
    ensures { result ≡ spec.has_words words }
{
    words.is_static || words.is_const || words.is_extern
}

#[tactic(auto, unfolding(crate::specs::Units::structured))]
/// A struct, before which no word stands, or objects of one, behind its `struct`.
fn structured(
    alloc: Global,
    tokens: &mut Tokens<'_>,
    at: Position,
    words: Words,
) -> Result<Item, ParseFault>
    ensures { Reads (spec.structured at words (input_of tokens.old)) result (input_of tokens.new) }
{
    let name = tokens.identifier(alloc)?;
    if has_words(words) || !tokens.sees(Punct::LeftBrace) {
        return Ok(Item::StructObjects(objects(alloc, tokens, at, words, name)?));
    }
    Ok(Item::Struct(structure(alloc, tokens, LEVELS, at, name)?))
}

#[tactic(auto, unfolding(crate::specs::Units::item))]
/// An item.
pub fn item(alloc: Global, tokens: &mut Tokens<'_>) -> Result<Item, ParseFault>
    ensures { Reads (spec.item (input_of tokens.old)) result (input_of tokens.new) }
{
    let at = tokens.position();
    let words = words(tokens, true);
    match head_of(tokens.peek()) {
        Head::Type(base) => {
            tokens.take();
            typed(alloc, tokens, Front { at, words, base })
        }
        Head::Void => {
            tokens.take();
            without_result(alloc, tokens, at, words)
        }
        Head::Struct => {
            tokens.take();
            structured(alloc, tokens, at, words)
        }
        Head::Other => Err(tokens.refuse()),
    }
}
