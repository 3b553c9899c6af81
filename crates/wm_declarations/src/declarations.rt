// Declarations of objects, outside of functions and in blocks.
ghost use Rattle.std.specs.Prelude.{◌≡◌, ◌-◌, Ok};
ghost use Rattle.wm_cursor.specs.Inputs.{Reads, input_of};
ghost use Rattle.wm_declarations.specs.Declarations as spec;

use sqlite_items::Items;
use std::alloc::Global;
use wm_cursor::{ParseFault, Specifier, Tail, Tokens, base_of, specifier_of, tail_of};
use wm_expressions::whole;
use wm_lang::{
    BaseType, Declaration, Declarator, Expr, Identifier, Initializer, InitializerList, Position,
    Punct, Words,
};

/// The words with one more.
fn with_word(words: Words, word: Specifier) -> Words
    ensures { result ≡ spec.with_word words word }
{
    match word {
        Specifier::Static => Words {
            is_static: true,
            is_const: words.is_const,
            is_extern: words.is_extern,
        },
        Specifier::Const => Words {
            is_static: words.is_static,
            is_const: true,
            is_extern: words.is_extern,
        },
        Specifier::Extern => Words {
            is_static: words.is_static,
            is_const: words.is_const,
            is_extern: true,
        },
    }
}

#[tactic(auto, unfolding(crate::specs::Declarations::words))]
/// The words before a type, of which there may be none.
pub fn words(tokens: &mut Tokens<'_>, is_outside: bool) -> Words
    ensures { spec.words is_outside (input_of tokens.old) ≡ Ok (result, input_of tokens.new) }
{
    let mut words = Words {
        is_static: false,
        is_const: false,
        is_extern: false,
    };
    for _turn in 0..tokens.count() {
        let Some(word) = specifier_of(is_outside, tokens.peek()) else {
            return words;
        };
        tokens.take();
        words = with_word(words, word);
    }
    words
}

#[tactic(auto, unfolding(crate::specs::Declarations::base_type))]
/// A type.
pub fn base_type(tokens: &mut Tokens<'_>) -> Result<BaseType, ParseFault>
    ensures { Reads (spec.base_type (input_of tokens.old)) result (input_of tokens.new) }
{
    match base_of(tokens.peek()) {
        Some(base) => {
            tokens.take();
            Ok(base)
        }
        None => Err(tokens.refuse()),
    }
}

#[tactic(auto, unfolding(crate::specs::Declarations::length))]
/// What stands in the brackets of an array, and the `]`.
pub fn length(
    alloc: Global,
    tokens: &mut Tokens<'_>,
    depth: usize,
) -> Result<Option<Expr>, ParseFault>
    ensures { Reads (spec.length depth (input_of tokens.old)) result (input_of tokens.new) }
{
    if tokens.eat(Punct::RightBracket) {
        return Ok(None);
    }
    let length = whole(alloc, tokens, depth)?;
    tokens.expect(Punct::RightBracket)?;
    Ok(Some(length))
}

#[tactic(auto, unfolding(crate::specs::Declarations::values))]
/// Expressions with commas between them, at least one. Behind the last one a comma may stand before the `}`.
fn values(alloc: Global, tokens: &mut Tokens<'_>, depth: usize) -> Result<Items<Expr>, ParseFault>
    ensures { Reads (spec.values depth (input_of tokens.old)) result (input_of tokens.new) }
{
    let mut found = Items::new(alloc);
    found.push(whole(alloc, tokens, depth)?)?;
    for _turn in 0..tokens.count() {
        if !tokens.eat(Punct::Comma) {
            return Ok(found);
        }
        if tokens.sees(Punct::RightBrace) {
            return Ok(found);
        }
        found.push(whole(alloc, tokens, depth)?)?;
    }
    Ok(found)
}

#[tactic(auto, unfolding(crate::specs::Declarations::initializers))]
/// The list of an array, if there is one. Its braces open no level.
fn initializers(
    alloc: Global,
    tokens: &mut Tokens<'_>,
    depth: usize,
) -> Result<Option<InitializerList>, ParseFault>
    ensures { Reads (spec.initializers depth (input_of tokens.old)) result (input_of tokens.new) }
{
    if !tokens.sees(Punct::Assign) {
        return Ok(None);
    }
    let at = tokens.take();
    tokens.expect(Punct::LeftBrace)?;
    let values = values(alloc, tokens, depth)?;
    tokens.expect(Punct::RightBrace)?;
    Ok(Some(InitializerList { at, values }))
}

#[tactic(auto, unfolding(crate::specs::Declarations::array))]
/// An array behind its name; the next token is the `[`.
fn array(
    alloc: Global,
    tokens: &mut Tokens<'_>,
    depth: usize,
    name: Identifier,
) -> Result<Declarator, ParseFault>
    ensures { Reads (spec.array depth name (input_of tokens.old)) result (input_of tokens.new) }
{
    let bracket = tokens.enter(depth)?;
    let length = length(alloc, tokens, depth.saturating_sub(1))?;
    let initial = initializers(alloc, tokens, depth)?;
    Ok(Declarator::Array {
        name,
        bracket,
        length,
        initial,
    })
}

#[tactic(auto, unfolding(crate::specs::Declarations::started))]
/// A scalar with an initialiser, behind its name; the next token is the `=`.
fn started(
    alloc: Global,
    tokens: &mut Tokens<'_>,
    depth: usize,
    name: Identifier,
) -> Result<Declarator, ParseFault>
    ensures { Reads (spec.started depth name (input_of tokens.old)) result (input_of tokens.new) }
{
    let at = tokens.take();
    let value = whole(alloc, tokens, depth)?;
    Ok(Declarator::Scalar {
        name,
        initial: Some(Initializer { at, value }),
    })
}

#[tactic(auto, unfolding(crate::specs::Declarations::declarator))]
/// A declared object behind its name.
fn declarator(
    alloc: Global,
    tokens: &mut Tokens<'_>,
    depth: usize,
    name: Identifier,
) -> Result<Declarator, ParseFault>
    ensures { Reads (spec.declarator depth name (input_of tokens.old)) result (input_of tokens.new) }
{
    match tail_of(tokens.peek()) {
        Tail::Assign => started(alloc, tokens, depth, name),
        Tail::Bracket => array(alloc, tokens, depth, name),
        Tail::Other => Ok(Declarator::Scalar {
            name,
            initial: None,
        }),
    }
}

#[tactic(auto, unfolding(crate::specs::Declarations::named))]
/// A declared object.
fn named(alloc: Global, tokens: &mut Tokens<'_>, depth: usize) -> Result<Declarator, ParseFault>
    ensures { Reads (spec.named depth (input_of tokens.old)) result (input_of tokens.new) }
{
    let name = tokens.identifier(alloc)?;
    declarator(alloc, tokens, depth, name)
}

#[tactic(auto, unfolding(crate::specs::Declarations::declarators))]
/// Declared objects with commas between them, behind the name of the first.
fn declarators(
    alloc: Global,
    tokens: &mut Tokens<'_>,
    depth: usize,
    name: Identifier,
) -> Result<Items<Declarator>, ParseFault>
    ensures { Reads (spec.declarators depth name (input_of tokens.old)) result (input_of tokens.new) }
{
    let mut found = Items::new(alloc);
    found.push(declarator(alloc, tokens, depth, name)?)?;
    for _turn in 0..tokens.count() {
        if !tokens.eat(Punct::Comma) {
            return Ok(found);
        }
        found.push(named(alloc, tokens, depth)?)?;
    }
    Ok(found)
}

/// What stands before the first name of a declaration.
#[derive(Clone, Copy)]
pub struct Front {
    /// The first token.
    pub at: Position,
    pub words: Words,
    pub base: BaseType,
}

#[tactic(auto, unfolding(crate::specs::Declarations::declared))]
/// A declaration behind its first name.
pub fn declared(
    alloc: Global,
    tokens: &mut Tokens<'_>,
    depth: usize,
    front: Front,
    name: Identifier,
) -> Result<Declaration, ParseFault>
    ensures { Reads (spec.declared depth front name (input_of tokens.old)) result (input_of tokens.new) }
{
    let declarators = declarators(alloc, tokens, depth, name)?;
    tokens.expect(Punct::Semicolon)?;
    Ok(Declaration {
        at: front.at,
        words: front.words,
        base: front.base,
        declarators,
    })
}

#[tactic(auto, unfolding(crate::specs::Declarations::declaration))]
/// A declaration of a block.
pub fn declaration(
    alloc: Global,
    tokens: &mut Tokens<'_>,
    depth: usize,
) -> Result<Declaration, ParseFault>
    ensures { Reads (spec.declaration depth (input_of tokens.old)) result (input_of tokens.new) }
{
    let at = tokens.position();
    let words = words(tokens, false);
    let base = base_type(tokens)?;
    let name = tokens.identifier(alloc)?;
    declared(alloc, tokens, depth, Front { at, words, base }, name)
}
