// Structs and their objects.
ghost use Rattle.std.specs.Prelude.{◌≡◌, ◌-◌};
ghost use Rattle.wm_cursor.specs.Inputs.{Reads, input_of};
ghost use Rattle.wm_declarations.specs.Structures as spec;

use crate::declarations::base_type;
use sqlite_items::Items;
use std::alloc::Global;
use wm_cursor::{ParseFault, Tokens};
use wm_expressions::whole;
use wm_lang::{
    Identifier, MemberDeclarator, Members, Position, Punct, Struct, StructObjects, Words,
};

#[tactic(auto, unfolding(crate::specs::Structures::array))]
/// An array behind its name; the next token is the `[`.
fn array(
    alloc: Global,
    tokens: &mut Tokens<'_>,
    depth: usize,
    name: Identifier,
) -> Result<MemberDeclarator, ParseFault>
    ensures { Reads (spec.array depth name (input_of tokens.old)) result (input_of tokens.new) }
{
    let bracket = tokens.enter(depth)?;
    let length = whole(alloc, tokens, depth.saturating_sub(1))?;
    tokens.expect(Punct::RightBracket)?;
    Ok(MemberDeclarator::Array {
        name,
        bracket,
        length,
    })
}

#[tactic(auto, unfolding(crate::specs::Structures::member))]
/// A member.
fn member(
    alloc: Global,
    tokens: &mut Tokens<'_>,
    depth: usize,
) -> Result<MemberDeclarator, ParseFault>
    ensures { Reads (spec.member depth (input_of tokens.old)) result (input_of tokens.new) }
{
    let name = tokens.identifier(alloc)?;
    if !tokens.sees(Punct::LeftBracket) {
        return Ok(MemberDeclarator::Scalar(name));
    }
    array(alloc, tokens, depth, name)
}

#[tactic(auto, unfolding(crate::specs::Structures::list))]
/// Members with commas between them, at least one.
fn list(
    alloc: Global,
    tokens: &mut Tokens<'_>,
    depth: usize,
) -> Result<Items<MemberDeclarator>, ParseFault>
    ensures { Reads (spec.list depth (input_of tokens.old)) result (input_of tokens.new) }
{
    let mut found = Items::new(alloc);
    found.push(member(alloc, tokens, depth)?)?;
    for _turn in 0..tokens.count() {
        if !tokens.eat(Punct::Comma) {
            return Ok(found);
        }
        found.push(member(alloc, tokens, depth)?)?;
    }
    Ok(found)
}

#[tactic(auto, unfolding(crate::specs::Structures::line))]
/// Members of one type.
fn line(alloc: Global, tokens: &mut Tokens<'_>, depth: usize) -> Result<Members, ParseFault>
    ensures { Reads (spec.line depth (input_of tokens.old)) result (input_of tokens.new) }
{
    let at = tokens.position();
    let base = base_type(tokens)?;
    let declarators = list(alloc, tokens, depth)?;
    tokens.expect(Punct::Semicolon)?;
    Ok(Members {
        at,
        base,
        declarators,
    })
}

#[tactic(auto, unfolding(crate::specs::Structures::lines))]
/// Lines of members up to the `}`, at least one.
fn lines(alloc: Global, tokens: &mut Tokens<'_>, depth: usize) -> Result<Items<Members>, ParseFault>
    ensures { Reads (spec.lines depth (input_of tokens.old)) result (input_of tokens.new) }
{
    let mut found = Items::new(alloc);
    found.push(line(alloc, tokens, depth)?)?;
    for _turn in 0..tokens.count() {
        if tokens.sees(Punct::RightBrace) {
            return Ok(found);
        }
        found.push(line(alloc, tokens, depth)?)?;
    }
    Ok(found)
}

#[tactic(auto, unfolding(crate::specs::Structures::structure))]
/// A struct behind its name; the next token is the `{`.
pub fn structure(
    alloc: Global,
    tokens: &mut Tokens<'_>,
    depth: usize,
    at: Position,
    name: Identifier,
) -> Result<Struct, ParseFault>
    ensures { Reads (spec.structure depth at name (input_of tokens.old)) result (input_of tokens.new) }
{
    tokens.take();
    let members = lines(alloc, tokens, depth)?;
    tokens.expect(Punct::RightBrace)?;
    tokens.expect(Punct::Semicolon)?;
    Ok(Struct { at, name, members })
}

#[tactic(auto, unfolding(crate::specs::Structures::names))]
/// Names with commas between them, at least one.
fn names(alloc: Global, tokens: &mut Tokens<'_>) -> Result<Items<Identifier>, ParseFault>
    ensures { Reads (spec.names (input_of tokens.old)) result (input_of tokens.new) }
{
    let mut found = Items::new(alloc);
    found.push(tokens.identifier(alloc)?)?;
    for _turn in 0..tokens.count() {
        if !tokens.eat(Punct::Comma) {
            return Ok(found);
        }
        found.push(tokens.identifier(alloc)?)?;
    }
    Ok(found)
}

#[tactic(auto, unfolding(crate::specs::Structures::objects))]
/// Objects of a struct, behind the struct's name.
pub fn objects(
    alloc: Global,
    tokens: &mut Tokens<'_>,
    at: Position,
    words: Words,
    structure: Identifier,
) -> Result<StructObjects, ParseFault>
    ensures { Reads (spec.objects at words structure (input_of tokens.old)) result (input_of tokens.new) }
{
    let objects = names(alloc, tokens)?;
    tokens.expect(Punct::Semicolon)?;
    Ok(StructObjects {
        at,
        words,
        structure,
        objects,
    })
}
