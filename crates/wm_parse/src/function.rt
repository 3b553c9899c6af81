// Functions, with their parameters.
ghost use Rattle.std.specs.Prelude.{◌≡◌, ◌-◌, Ok};
ghost use Rattle.wm_cursor.specs.Inputs.{Reads, input_of};
ghost use Rattle.wm_parse.specs.Functions as spec;

use sqlite_items::Items;
use std::alloc::Global;
use wm_blocks::block_at;
use wm_cursor::{Head, ParseFault, Tokens, head_of, is_const, is_name};
use wm_declarations::length;
use wm_lang::{
    BaseType, Block, Function, Identifier, Parameter, ParameterKind, Position, Punct, Statement,
    Words,
};

#[tactic(auto, unfolding(crate::specs::Functions::optional_name))]
/// A name, if one comes next.
fn optional_name(alloc: Global, tokens: &mut Tokens<'_>) -> Result<Option<Identifier>, ParseFault>
    ensures { Reads (spec.optional_name (input_of tokens.old)) result (input_of tokens.new) }
{
    if !is_name(tokens.peek()) {
        return Ok(None);
    }
    Ok(Some(tokens.identifier(alloc)?))
}

/// What stands before the name of a parameter.
#[derive(Clone, Copy)]
pub struct Opening {
    /// The first token.
    pub at: Position,
    pub is_const: bool,
}

#[tactic(auto, unfolding(crate::specs::Functions::pointer))]
/// A pointer to a scalar, behind its `*`.
fn pointer(
    alloc: Global,
    tokens: &mut Tokens<'_>,
    start: Opening,
    base: BaseType,
) -> Result<Parameter, ParseFault>
    ensures { Reads (spec.pointer start base (input_of tokens.old)) result (input_of tokens.new) }
{
    let name = optional_name(alloc, tokens)?;
    Ok(Parameter {
        at: start.at,
        is_const: start.is_const,
        kind: ParameterKind::Pointer(base),
        name,
    })
}

#[tactic(auto, unfolding(crate::specs::Functions::array))]
/// What stands behind the name of an array, of which the next token is the `[`.
fn array(
    alloc: Global,
    tokens: &mut Tokens<'_>,
    depth: usize,
    base: BaseType,
) -> Result<ParameterKind, ParseFault>
    ensures { Reads (spec.array depth base (input_of tokens.old)) result (input_of tokens.new) }
{
    let bracket = tokens.enter(depth)?;
    let length = length(alloc, tokens, depth.saturating_sub(1))?;
    Ok(ParameterKind::Array {
        element: base,
        bracket,
        length,
    })
}

#[tactic(auto, unfolding(crate::specs::Functions::kind))]
/// A scalar, or an array with its brackets, behind its name.
fn kind(
    alloc: Global,
    tokens: &mut Tokens<'_>,
    depth: usize,
    base: BaseType,
) -> Result<ParameterKind, ParseFault>
    ensures { Reads (spec.kind depth base (input_of tokens.old)) result (input_of tokens.new) }
{
    if !tokens.sees(Punct::LeftBracket) {
        return Ok(ParameterKind::Scalar(base));
    }
    array(alloc, tokens, depth, base)
}

#[tactic(auto, unfolding(crate::specs::Functions::typed))]
/// A parameter behind its type.
fn typed(
    alloc: Global,
    tokens: &mut Tokens<'_>,
    depth: usize,
    start: Opening,
    base: BaseType,
) -> Result<Parameter, ParseFault>
    ensures { Reads (spec.typed depth start base (input_of tokens.old)) result (input_of tokens.new) }
{
    if tokens.eat(Punct::Star) {
        return pointer(alloc, tokens, start, base);
    }
    let name = optional_name(alloc, tokens)?;
    let kind = kind(alloc, tokens, depth, base)?;
    Ok(Parameter {
        at: start.at,
        is_const: start.is_const,
        kind,
        name,
    })
}

#[tactic(auto, unfolding(crate::specs::Functions::structured))]
/// A parameter behind its `struct`.
fn structured(
    alloc: Global,
    tokens: &mut Tokens<'_>,
    start: Opening,
) -> Result<Parameter, ParseFault>
    ensures { Reads (spec.structured start (input_of tokens.old)) result (input_of tokens.new) }
{
    let structure = tokens.identifier(alloc)?;
    tokens.expect(Punct::Star)?;
    let name = optional_name(alloc, tokens)?;
    Ok(Parameter {
        at: start.at,
        is_const: start.is_const,
        kind: ParameterKind::Struct(structure),
        name,
    })
}

#[tactic(auto, unfolding(crate::specs::Functions::constness))]
/// Takes a `const`, if it comes next.
fn constness(tokens: &mut Tokens<'_>) -> bool
    ensures { spec.constness (input_of tokens.old) ≡ Ok (result, input_of tokens.new) }
{
    let found = is_const(tokens.peek());
    if found {
        tokens.take();
    }
    found
}

#[tactic(auto, unfolding(crate::specs::Functions::parameter))]
/// A parameter.
fn parameter(alloc: Global, tokens: &mut Tokens<'_>, depth: usize) -> Result<Parameter, ParseFault>
    ensures { Reads (spec.parameter depth (input_of tokens.old)) result (input_of tokens.new) }
{
    let at = tokens.position();
    let is_const = constness(tokens);
    let start = Opening { at, is_const };
    match head_of(tokens.peek()) {
        Head::Type(base) => {
            tokens.take();
            typed(alloc, tokens, depth, start, base)
        }
        Head::Struct => {
            tokens.take();
            structured(alloc, tokens, start)
        }
        Head::Void => Err(tokens.refuse()),
        Head::Other => Err(tokens.refuse()),
    }
}

#[tactic(auto, unfolding(crate::specs::Functions::list))]
/// Parameters with commas between them, at least one.
fn list(
    alloc: Global,
    tokens: &mut Tokens<'_>,
    depth: usize,
) -> Result<Items<Parameter>, ParseFault>
    ensures { Reads (spec.list depth (input_of tokens.old)) result (input_of tokens.new) }
{
    let mut found = Items::new(alloc);
    found.push(parameter(alloc, tokens, depth)?)?;
    for _turn in 0..tokens.count() {
        if !tokens.eat(Punct::Comma) {
            return Ok(found);
        }
        found.push(parameter(alloc, tokens, depth)?)?;
    }
    Ok(found)
}

#[tactic(auto, unfolding(crate::specs::Functions::some_parameters))]
/// Parameters or `void`.
fn some_parameters(
    alloc: Global,
    tokens: &mut Tokens<'_>,
    depth: usize,
) -> Result<Items<Parameter>, ParseFault>
    ensures { Reads (spec.some_parameters depth (input_of tokens.old)) result (input_of tokens.new) }
{
    match head_of(tokens.peek()) {
        Head::Void => {
            tokens.take();
            Ok(Items::new(alloc))
        }
        Head::Type(_) => list(alloc, tokens, depth),
        Head::Struct => list(alloc, tokens, depth),
        Head::Other => list(alloc, tokens, depth),
    }
}

#[tactic(auto, unfolding(crate::specs::Functions::parameters))]
/// The parameters in their parentheses.
fn parameters(
    alloc: Global,
    tokens: &mut Tokens<'_>,
    depth: usize,
) -> Result<Items<Parameter>, ParseFault>
    ensures { Reads (spec.parameters depth (input_of tokens.old)) result (input_of tokens.new) }
{
    tokens.expect(Punct::LeftParenthesis)?;
    if tokens.eat(Punct::RightParenthesis) {
        return Ok(Items::new(alloc));
    }
    let found = some_parameters(alloc, tokens, depth.saturating_sub(1))?;
    tokens.expect(Punct::RightParenthesis)?;
    Ok(found)
}

/// Whether each parameter has its name, as a function with a block needs.
fn are_named(parameters: &[Parameter]) -> bool
    ensures { result ≡ spec.are_named parameters.now }
{
    for parameter in parameters {
        if parameter.name.is_none() {
            return false;
        }
    }
    true
}

#[tactic(auto, unfolding(crate::specs::Functions::body))]
/// The block of a function, or the `;` of a prototype.
fn body(
    alloc: Global,
    tokens: &mut Tokens<'_>,
    depth: usize,
    is_named: bool,
) -> Result<Option<Block<Statement>>, ParseFault>
    ensures { Reads (spec.body depth is_named (input_of tokens.old)) result (input_of tokens.new) }
{
    if tokens.eat(Punct::Semicolon) {
        return Ok(None);
    }
    if !is_named || !tokens.sees(Punct::LeftBrace) {
        return Err(tokens.refuse());
    }
    Ok(Some(block_at(alloc, tokens, depth)?))
}

/// What stands before the parameters of a function.
#[derive(Drop)]
pub struct Heading {
    /// The first token.
    pub at: Position,
    pub words: Words,
    pub result: Option<BaseType>,
    pub name: Identifier,
}

#[tactic(auto, unfolding(crate::specs::Functions::function))]
/// A function behind its name.
pub fn function(
    alloc: Global,
    tokens: &mut Tokens<'_>,
    depth: usize,
    heading: Heading,
) -> Result<Function, ParseFault>
    ensures { Reads (spec.function depth heading (input_of tokens.old)) result (input_of tokens.new) }
{
    let parameters = parameters(alloc, tokens, depth)?;
    let is_named = are_named(parameters.as_slice());
    let body = body(alloc, tokens, depth, is_named)?;
    Ok(Function {
        at: heading.at,
        words: heading.words,
        result: heading.result,
        name: heading.name,
        parameters,
        body,
    })
}
