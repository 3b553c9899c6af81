// Declarations of objects, in blocks and outside of functions.
ghost use Rattle.std.specs.Prelude.{◌≡◌, [], OnOk};
ghost use Rattle.wm_members.specs.Expressions.{expanded};
ghost use Rattle.wm_members.specs.Making.{Makes, Adds, maybe, more, behind};
ghost use Rattle.wm_struct.specs.Declarators.{scalar_made, parts_made, array_made};
ghost use Rattle.wm_struct.specs.Statements as spec;

use crate::simple::maybe_of;
use sqlite_items::Items;
use std::alloc::Global;
use wm_lang::{
    Declaration, Declarator, Expr, Identifier, Initializer, InitializerList, Position, Words,
};
use wm_members::{Meaning, State, copied_name, expression_of, room_for};
use wm_ops::NoMemory;

/// The name and the list of an array.
#[derive(Drop)]
pub struct Parts {
    name: Identifier,
    initial: Option<InitializerList>,
}

fn initializer_of(
    initial: &Option<Initializer>,
    state: &mut State<'_>,
    alloc: Global,
) -> Result<Option<Initializer>, NoMemory>
    ensures made { Makes (maybe spec.initializer_made initial.now state.old) result state.new }
{
    match initial {
        None => Ok(None),
        Some(initial) => {
            let value = expression_of(&initial.value, state, alloc)?;
            Ok(Some(Initializer {
                at: initial.at,
                value,
            }))
        }
    }
}

fn values_of(
    values: &Items<Expr>,
    state: &mut State<'_>,
    alloc: Global,
) -> Result<Items<Expr>, NoMemory>
    ensures made { Makes (more expanded [] values.now state.old) result state.new }
{
    let mut done = room_for(alloc, values.len())?;
    for value in values.as_slice() {
        done.push(expression_of(value, state, alloc)?)?;
    }
    Ok(done)
}

fn list_of(
    list: &Option<InitializerList>,
    state: &mut State<'_>,
    alloc: Global,
) -> Result<Option<InitializerList>, NoMemory>
    ensures made { Makes (maybe spec.list_made list.now state.old) result state.new }
{
    match list {
        None => Ok(None),
        Some(list) => {
            let values = values_of(&list.values, state, alloc)?;
            Ok(Some(InitializerList {
                at: list.at,
                values,
            }))
        }
    }
}

/// Declares a name of a block; those of the file are declared already.
fn declare_in_block<'u>(
    is_local: bool,
    name: &'u Identifier,
    state: &mut State<'u>,
) -> Result<(), NoMemory>
    ensures declared { OnOk result (state.new ≡ spec.declared_local is_local name.now state.old) }
{
    if is_local {
        return state.declare(name, Meaning::Other);
    }
    Ok(())
}

fn scalar_of<'u>(
    is_local: bool,
    name: &'u Identifier,
    initial: &Option<Initializer>,
    state: &mut State<'u>,
    alloc: Global,
) -> Result<Declarator, NoMemory>
    ensures made { Makes (scalar_made is_local name.now initial.now state.old) result state.new }
{
    declare_in_block(is_local, name, state)?;
    let initial = initializer_of(initial, state, alloc)?;
    let name = copied_name(name, alloc)?;
    Ok(Declarator::Scalar { name, initial })
}

/// The name of an array, declared, and its list.
fn parts_of<'u>(
    is_local: bool,
    name: &'u Identifier,
    initial: &Option<InitializerList>,
    state: &mut State<'u>,
    alloc: Global,
) -> Result<Parts, NoMemory>
    ensures made { Makes (parts_made is_local name.now initial.now state.old) result state.new }
{
    declare_in_block(is_local, name, state)?;
    let initial = list_of(initial, state, alloc)?;
    let name = copied_name(name, alloc)?;
    Ok(Parts { name, initial })
}

fn array_of<'u>(
    is_local: bool,
    name: &'u Identifier,
    bracket: Position,
    length: &Option<Expr>,
    initial: &Option<InitializerList>,
    state: &mut State<'u>,
    alloc: Global,
) -> Result<Declarator, NoMemory>
    ensures made { Makes (array_made is_local name.now bracket length.now initial.now state.old) result state.new }
{
    let length = maybe_of(length, state, alloc)?;
    let parts = parts_of(is_local, name, initial, state, alloc)?;
    Ok(Declarator::Array {
        name: parts.name,
        bracket,
        length,
        initial: parts.initial,
    })
}

fn declarator_of<'u>(
    is_local: bool,
    declarator: &'u Declarator,
    state: &mut State<'u>,
    alloc: Global,
) -> Result<Declarator, NoMemory>
    ensures made { Makes (spec.declarator_made is_local declarator.now state.old) result state.new }
{
    match declarator {
        Declarator::Scalar { name, initial } => scalar_of(is_local, name, initial, state, alloc),
        Declarator::Array {
            name,
            bracket,
            length,
            initial,
        } => array_of(is_local, name, *bracket, length, initial, state, alloc),
    }
}

fn has_initial(declarator: &Declarator) -> bool
    ensures initial { result ≡ spec.has_initial declarator.now }
{
    match declarator {
        Declarator::Scalar { initial, .. } => initial.is_some(),
        Declarator::Array { initial, .. } => initial.is_some(),
    }
}

/// Whether a declarator declares an object: an extern one without initialiser does not.
pub fn declares(words: Words, declarator: &Declarator) -> bool
    ensures declares { result ≡ spec.declares words declarator.now }
{
    if words.is_extern {
        return has_initial(declarator);
    }
    true
}

/// A declarator behind those so far, if it declares an object.
fn add_declarator<'u>(
    is_local: bool,
    words: Words,
    declarator: &'u Declarator,
    done: &mut Items<Declarator>,
    state: &mut State<'u>,
    alloc: Global,
) -> Result<(), NoMemory>
    ensures made { Adds (spec.declarator_behind is_local words declarator.now done.old state.old) result done.new state.new }
{
    if declares(words, declarator) {
        done.push(declarator_of(is_local, declarator, state, alloc)?)?;
    }
    Ok(())
}

fn declarators_of<'u>(
    is_local: bool,
    words: Words,
    declarators: &'u Items<Declarator>,
    state: &mut State<'u>,
    alloc: Global,
) -> Result<Items<Declarator>, NoMemory>
    ensures made { Makes (behind (spec.declarator_behind is_local words) [] declarators.now state.old) result state.new }
{
    let mut done = room_for(alloc, declarators.len())?;
    for declarator in declarators.as_slice() {
        add_declarator(is_local, words, declarator, &mut done, state, alloc)?;
    }
    Ok(done)
}

/// A declaration with the declarators that declare objects, in a block or outside of functions.
pub fn declaration_of<'u>(
    is_local: bool,
    declaration: &'u Declaration,
    state: &mut State<'u>,
    alloc: Global,
) -> Result<Declaration, NoMemory>
    ensures made { Makes (spec.declaration_made is_local declaration.now state.old) result state.new }
{
    let words = declaration.words;
    let declarators = declarators_of(is_local, words, &declaration.declarators, state, alloc)?;
    Ok(Declaration {
        at: declaration.at,
        words,
        base: declaration.base,
        declarators,
    })
}
