// The items of a unit, without the forms of structs.
ghost use Rattle.std.specs.Prelude.{◌≡◌, [], IfOk, OnOk};
ghost use Rattle.std.specs.Option.{option_copied};
ghost use Rattle.wm_members.specs.Making.{Makes, Adds, behind};
ghost use Rattle.wm_struct.specs.Items as spec;

use crate::declaration::declaration_of;
use crate::parameter::parameters_of;
use crate::statement::items_of;
use sqlite_items::Items;
use std::alloc::Global;
use wm_lang::{
    Block, Declaration, Declarator, Expr, Function, Identifier, Item, MemberDeclarator, Members,
    Position, Statement, StructObjects,
};
use wm_members::{Member, State, copied_name, expression_of, name_of_member};
use wm_ops::{List, NoMemory};

/// Looks at the length of a member, which declares no object.
fn see_length(
    declarator: &MemberDeclarator,
    state: &mut State<'_>,
    alloc: Global,
) -> Result<(), NoMemory>
    ensures seen { OnOk result (state.new ≡ spec.after_length declarator.now state.old) }
{
    match declarator {
        MemberDeclarator::Scalar(_) => Ok(()),
        MemberDeclarator::Array { length, .. } => {
            let _made = expression_of(length, state, alloc)?;
            Ok(())
        }
    }
}

fn see_line(
    declarators: &Items<MemberDeclarator>,
    state: &mut State<'_>,
    alloc: Global,
) -> Result<(), NoMemory>
    ensures seen { OnOk result (state.new ≡ spec.after_line declarators.now state.old) }
{
    for declarator in declarators.as_slice() {
        see_length(declarator, state, alloc)?;
    }
    Ok(())
}

/// Looks at the lengths of all members of a struct.
fn see_lengths(lines: &Items<Members>, state: &mut State<'_>, alloc: Global) -> Result<(), NoMemory>
    ensures seen { OnOk result (state.new ≡ spec.after_lengths lines.now state.old) }
{
    for line in lines.as_slice() {
        see_line(&line.declarators, state, alloc)?;
    }
    Ok(())
}

fn scalar_of(
    object: &Identifier,
    member: &Member<'_>,
    alloc: Global,
) -> Result<Declarator, NoMemory>
    ensures scalar { IfOk result (λ made. made ≡ spec.scalar_declarator object.now member.now) }
{
    let name = name_of_member(object, member.name().name.bytes(), alloc)?;
    Ok(Declarator::Scalar {
        name,
        initial: None,
    })
}

/// The declarator of an object's member. An array has its bracket and the length that its member has.
fn bracketed(
    object: &Identifier,
    member: &Member<'_>,
    bracket: Option<Position>,
    length: Option<&Expr>,
    state: &mut State<'_>,
    alloc: Global,
) -> Result<Declarator, NoMemory>
    ensures made { Makes (spec.bracket_declarator object.now member.now bracket (option_copied length.entry) state.old) result state.new }
{
    match bracket {
        None => scalar_of(object, member, alloc),
        Some(bracket) => match length {
            None => scalar_of(object, member, alloc),
            Some(length) => {
                let length = expression_of(length, state, alloc)?;
                let name = name_of_member(object, member.name().name.bytes(), alloc)?;
                Ok(Declarator::Array {
                    name,
                    bracket,
                    length: Some(length),
                    initial: None,
                })
            }
        },
    }
}

/// The declaration of an object's member.
fn member_object(
    objects: &StructObjects,
    object: &Identifier,
    member: &Member<'_>,
    state: &mut State<'_>,
    alloc: Global,
) -> Result<Item, NoMemory>
    ensures made { Makes (spec.member_object objects.now object.now member.now state.old) result state.new }
{
    let declarator = bracketed(
        object,
        member,
        member.bracket(),
        member.length(),
        state,
        alloc,
    )?;
    let mut declarators = Items::new(alloc);
    declarators.push(declarator)?;
    Ok(Item::Objects(Declaration {
        at: objects.at,
        words: objects.words,
        base: member.base(),
        declarators,
    }))
}

/// One object for each member, behind the items so far.
fn add_object(
    objects: &StructObjects,
    members: &Items<Member<'_>>,
    object: &Identifier,
    done: &mut List<Item>,
    state: &mut State<'_>,
    alloc: Global,
) -> Result<(), NoMemory>
    ensures made { Adds (spec.object_behind objects.now members.now object.now done.old state.old) result done.new state.new }
{
    for member in members.as_slice() {
        done.push(member_object(objects, object, member, state, alloc)?)?;
    }
    Ok(())
}

/// The objects of all names, behind the items so far.
fn add_all_objects(
    objects: &StructObjects,
    members: &Items<Member<'_>>,
    done: &mut List<Item>,
    state: &mut State<'_>,
    alloc: Global,
) -> Result<(), NoMemory>
    ensures made { Adds (behind (spec.object_behind objects.now members.now) done.old objects.now.objects state.old) result done.new state.new }
{
    for object in objects.objects.as_slice() {
        add_object(objects, members, object, done, state, alloc)?;
    }
    Ok(())
}

fn add_objects_in(
    objects: &StructObjects,
    number: Option<usize>,
    done: &mut List<Item>,
    state: &mut State<'_>,
    alloc: Global,
) -> Result<(), NoMemory>
    ensures made { Adds (spec.objects_in objects.now number done.old state.old) result done.new state.new }
{
    match number {
        None => Ok(()),
        Some(number) => {
            let members = state.members(number, alloc)?;
            add_all_objects(objects, &members, done, state, alloc)
        }
    }
}

/// The objects of an item, behind the items so far; an extern item declares none.
fn add_objects(
    objects: &StructObjects,
    done: &mut List<Item>,
    state: &mut State<'_>,
    alloc: Global,
) -> Result<(), NoMemory>
    ensures made { Adds (spec.objects_behind objects.now done.old state.old) result done.new state.new }
{
    if objects.words.is_extern {
        return Ok(());
    }
    let number = state.number(objects.structure.name.bytes());
    add_objects_in(objects, number, done, state, alloc)
}

fn function_of<'u>(
    function: &'u Function,
    body: &'u Block<Statement>,
    state: &mut State<'u>,
    alloc: Global,
) -> Result<Function, NoMemory>
    ensures made { Makes (spec.function_made function.now body.now state.old) result state.new }
{
    state.enter(alloc)?;
    let parameters = parameters_of(&function.parameters, state, alloc)?;
    let items = items_of(&body.items, state, alloc)?;
    state.leave();
    let name = copied_name(&function.name, alloc)?;
    Ok(Function {
        at: function.at,
        words: function.words,
        result: function.result,
        name,
        parameters,
        body: Some(Block {
            first: body.first,
            items,
            last: body.last,
        }),
    })
}

/// A function behind the items so far; a prototype declares nothing.
fn add_function<'u>(
    function: &'u Function,
    done: &mut List<Item>,
    state: &mut State<'u>,
    alloc: Global,
) -> Result<(), NoMemory>
    ensures made { Adds (spec.function_behind function.now function.now.body done.old state.old) result done.new state.new }
{
    match &function.body {
        None => Ok(()),
        Some(body) => {
            let made = function_of(function, body, state, alloc)?;
            done.push(Item::Function(made))
        }
    }
}

/// A declaration behind the items so far; one without declarators declares nothing.
fn keep_objects(declaration: Declaration, done: &mut List<Item>) -> Result<(), NoMemory>
    ensures kept { OnOk result (done.new ≡ spec.kept_objects declaration done.old) }
{
    if declaration.declarators.is_empty() {
        return Ok(());
    }
    done.push(Item::Objects(declaration))
}

fn add_item<'u>(
    item: &'u Item,
    done: &mut List<Item>,
    state: &mut State<'u>,
    alloc: Global,
) -> Result<(), NoMemory>
    ensures made { Adds (spec.item_behind item.now done.old state.old) result done.new state.new }
{
    match item {
        Item::Objects(declaration) => {
            let made = declaration_of(false, declaration, state, alloc)?;
            keep_objects(made, done)
        }
        Item::Function(function) => add_function(function, done, state, alloc),
        Item::Struct(structure) => see_lengths(&structure.members, state, alloc),
        Item::StructObjects(objects) => add_objects(objects, done, state, alloc),
    }
}

/// The items without the forms of structs; the names of the whole file are declared before.
pub fn add_items<'u>(
    items: &'u [Item],
    state: &mut State<'u>,
    alloc: Global,
) -> Result<List<Item>, NoMemory>
    ensures made { Makes (behind spec.item_behind [] items.now state.old) result state.new }
{
    let mut done = List::new(alloc);
    for item in items {
        add_item(item, &mut done, state, alloc)?;
    }
    Ok(done)
}
