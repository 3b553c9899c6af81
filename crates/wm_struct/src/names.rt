// What the items of a unit declare, before any of them is rewritten.
ghost use Rattle.std.specs.Prelude.{◌≡◌, [], OnOk};
ghost use Rattle.wm_members.specs.Making.{Makes, more};
ghost use Rattle.wm_struct.specs.Names as spec;

use crate::declaration::declares;
use sqlite_items::Items;
use std::alloc::Global;
use wm_lang::{
    BaseType, Declarator, Function, Identifier, Item, MemberDeclarator, Members, Parameter,
    ParameterKind, Struct, StructObjects, Words,
};
use wm_members::{Kind, Meaning, Member, Slot, State, Table};
use wm_ops::{Counted, NoMemory, counted_by_name};

/// The members of a struct so far, and how many more it may have.
#[derive(Drop)]
pub struct Listing<'u> {
    pub members: Table<'u, Member<'u>>,
    pub room: usize,
}

fn is_plain(word: Counted) -> bool
    ensures plain { result ≡ spec.is_plain_word word }
{
    match word {
        Counted::Operator(_) => true,
        Counted::Call(_) => true,
        Counted::Word(_) => false,
    }
}

fn is_outermost_word(word: Option<Counted>, name: &[u8]) -> bool
    ensures outermost { result ≡ spec.is_outermost_word word name.now }
{
    match word {
        None => name == b"Overflow".as_slice(),
        Some(word) => is_plain(word),
    }
}

/// Whether a name is that of an operator, a counting call or `Overflow`.
fn is_outermost(name: &[u8]) -> bool
    ensures outermost { result ≡ spec.is_outermost name.now }
{
    is_outermost_word(counted_by_name(name), name)
}

fn member_name(declarator: &MemberDeclarator) -> &Identifier
    ensures name { result.now ≡ spec.member_name declarator.now }
{
    match declarator {
        MemberDeclarator::Scalar(name) => name,
        MemberDeclarator::Array { name, .. } => name,
    }
}

fn member_declared<'u>(base: BaseType, declarator: &'u MemberDeclarator) -> Member<'u>
    ensures member { result ≡ spec.member_declared base declarator.now }
{
    match declarator {
        MemberDeclarator::Scalar(name) => Member::scalar(name, base),
        MemberDeclarator::Array {
            name,
            bracket,
            length,
        } => Member::array(name, base, *bracket, length),
    }
}

/// One more member. One that is there already is declared twice, and one for which there is no room is too many.
fn list_member<'u>(
    base: BaseType,
    declarator: &'u MemberDeclarator,
    listing: &mut Listing<'u>,
    state: &mut State<'u>,
) -> Result<(), NoMemory>
    ensures listed { OnOk result ((listing.new, state.new) ≡ spec.member_listed base declarator.now listing.old state.old) }
{
    let name = member_name(declarator);
    let is_there = listing.members.get(name.name.bytes()).is_some();
    state.note_where(is_there, Kind::StructTwice, name.at.token);
    state.note_where(listing.room == 0, Kind::StructSize, name.at.token);
    let member = member_declared(base, declarator);
    listing.members.add(name.name.bytes(), member)?;
    listing.room = listing.room.saturating_sub(1);
    Ok(())
}

fn list_line<'u>(
    base: BaseType,
    declarators: &'u Items<MemberDeclarator>,
    listing: &mut Listing<'u>,
    state: &mut State<'u>,
) -> Result<(), NoMemory>
    ensures listed { OnOk result ((listing.new, state.new) ≡ spec.line_listed base declarators.now listing.old state.old) }
{
    for declarator in declarators.as_slice() {
        list_member(base, declarator, listing, state)?;
    }
    Ok(())
}

fn list_lines<'u>(
    lines: &'u Items<Members>,
    listing: &mut Listing<'u>,
    state: &mut State<'u>,
) -> Result<(), NoMemory>
    ensures listed { OnOk result ((listing.new, state.new) ≡ spec.lines_listed lines.now listing.old state.old) }
{
    for line in lines.as_slice() {
        list_line(line.base, &line.declarators, listing, state)?;
    }
    Ok(())
}

/// Declares a struct with its members, where it is the first of its name.
fn add_struct<'u>(
    name: &'u Identifier,
    members: Table<'u, Member<'u>>,
    state: &mut State<'u>,
) -> Result<(), NoMemory>
    ensures added { OnOk result (state.new ≡ spec.added_struct name.now members.entry state.old) }
{
    if state.number(name.name.bytes()).is_some() {
        state.note(Kind::StructTwice, name.at.token);
        return Ok(());
    }
    state
        .numbers
        .add(name.name.bytes(), state.structures.len())?;
    state.structures.push(members)?;
    Ok(())
}

fn declare_struct<'u>(
    structure: &'u Struct,
    state: &mut State<'u>,
    alloc: Global,
) -> Result<(), NoMemory>
    ensures declared { OnOk result (state.new ≡ spec.declared_struct structure.now state.old) }
{
    let mut listing = Listing {
        members: Table::new(alloc),
        room: 32,
    };
    list_lines(&structure.members, &mut listing, state)?;
    add_struct(&structure.name, listing.members, state)
}

fn declare_object<'u>(
    number: Option<usize>,
    name: &'u Identifier,
    state: &mut State<'u>,
) -> Result<(), NoMemory>
    ensures declared { OnOk result (state.new ≡ spec.declared_object number name.now state.old) }
{
    state.note_where(
        is_outermost(name.name.bytes()),
        Kind::StructTwice,
        name.at.token,
    );
    state.declare(name, Meaning::Object(number))
}

fn declare_objects<'u>(
    number: Option<usize>,
    names: &'u Items<Identifier>,
    state: &mut State<'u>,
) -> Result<(), NoMemory>
    ensures declared { OnOk result (state.new ≡ spec.declared_objects number names.now state.old) }
{
    for name in names.as_slice() {
        declare_object(number, name, state)?;
    }
    Ok(())
}

/// Those of an extern item declare nothing.
fn declare_struct_objects<'u>(
    objects: &'u StructObjects,
    state: &mut State<'u>,
) -> Result<(), NoMemory>
    ensures declared { OnOk result (state.new ≡ spec.declared_struct_objects objects.now state.old) }
{
    let number = state.number_used(&objects.structure);
    if objects.words.is_extern {
        return Ok(());
    }
    declare_objects(number, &objects.objects, state)
}

fn declare_name<'u>(declarator: &'u Declarator, state: &mut State<'u>) -> Result<(), NoMemory>
    ensures declared { OnOk result (state.new ≡ spec.declared_name declarator.now state.old) }
{
    match declarator {
        Declarator::Scalar { name, .. } => state.declare(name, Meaning::Other),
        Declarator::Array { name, .. } => state.declare(name, Meaning::Other),
    }
}

fn declare_declarator<'u>(
    words: Words,
    declarator: &'u Declarator,
    state: &mut State<'u>,
) -> Result<(), NoMemory>
    ensures declared { OnOk result (state.new ≡ spec.declared_declarator words declarator.now state.old) }
{
    if declares(words, declarator) {
        return declare_name(declarator, state);
    }
    Ok(())
}

fn declare_declarators<'u>(
    words: Words,
    declarators: &'u Items<Declarator>,
    state: &mut State<'u>,
) -> Result<(), NoMemory>
    ensures declared { OnOk result (state.new ≡ spec.declared_declarators words declarators.now state.old) }
{
    for declarator in declarators.as_slice() {
        declare_declarator(words, declarator, state)?;
    }
    Ok(())
}

/// What stands at the place of a parameter.
fn slot_of(parameter: &Parameter, state: &mut State<'_>) -> Slot
    ensures made { (result, state.new) ≡ spec.slot_made parameter.now state.old }
{
    match &parameter.kind {
        ParameterKind::Scalar(_) => Slot::Plain,
        ParameterKind::Array { .. } => Slot::Plain,
        ParameterKind::Pointer(_) => Slot::Plain,
        ParameterKind::Struct(name) => Slot::Struct(state.number_used(name)),
    }
}

fn slots_of(
    parameters: &Items<Parameter>,
    state: &mut State<'_>,
    alloc: Global,
) -> Result<Items<Slot>, NoMemory>
    ensures made { Makes (more spec.slot_made [] parameters.now state.old) result state.new }
{
    let mut slots = Items::new(alloc);
    for parameter in parameters.as_slice() {
        slots.push(slot_of(parameter, state))?;
    }
    Ok(slots)
}

/// A prototype declares nothing.
fn declare_function<'u>(
    function: &'u Function,
    state: &mut State<'u>,
    alloc: Global,
) -> Result<(), NoMemory>
    ensures declared { OnOk result (state.new ≡ spec.declared_function function.now state.old) }
{
    let slots = slots_of(&function.parameters, state, alloc)?;
    if function.body.is_none() {
        return Ok(());
    }
    let number = state.functions.len();
    state.declare(&function.name, Meaning::Function(number))?;
    state.functions.push(slots)?;
    Ok(())
}

fn declare_item<'u>(item: &'u Item, state: &mut State<'u>, alloc: Global) -> Result<(), NoMemory>
    ensures declared { OnOk result (state.new ≡ spec.declared_item item.now state.old) }
{
    match item {
        Item::Objects(declaration) => {
            declare_declarators(declaration.words, &declaration.declarators, state)
        }
        Item::Function(function) => declare_function(function, state, alloc),
        Item::Struct(structure) => declare_struct(structure, state, alloc),
        Item::StructObjects(objects) => declare_struct_objects(objects, state),
    }
}

/// Declares what the items declare, in order.
pub fn declare_items<'u>(
    items: &'u [Item],
    state: &mut State<'u>,
    alloc: Global,
) -> Result<(), NoMemory>
    ensures declared { OnOk result (state.new ≡ spec.declared_items items.now state.old) }
{
    for item in items {
        declare_item(item, state, alloc)?;
    }
    Ok(())
}
