// The parameters of functions: a struct parameter is one view parameter for each member.
ghost use Rattle.std.specs.Prelude.{◌≡◌, [], IfOk, OnOk};
ghost use Rattle.wm_members.specs.declared.state.Meaning.TheVariants.{Other};
ghost use Rattle.wm_members.specs.Making.{Makes, Adds, all_behind, behind};
ghost use Rattle.wm_struct.specs.Parameters as spec;

use crate::simple::maybe_of;
use sqlite_items::Items;
use std::alloc::Global;
use wm_lang::{BaseType, Identifier, Parameter, ParameterKind, Position};
use wm_members::{Meaning, Member, State, copied_name, name_of_member, room_for};
use wm_ops::NoMemory;

/// A scalar is `*m`, an array is `m[]`.
fn member_kind(base: BaseType, bracket: Option<Position>) -> ParameterKind
    ensures kind { result ≡ spec.member_parameter_kind base bracket }
{
    match bracket {
        None => ParameterKind::Pointer(base),
        Some(bracket) => ParameterKind::Array {
            element: base,
            bracket,
            length: None,
        },
    }
}

/// The view parameter of a member.
fn member_parameter(
    parameter: &Parameter,
    name: &Identifier,
    member: &Member<'_>,
    alloc: Global,
) -> Result<Parameter, NoMemory>
    ensures parameter { IfOk result (λ made. made ≡ spec.member_parameter parameter.now name.now member.now) }
{
    let name = name_of_member(name, member.name().name.bytes(), alloc)?;
    Ok(Parameter {
        at: parameter.at,
        is_const: parameter.is_const,
        kind: member_kind(member.base(), member.bracket()),
        name: Some(name),
    })
}

/// The view parameters of all members, behind the parameters so far.
fn add_members(
    parameter: &Parameter,
    name: &Identifier,
    members: &[Member<'_>],
    done: &mut Items<Parameter>,
    alloc: Global,
) -> Result<(), NoMemory>
    ensures added { OnOk result (done.new ≡ all_behind (spec.member_parameter parameter.now name.now) done.old members.now) }
{
    for member in members {
        done.push(member_parameter(parameter, name, member, alloc)?)?;
    }
    Ok(())
}

/// The view parameters of a struct parameter, if the struct is known.
fn add_structure(
    parameter: &Parameter,
    name: &Identifier,
    number: Option<usize>,
    done: &mut Items<Parameter>,
    state: &State<'_>,
    alloc: Global,
) -> Result<(), NoMemory>
    ensures added { OnOk result (done.new ≡ spec.members_behind parameter.now name.now state.now.structures number done.old) }
{
    match number {
        None => Ok(()),
        Some(number) => {
            let members = state.members(number, alloc)?;
            add_members(parameter, name, members.as_slice(), done, alloc)
        }
    }
}

fn add_views<'u>(
    parameter: &Parameter,
    name: &'u Identifier,
    number: Option<usize>,
    done: &mut Items<Parameter>,
    state: &mut State<'u>,
    alloc: Global,
) -> Result<(), NoMemory>
    ensures made { Adds (spec.views_behind parameter.now name.now number done.old state.old) result done.new state.new }
{
    state.declare(name, Meaning::Parameter(number))?;
    add_structure(parameter, name, number, done, state, alloc)
}

/// A struct parameter, which has a name where the function has a block.
fn add_struct<'u>(
    parameter: &'u Parameter,
    structure: &Identifier,
    done: &mut Items<Parameter>,
    state: &mut State<'u>,
    alloc: Global,
) -> Result<(), NoMemory>
    ensures made { Adds (spec.struct_behind parameter.now parameter.now.name structure.now done.old state.old) result done.new state.new }
{
    match &parameter.name {
        None => Ok(()),
        Some(name) => {
            let number = state.number(structure.name.bytes());
            add_views(parameter, name, number, done, state, alloc)
        }
    }
}

fn declare_maybe<'u>(name: &'u Option<Identifier>, state: &mut State<'u>) -> Result<(), NoMemory>
    ensures declared { OnOk result (state.new ≡ spec.declared_maybe name.now Other state.old) }
{
    match name {
        None => Ok(()),
        Some(name) => state.declare(name, Meaning::Other),
    }
}

fn copied_maybe(name: &Option<Identifier>, alloc: Global) -> Result<Option<Identifier>, NoMemory>
    ensures same { IfOk result (λ copy. copy ≡ name.now) }
{
    match name {
        None => Ok(None),
        Some(name) => Ok(Some(copied_name(name, alloc)?)),
    }
}

/// A parameter of this kind behind those so far, which is declared.
fn add_plain<'u>(
    parameter: &'u Parameter,
    kind: ParameterKind,
    done: &mut Items<Parameter>,
    state: &mut State<'u>,
    alloc: Global,
) -> Result<(), NoMemory>
    ensures made { Adds (spec.plain_behind parameter.now kind done.old state.old) result done.new state.new }
{
    declare_maybe(&parameter.name, state)?;
    let name = copied_maybe(&parameter.name, alloc)?;
    done.push(Parameter {
        at: parameter.at,
        is_const: parameter.is_const,
        kind,
        name,
    })?;
    Ok(())
}

/// A parameter, or the view parameters of a struct parameter, behind those so far.
fn add_parameter<'u>(
    parameter: &'u Parameter,
    done: &mut Items<Parameter>,
    state: &mut State<'u>,
    alloc: Global,
) -> Result<(), NoMemory>
    ensures made { Adds (spec.parameter_behind parameter.now done.old state.old) result done.new state.new }
{
    match &parameter.kind {
        ParameterKind::Scalar(base) => {
            add_plain(parameter, ParameterKind::Scalar(*base), done, state, alloc)
        }
        ParameterKind::Array {
            element,
            bracket,
            length,
        } => {
            let length = maybe_of(length, state, alloc)?;
            let kind = ParameterKind::Array {
                element: *element,
                bracket: *bracket,
                length,
            };
            add_plain(parameter, kind, done, state, alloc)
        }
        ParameterKind::Pointer(base) => {
            add_plain(parameter, ParameterKind::Pointer(*base), done, state, alloc)
        }
        ParameterKind::Struct(structure) => add_struct(parameter, structure, done, state, alloc),
    }
}

/// The parameters of a function with a block, all declared.
pub fn parameters_of<'u>(
    parameters: &'u Items<Parameter>,
    state: &mut State<'u>,
    alloc: Global,
) -> Result<Items<Parameter>, NoMemory>
    ensures made { Makes (behind spec.parameter_behind [] parameters.now state.old) result state.new }
{
    let mut done = room_for(alloc, parameters.len())?;
    for parameter in parameters.as_slice() {
        add_parameter(parameter, &mut done, state, alloc)?;
    }
    Ok(done)
}
