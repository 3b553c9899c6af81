// Declarations of objects and of automatic variables.
ghost use Rattle.std.specs.Prelude.{◌≡◌, [], IfOk};
ghost use Rattle.wm_marks.specs.Marking.{Gives};
ghost use Rattle.wm_body.specs.Declarations as spec;

use crate::lengths::{array_length, constant_of, constants, count_of, listed};
use crate::work::{Work, static_name};
use sqlite_items::Items;
use std::alloc::Global;
use wm_lang::{Declaration, Declarator, Identifier, Initializer, InitializerList, Name};
use wm_marks::Marks;
use wm_ops::{List, NoMemory, Width};
use wm_program::{Array, Converted, Declared, Expr as Tree, ObjectInfo, Scalar, Statement};
use wm_scope::{Meaning, Scope};
use wm_source::width;
use wm_value::{narrowing, number};

/// The name that a declarator declares.
pub fn name_of(declarator: &Declarator) -> &Identifier
    ensures name { result.now ≡ spec.name_of declarator.now }
{
    match declarator {
        Declarator::Scalar { name, .. } => name,
        Declarator::Array { name, .. } => name,
    }
}

#[tactic(auto, unfolding(crate::specs::Declarations::length_of))]
/// The length of a declared array; None for a scalar.
fn length_of(
    declarator: &Declarator,
    alloc: Global,
    scope: &Scope,
    marks: &mut Marks,
) -> Result<Option<u32>, NoMemory>
    ensures { Gives (spec.length_of declarator.now scope.now marks.old) result marks.new }
{
    match declarator {
        Declarator::Scalar { .. } => Ok(None),
        Declarator::Array {
            name,
            length,
            initial,
            ..
        } => {
            let length = array_length(length, count_of(initial), name.at, alloc, scope, marks)?;
            Ok(Some(length))
        }
    }
}

fn value_constants(
    initial: &Option<Initializer>,
    width: Width,
    alloc: Global,
    scope: &Scope,
    marks: &mut Marks,
) -> Result<Items<i64>, NoMemory>
    ensures { Gives (spec.value_constants width initial.now scope.now marks.old) result marks.new }
{
    match initial {
        None => Ok(Items::new(alloc)),
        Some(initial) => {
            let mut found = Items::new(alloc);
            found.push(constant_of(&initial.value, width, alloc, scope, marks)?)?;
            Ok(found)
        }
    }
}

fn list_constants(
    initial: &Option<InitializerList>,
    width: Width,
    alloc: Global,
    scope: &Scope,
    marks: &mut Marks,
) -> Result<Items<i64>, NoMemory>
    ensures { Gives (spec.list_constants width initial.now scope.now marks.old) result marks.new }
{
    match initial {
        None => Ok(Items::new(alloc)),
        Some(initial) => constants(initial.values.as_slice(), width, alloc, scope, marks),
    }
}

#[tactic(auto, unfolding(crate::specs::Declarations::constants_of))]
/// The numbers that an object begins with.
fn constants_of(
    declarator: &Declarator,
    width: Width,
    alloc: Global,
    scope: &Scope,
    marks: &mut Marks,
) -> Result<Items<i64>, NoMemory>
    ensures { Gives (spec.constants_of width declarator.now scope.now marks.old) result marks.new }
{
    match declarator {
        Declarator::Scalar { initial, .. } => value_constants(initial, width, alloc, scope, marks),
        Declarator::Array { initial, .. } => list_constants(initial, width, alloc, scope, marks),
    }
}

fn info(
    name: Name,
    width: Width,
    constant: bool,
    length: Option<u32>,
    initial: List<i64>,
) -> ObjectInfo
    ensures { result ≡ spec.info name width constant length initial }
{
    match length {
        None => ObjectInfo {
            name,
            width,
            length: 1,
            scalar: true,
            constant,
            addressed: false,
            initial,
            input: false,
        },
        Some(length) => ObjectInfo {
            name,
            width,
            length,
            scalar: false,
            constant,
            addressed: false,
            initial,
            input: false,
        },
    }
}

/// What the name of an object stands for.
pub fn object_meaning(object: u32, width: Width, is_const: bool, is_array: bool) -> Meaning
    ensures meaning { result ≡ spec.object_meaning object width is_const is_array }
{
    if is_array {
        return Meaning::Array {
            array: Array::Object(object),
            width,
            is_const,
        };
    }
    Meaning::Scalar {
        scalar: Scalar::Object(object),
        width,
        is_const,
    }
}

fn local_meaning(local: u32, width: Width, is_const: bool, length: Option<u32>) -> Meaning
    ensures { result ≡ spec.local_meaning local width is_const length }
{
    match length {
        None => Meaning::Scalar {
            scalar: Scalar::Local(local),
            width,
            is_const,
        },
        Some(_) => Meaning::Array {
            array: Array::Local(local),
            width,
            is_const,
        },
    }
}

#[tactic(auto, unfolding(crate::specs::Declarations::object))]
/// An object of file scope.
pub fn object(
    declarator: &Declarator,
    width: Width,
    is_const: bool,
    alloc: Global,
    work: &mut Work,
) -> Result<u32, NoMemory>
    ensures object { Gives (spec.object width is_const declarator.now work.old) result work.new }
{
    let id = name_of(declarator);
    let length = length_of(declarator, alloc, &work.scope, &mut work.marks)?;
    let numbers = constants_of(declarator, width, alloc, &work.scope, &mut work.marks)?;
    let initial = listed(alloc, numbers.as_slice())?;
    let name = Name::new(alloc, id.name.bytes())?;
    work.make_object(id.at, info(name, width, is_const, length, initial))
}

#[tactic(auto, unfolding(crate::specs::Declarations::static_object, crate::specs::Declarations::make_static))]
/// An object of a block.
fn static_object(
    declarator: &Declarator,
    width: Width,
    is_const: bool,
    alloc: Global,
    work: &mut Work,
) -> Result<(), NoMemory>
    ensures { Gives (spec.static_object width is_const declarator.now work.old) result work.new }
{
    let id = name_of(declarator);
    let length = length_of(declarator, alloc, &work.scope, &mut work.marks)?;
    work.check(id);
    work.declare(alloc, id, Meaning::Nothing)?;
    let numbers = constants_of(declarator, width, alloc, &work.scope, &mut work.marks)?;
    let initial = listed(alloc, numbers.as_slice())?;
    let name = static_name(alloc, work.name.bytes(), id.name.bytes())?;
    let object = work.make_object(id.at, info(name, width, is_const, length, initial))?;
    work.declare(
        alloc,
        id,
        object_meaning(object, width, is_const, length.is_some()),
    )
}

#[tactic(auto, unfolding(crate::specs::Declarations::converted))]
fn converted(
    initial: &Option<Initializer>,
    width: Width,
    alloc: Global,
    scope: &Scope,
    marks: &mut Marks,
) -> Result<Option<Converted<Tree>>, NoMemory>
    ensures { Gives (spec.converted width initial.now scope.now marks.old) result marks.new }
{
    match initial {
        None => Ok(None),
        Some(initial) => {
            let narrowing = narrowing(&initial.value, width, initial.at, scope, marks)?;
            let value = number(&initial.value, alloc, scope, marks)?;
            Ok(Some(Converted { value, narrowing }))
        }
    }
}

#[tactic(auto, unfolding(crate::specs::Declarations::values_of))]
fn values_of(
    initial: &Option<InitializerList>,
    width: Width,
    alloc: Global,
    scope: &Scope,
    marks: &mut Marks,
) -> Result<Option<Items<i64>>, NoMemory>
    ensures { Gives (spec.values_of width initial.now scope.now marks.old) result marks.new }
{
    match initial {
        None => Ok(None),
        Some(initial) => {
            let found = constants(initial.values.as_slice(), width, alloc, scope, marks)?;
            Ok(Some(found))
        }
    }
}

fn length_or(length: Option<u32>) -> u32
    ensures { result ≡ spec.length_or length }
{
    match length {
        None => 1,
        Some(length) => length,
    }
}

#[tactic(auto, unfolding(crate::specs::Declarations::fresh))]
fn fresh(
    declarator: &Declarator,
    local: u32,
    width: Width,
    length: Option<u32>,
    alloc: Global,
    scope: &Scope,
    marks: &mut Marks,
) -> Result<Declared, NoMemory>
    ensures { Gives (spec.fresh local width length declarator.now scope.now marks.old) result marks.new }
{
    match declarator {
        Declarator::Scalar { initial, .. } => {
            let initial = converted(initial, width, alloc, scope, marks)?;
            Ok(Declared::Scalar {
                local,
                width,
                initial,
            })
        }
        Declarator::Array { initial, .. } => {
            let values = values_of(initial, width, alloc, scope, marks)?;
            Ok(Declared::Array {
                local,
                length: length_or(length),
                values,
            })
        }
    }
}

#[tactic(auto, unfolding(crate::specs::Declarations::automatic))]
/// An automatic variable.
fn automatic(
    declarator: &Declarator,
    width: Width,
    is_const: bool,
    alloc: Global,
    work: &mut Work,
) -> Result<Declared, NoMemory>
    ensures { Gives (spec.automatic width is_const declarator.now work.old) result work.new }
{
    let id = name_of(declarator);
    let length = length_of(declarator, alloc, &work.scope, &mut work.marks)?;
    work.check(id);
    let local = work.make_local(alloc, id, width, length, false)?;
    work.declare(alloc, id, Meaning::Nothing)?;
    let made = fresh(
        declarator,
        local,
        width,
        length,
        alloc,
        &work.scope,
        &mut work.marks,
    )?;
    work.declare(alloc, id, local_meaning(local, width, is_const, length))?;
    Ok(made)
}

#[tactic(auto, unfolding(crate::specs::Declarations::declared))]
/// One name of a declaration in a block; an object of static storage gives nothing.
fn declared(
    declarator: &Declarator,
    is_static: bool,
    width: Width,
    is_const: bool,
    alloc: Global,
    work: &mut Work,
) -> Result<Option<Declared>, NoMemory>
    ensures { Gives (spec.declared is_static width is_const declarator.now work.old) result work.new }
{
    if is_static {
        static_object(declarator, width, is_const, alloc, work)?;
        return Ok(None);
    }
    let made = automatic(declarator, width, is_const, alloc, work)?;
    Ok(Some(made))
}

fn keep(found: &mut Items<Declared>, made: Option<Declared>) -> Result<(), NoMemory>
    ensures { IfOk result (λ done. found.new ≡ spec.kept found.old made) }
{
    match made {
        None => Ok(()),
        Some(made) => {
            found.push(made)?;
            Ok(())
        }
    }
}

#[tactic(auto, unfolding(crate::specs::Declarations::declaration))]
/// A declaration in a block.
pub fn declaration(
    declaration: &Declaration,
    alloc: Global,
    work: &mut Work,
) -> Result<Statement, NoMemory>
    ensures declaration { Gives (spec.declaration declaration.now work.old) result work.new }
{
    let width = width(declaration.base);
    let is_static = declaration.words.is_static;
    let is_const = declaration.words.is_const;
    let mut found = Items::new(alloc);
    for declarator in declaration.declarators.as_slice() {
        let made = declared(declarator, is_static, width, is_const, alloc, work)?;
        keep(&mut found, made)?;
    }
    Ok(Statement::Declare(found))
}
