// Assignments, steps and calls.
ghost use Rattle.std.specs.Prelude.{◌≡◌, []};
ghost use Rattle.wm_marks.specs.Marking.{Gives};
ghost use Rattle.wm_body.specs.Simples as spec;

use sqlite_items::{Boxed, Items};
use std::alloc::Global;
use wm_lang::{AssignMark, Expr, Identifier, Position, Simple, Spot, SpotKind, StepMark};
use wm_marks::Marks;
use wm_ops::{NoMemory, Width};
use wm_program::{
    Array, Converted, Expr as Tree, PlainMark, Scalar, Simple as Act, SiteKind, Spot as Target,
};
use wm_scope::{Meaning, Scope, TokenFault};
use wm_value::{Value, array_at, call, is_narrow, narrowing, number, pointed, spot_width};

fn protect(is_const: bool, at: Position, marks: &mut Marks)
    ensures { marks.new ≡ spec.protected is_const at marks.old }
{
    if is_const {
        marks.note(TokenFault::AssignToConst, at);
    }
}

fn no_target(at: Position, marks: &mut Marks) -> Target
    ensures { spec.no_target at marks.old ≡ (result, marks.new) }
{
    marks.note(TokenFault::WrongKind, at);
    Target::Scalar(Scalar::Overflow)
}

#[tactic(auto, unfolding(crate::specs::Simples::named_target))]
fn named_target(at: Position, name: &Identifier, scope: &Scope, marks: &mut Marks) -> Target
    ensures { spec.named_target scope.now at name.now marks.old ≡ (result, marks.new) }
{
    match scope.meaning(name.name.bytes()) {
        Meaning::Operator(_) => no_target(at, marks),
        Meaning::Counting(_) => no_target(at, marks),
        Meaning::Function(_) => no_target(at, marks),
        Meaning::Scalar {
            scalar,
            is_const,
            ..
        } => {
            protect(is_const, at, marks);
            Target::Scalar(scalar)
        }
        Meaning::Array { .. } => no_target(at, marks),
        Meaning::Nothing => {
            marks.note(TokenFault::UnknownName, name.at);
            Target::Scalar(Scalar::Overflow)
        }
    }
}

fn is_const_array(meaning: Meaning) -> bool
    ensures { result ≡ spec.is_const_array meaning }
{
    match meaning {
        Meaning::Operator(_) => false,
        Meaning::Counting(_) => false,
        Meaning::Function(_) => false,
        Meaning::Scalar { .. } => false,
        Meaning::Array { is_const, .. } => is_const,
        Meaning::Nothing => false,
    }
}

/// Whether a spot is an element of a const array.
fn is_const_element(kind: &SpotKind<Boxed<Expr>>, scope: &Scope) -> bool
    ensures { result ≡ spec.is_const_element scope.now kind.now }
{
    match kind {
        SpotKind::Scalar { .. } => false,
        SpotKind::Element { name, .. } => is_const_array(scope.meaning(name.name.bytes())),
        SpotKind::Pointed { name, .. } => is_const_array(scope.meaning(name.name.bytes())),
        SpotKind::Member { .. } => false,
        SpotKind::MemberElement { .. } => false,
    }
}

#[tactic(auto, unfolding(crate::specs::Simples::element_target))]
/// `a[e]`
fn element_target(
    name: &Identifier,
    bracket: Position,
    index: &Expr,
    alloc: Global,
    scope: &Scope,
    marks: &mut Marks,
) -> Result<Target, NoMemory>
    ensures { Gives (spec.element_target scope.now name.now bracket index.now marks.old) result marks.new }
{
    let array = array_at(name, name.at, scope, marks);
    let site = marks.site(SiteKind::Index, bracket)?;
    let index = number(index, alloc, scope, marks)?;
    Ok(Target::Element { array, index, site })
}

#[tactic(auto, unfolding(crate::specs::Simples::pointed_target))]
/// `*p`
fn pointed_target(
    star: Position,
    name: &Identifier,
    scope: &Scope,
    marks: &mut Marks,
) -> Result<Target, NoMemory>
    ensures { Gives (spec.pointed_target scope.now star name.now marks.old) result marks.new }
{
    let (array, site) = pointed(star, name, scope, marks)?;
    Ok(Target::Element {
        array,
        index: Tree::Constant(0),
        site,
    })
}

#[tactic(auto, unfolding(crate::specs::Simples::bare_target))]
fn bare_target(
    spot: &Spot<Boxed<Expr>>,
    alloc: Global,
    scope: &Scope,
    marks: &mut Marks,
) -> Result<Target, NoMemory>
    ensures { Gives (spec.bare_target scope.now spot.now.at spot.now.kind marks.old) result marks.new }
{
    match &spot.kind {
        SpotKind::Scalar { name } => Ok(named_target(spot.at, name, scope, marks)),
        SpotKind::Element {
            name,
            bracket,
            index,
        } => element_target(name, *bracket, index.get(), alloc, scope, marks),
        SpotKind::Pointed { star, name } => pointed_target(*star, name, scope, marks),
        SpotKind::Member { .. } => Ok(Target::Scalar(Scalar::Overflow)),
        SpotKind::MemberElement { .. } => Ok(Target::Scalar(Scalar::Overflow)),
    }
}

#[tactic(auto, unfolding(crate::specs::Simples::target))]
/// What an assignment writes.
fn target(
    spot: &Spot<Boxed<Expr>>,
    alloc: Global,
    scope: &Scope,
    marks: &mut Marks,
) -> Result<Target, NoMemory>
    ensures { Gives (spec.target scope.now spot.now.at spot.now.kind marks.old) result marks.new }
{
    protect(is_const_element(&spot.kind, scope), spot.at, marks);
    bare_target(spot, alloc, scope, marks)
}

#[tactic(auto, unfolding(crate::specs::Simples::update_sites))]
/// The sites of an update: that of its arithmetic, and that of its conversion to 16 bits.
fn update_sites(
    width: Width,
    at: Position,
    marks: &mut Marks,
) -> Result<(u32, Option<u32>), NoMemory>
    ensures { Gives (spec.update_sites width at marks.old) result marks.new }
{
    let arithmetic = marks.site(SiteKind::Arithmetic, at)?;
    if is_narrow(width) {
        let site = marks.site(SiteKind::Narrowing, at)?;
        return Ok((arithmetic, Some(site)));
    }
    Ok((arithmetic, None))
}

#[tactic(auto, unfolding(crate::specs::Simples::update))]
/// `spot += value` and its kin.
fn update(
    spot: &Spot<Boxed<Expr>>,
    mark: PlainMark,
    at: Position,
    value: &Expr,
    alloc: Global,
    scope: &Scope,
    marks: &mut Marks,
) -> Result<Act, NoMemory>
    ensures { Gives (spec.update scope.now spot.now.at spot.now.kind mark at value.now marks.old) result marks.new }
{
    let target = target(spot, alloc, scope, marks)?;
    let (arithmetic, narrowing) = update_sites(spot_width(&spot.kind, scope), at, marks)?;
    let value = number(value, alloc, scope, marks)?;
    Ok(Act::Update {
        spot: target,
        mark,
        value,
        arithmetic,
        narrowing,
    })
}

#[tactic(auto, unfolding(crate::specs::Simples::assign))]
fn assign(
    spot: &Spot<Boxed<Expr>>,
    mark: AssignMark,
    at: Position,
    value: &Expr,
    alloc: Global,
    scope: &Scope,
    marks: &mut Marks,
) -> Result<Act, NoMemory>
    ensures { Gives (spec.assign scope.now spot.now.at spot.now.kind mark at value.now marks.old) result marks.new }
{
    match mark {
        AssignMark::Plain => {
            let target = target(spot, alloc, scope, marks)?;
            let narrowing = narrowing(value, spot_width(&spot.kind, scope), at, scope, marks)?;
            let value = number(value, alloc, scope, marks)?;
            Ok(Act::Assign {
                spot: target,
                value: Converted { value, narrowing },
            })
        }
        AssignMark::Plus => update(spot, PlainMark::Plus, at, value, alloc, scope, marks),
        AssignMark::Minus => update(spot, PlainMark::Minus, at, value, alloc, scope, marks),
        AssignMark::Times => update(spot, PlainMark::Times, at, value, alloc, scope, marks),
    }
}

fn step_of(mark: StepMark) -> PlainMark
    ensures { result ≡ spec.step_of mark }
{
    match mark {
        StepMark::Increment => PlainMark::Plus,
        StepMark::Decrement => PlainMark::Minus,
    }
}

#[tactic(auto, unfolding(crate::specs::Simples::step_after))]
fn step_after(
    spot: &Spot<Boxed<Expr>>,
    mark: StepMark,
    at: Position,
    alloc: Global,
    scope: &Scope,
    marks: &mut Marks,
) -> Result<Act, NoMemory>
    ensures { Gives (spec.step_after scope.now spot.now.at spot.now.kind mark at marks.old) result marks.new }
{
    let target = target(spot, alloc, scope, marks)?;
    let (arithmetic, narrowing) = update_sites(spot_width(&spot.kind, scope), at, marks)?;
    Ok(Act::Update {
        spot: target,
        mark: step_of(mark),
        value: Tree::Constant(1),
        arithmetic,
        narrowing,
    })
}

#[tactic(auto, unfolding(crate::specs::Simples::step_before))]
fn step_before(
    spot: &Spot<Boxed<Expr>>,
    mark: StepMark,
    at: Position,
    alloc: Global,
    scope: &Scope,
    marks: &mut Marks,
) -> Result<Act, NoMemory>
    ensures { Gives (spec.step_before scope.now spot.now.at spot.now.kind mark at marks.old) result marks.new }
{
    let (arithmetic, narrowing) = update_sites(spot_width(&spot.kind, scope), at, marks)?;
    let target = target(spot, alloc, scope, marks)?;
    Ok(Act::Update {
        spot: target,
        mark: step_of(mark),
        value: Tree::Constant(1),
        arithmetic,
        narrowing,
    })
}

fn act_of(value: Value) -> Act
    ensures { result ≡ spec.act_of value }
{
    match value {
        Value::Number(number) => Act::Evaluate(number),
        Value::Effect(act) => act,
        Value::Truth(_) => Act::Evaluate(Tree::Constant(0)),
        Value::View { .. } => Act::Evaluate(Tree::Constant(0)),
        Value::LostView => Act::Evaluate(Tree::Constant(0)),
        Value::Function => Act::Evaluate(Tree::Constant(0)),
        Value::Nothing => Act::Evaluate(Tree::Constant(0)),
    }
}

#[tactic(auto, unfolding(crate::specs::Simples::simple))]
/// An assignment, a step or a call.
pub fn simple(
    simple: &Simple,
    alloc: Global,
    scope: &Scope,
    marks: &mut Marks,
) -> Result<Act, NoMemory>
    ensures simple { Gives (spec.simple scope.now simple.now marks.old) result marks.new }
{
    match simple {
        Simple::Assign {
            spot,
            mark,
            at,
            value,
        } => assign(spot, *mark, *at, value, alloc, scope, marks),
        Simple::StepAfter { spot, mark, at } => step_after(spot, *mark, *at, alloc, scope, marks),
        Simple::StepBefore { mark, at, spot } => step_before(spot, *mark, *at, alloc, scope, marks),
        Simple::Call(called) => {
            let value = call(called, alloc, scope, marks)?;
            Ok(act_of(value))
        }
    }
}

/// Several of these.
pub fn simples(
    simples: &[Simple],
    alloc: Global,
    scope: &Scope,
    marks: &mut Marks,
) -> Result<Items<Act>, NoMemory>
    ensures simples { Gives (spec.all_simple scope.now [] simples.now marks.old) result marks.new }
{
    let mut found = Items::new(alloc);
    for one in simples {
        found.push(simple(one, alloc, scope, marks)?)?;
    }
    Ok(found)
}
