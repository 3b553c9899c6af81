// What an expression is where a number, a condition or a view is needed, and what names are by themselves.
ghost use Rattle.std.specs.Prelude.{◌≡◌};
ghost use Rattle.wm_marks.specs.Marking.{Gives};
ghost use Rattle.wm_value.specs.Kinds as kinds;

use crate::form::{Begun, Sight, Value};
use wm_lang::{Identifier, Position};
use wm_marks::Marks;
use wm_ops::{NoMemory, Width};
use wm_program::{Array, Condition, Converted, Expr, Passed, Scalar, SiteKind, View};
use wm_scope::{Meaning, Scope, Slot, TokenFault};

fn no_number() -> Expr
    ensures { result ≡ kinds.no_number }
{
    Expr::Constant(0)
}

fn wrong_number(at: Position, marks: &mut Marks) -> Expr
    ensures { kinds.wrong kinds.no_number at marks.old ≡ (result, marks.new) }
{
    marks.note(TokenFault::WrongKind, at);
    no_number()
}

fn wrong_condition(at: Position, marks: &mut Marks) -> Condition
    ensures { kinds.wrong kinds.no_condition at marks.old ≡ (result, marks.new) }
{
    marks.note(TokenFault::WrongKind, at);
    Condition::Truth(no_number())
}

fn wrong_view(at: Position, marks: &mut Marks) -> View<Expr>
    ensures { kinds.wrong kinds.no_view at marks.old ≡ (result, marks.new) }
{
    marks.note(TokenFault::WrongKind, at);
    View::Whole(Array::Object(0))
}

fn wrong_array(at: Position, marks: &mut Marks) -> Array
    ensures { kinds.wrong kinds.no_array at marks.old ≡ (result, marks.new) }
{
    marks.note(TokenFault::WrongKind, at);
    Array::Object(0)
}

fn lost(at: Position, marks: &mut Marks) -> Value
    ensures { kinds.wrong Value.LostView at marks.old ≡ (result, marks.new) }
{
    marks.note(TokenFault::WrongKind, at);
    Value::LostView
}

#[tactic(auto, unfolding(crate::specs::Kinds::number_of))]
/// The number that a value is, where one is needed at this place.
pub fn number_of(value: Value, at: Position, marks: &mut Marks) -> Expr
    ensures number { kinds.number_of at value marks.old ≡ (result, marks.new) }
{
    match value {
        Value::Number(number) => number,
        Value::Truth(_) => wrong_number(at, marks),
        Value::View { .. } => wrong_number(at, marks),
        Value::LostView => wrong_number(at, marks),
        Value::Function => wrong_number(at, marks),
        Value::Effect(_) => wrong_number(at, marks),
        Value::Nothing => no_number(),
    }
}

#[tactic(auto, unfolding(crate::specs::Kinds::condition_of))]
/// The condition that a value is, where one is needed at this place.
pub fn condition_of(value: Value, at: Position, marks: &mut Marks) -> Condition
    ensures condition { kinds.condition_of at value marks.old ≡ (result, marks.new) }
{
    match value {
        Value::Number(number) => Condition::Truth(number),
        Value::Truth(condition) => condition,
        Value::View { .. } => wrong_condition(at, marks),
        Value::LostView => wrong_condition(at, marks),
        Value::Function => wrong_condition(at, marks),
        Value::Effect(_) => wrong_condition(at, marks),
        Value::Nothing => Condition::Truth(no_number()),
    }
}

/// Whether a width is that of 16 bits.
pub fn is_narrow(width: Width) -> bool
    ensures narrow { result ≡ kinds.is_narrow width }
{
    match width {
        Width::W16 => true,
        Width::W32 => false,
    }
}

fn same_width(one: Width, other: Width) -> bool
    ensures { result ≡ kinds.same_width one other }
{
    match one {
        Width::W16 => match other {
            Width::W16 => true,
            Width::W32 => false,
        },
        Width::W32 => match other {
            Width::W16 => false,
            Width::W32 => true,
        },
    }
}

fn fits(sight: Sight, slot: Slot) -> bool
    ensures { result ≡ kinds.fits sight slot }
{
    if same_width(sight.width, slot.width) {
        if sight.is_const {
            return slot.is_const;
        }
        return true;
    }
    false
}

fn view_of(value: Value, at: Position, slot: Slot, marks: &mut Marks) -> View<Expr>
    ensures { kinds.view_of at slot value marks.old ≡ (result, marks.new) }
{
    match value {
        Value::Number(_) => wrong_view(at, marks),
        Value::Truth(_) => wrong_view(at, marks),
        Value::View { view, sight } => {
            if fits(sight, slot) {
                return view;
            }
            wrong_view(at, marks)
        }
        Value::LostView => View::Whole(Array::Object(0)),
        Value::Function => wrong_view(at, marks),
        Value::Effect(_) => wrong_view(at, marks),
        Value::Nothing => View::Whole(Array::Object(0)),
    }
}

fn passed_to(
    value: Value,
    at: Position,
    slot: Slot,
    narrowing: Option<u32>,
    marks: &mut Marks,
) -> Passed<Expr>
    ensures { kinds.passed_by slot.is_view at slot narrowing value marks.old ≡ (result, marks.new) }
{
    if slot.is_view {
        return Passed::View(view_of(value, at, slot, marks));
    }
    let value = number_of(value, at, marks);
    Passed::Value(Converted { value, narrowing })
}

#[tactic(auto, unfolding(crate::specs::Kinds::passed_of))]
/// An argument, for a parameter or for none.
pub fn passed_of(
    value: Value,
    at: Position,
    slot: Option<Slot>,
    narrowing: Option<u32>,
    marks: &mut Marks,
) -> Passed<Expr>
    ensures passed { kinds.passed_of at slot narrowing value marks.old ≡ (result, marks.new) }
{
    match slot {
        None => Passed::Value(Converted {
            value: no_number(),
            narrowing: None,
        }),
        Some(slot) => passed_to(value, at, slot, narrowing, marks),
    }
}

fn whole(array: Array, width: Width, is_const: bool) -> Value
    ensures { result ≡ kinds.whole_of array width is_const }
{
    Value::View {
        view: View::Whole(array),
        sight: Sight {
            array,
            width,
            is_const,
        },
    }
}

#[tactic(auto, unfolding(crate::specs::Kinds::named))]
/// What a name is by itself.
pub fn named(name: &Identifier, scope: &Scope, marks: &mut Marks) -> Value
    ensures named { kinds.named scope.now name.now marks.old ≡ (result, marks.new) }
{
    match scope.meaning(name.name.bytes()) {
        Meaning::Operator(_) => Value::Function,
        Meaning::Counting(_) => Value::Function,
        Meaning::Function(_) => Value::Function,
        Meaning::Scalar { scalar, .. } => Value::Number(Expr::Scalar(scalar)),
        Meaning::Array {
            array,
            width,
            is_const,
        } => whole(array, width, is_const),
        Meaning::Nothing => {
            marks.note(TokenFault::UnknownName, name.at);
            Value::Nothing
        }
    }
}

#[tactic(auto, unfolding(crate::specs::Kinds::array_at))]
/// The array that a name is. One of another kind is told at the given place.
pub fn array_at(name: &Identifier, wrong_at: Position, scope: &Scope, marks: &mut Marks) -> Array
    ensures array { kinds.array_at scope.now name.now wrong_at marks.old ≡ (result, marks.new) }
{
    match scope.meaning(name.name.bytes()) {
        Meaning::Operator(_) => wrong_array(wrong_at, marks),
        Meaning::Counting(_) => wrong_array(wrong_at, marks),
        Meaning::Function(_) => wrong_array(wrong_at, marks),
        Meaning::Scalar { .. } => wrong_array(wrong_at, marks),
        Meaning::Array { array, .. } => array,
        Meaning::Nothing => {
            marks.note(TokenFault::UnknownName, name.at);
            Array::Object(0)
        }
    }
}

#[tactic(auto, unfolding(crate::specs::Kinds::pointed_at))]
/// `*p`
pub fn pointed(
    star: Position,
    name: &Identifier,
    scope: &Scope,
    marks: &mut Marks,
) -> Result<(Array, u32), NoMemory>
    ensures pointed { Gives (kinds.pointed_at scope.now star name.now marks.old) result marks.new }
{
    let array = array_at(name, star, scope, marks);
    let site = marks.site(SiteKind::Index, star)?;
    Ok((array, site))
}

fn addressed(
    at: Position,
    scalar: Scalar,
    width: Width,
    is_const: bool,
    marks: &mut Marks,
) -> Result<Value, NoMemory>
    ensures { Gives (kinds.addressed_by at scalar width is_const marks.old) result marks.new }
{
    match scalar {
        Scalar::Overflow => Ok(lost(at, marks)),
        Scalar::Object(object) => {
            marks.take_object(object)?;
            Ok(whole(Array::Object(object), width, is_const))
        }
        Scalar::Local(local) => {
            marks.take_local(local)?;
            Ok(whole(Array::Local(local), width, is_const))
        }
    }
}

#[tactic(auto, unfolding(crate::specs::Kinds::address))]
/// `&v`
pub fn address(
    at: Position,
    name: &Identifier,
    scope: &Scope,
    marks: &mut Marks,
) -> Result<Value, NoMemory>
    ensures address { Gives (kinds.address scope.now at name.now marks.old) result marks.new }
{
    match scope.meaning(name.name.bytes()) {
        Meaning::Operator(_) => Ok(lost(at, marks)),
        Meaning::Counting(_) => Ok(lost(at, marks)),
        Meaning::Function(_) => Ok(lost(at, marks)),
        Meaning::Scalar {
            scalar,
            width,
            is_const,
        } => addressed(at, scalar, width, is_const, marks),
        Meaning::Array { .. } => Ok(lost(at, marks)),
        Meaning::Nothing => {
            marks.note(TokenFault::UnknownName, name.at);
            Ok(Value::LostView)
        }
    }
}

fn scalar_place(at: Position, name_at: Position, scalar: Scalar) -> Position
    ensures { result ≡ kinds.scalar_place at name_at scalar }
{
    match scalar {
        Scalar::Overflow => at,
        Scalar::Object(_) => name_at,
        Scalar::Local(_) => name_at,
    }
}

fn no_sight(at: Position, marks: &mut Marks) -> Option<Sight>
    ensures { kinds.wrong None at marks.old ≡ (result, marks.new) }
{
    marks.note(TokenFault::WrongKind, at);
    None
}

#[tactic(auto, unfolding(crate::specs::Kinds::sight_at))]
/// The array of `&a[e]`.
pub fn sight_at(at: Position, name: &Identifier, scope: &Scope, marks: &mut Marks) -> Option<Sight>
    ensures sight { kinds.sight_at scope.now at name.now marks.old ≡ (result, marks.new) }
{
    match scope.meaning(name.name.bytes()) {
        Meaning::Operator(_) => no_sight(name.at, marks),
        Meaning::Counting(_) => no_sight(name.at, marks),
        Meaning::Function(_) => no_sight(name.at, marks),
        Meaning::Scalar { scalar, .. } => no_sight(scalar_place(at, name.at, scalar), marks),
        Meaning::Array {
            array,
            width,
            is_const,
        } => Some(Sight {
            array,
            width,
            is_const,
        }),
        Meaning::Nothing => {
            marks.note(TokenFault::UnknownName, name.at);
            None
        }
    }
}

#[tactic(auto, unfolding(crate::specs::Kinds::part_of))]
/// The part of an array from an index on.
pub fn part_of(sight: Option<Sight>, index: Expr, site: u32) -> Value
    ensures part { result ≡ kinds.part_of sight index site }
{
    match sight {
        None => Value::LostView,
        Some(sight) => Value::View {
            view: View::From {
                array: sight.array,
                index,
                site,
            },
            sight,
        },
    }
}

/// `&a[e]` before its index is read.
#[tactic(auto, unfolding(crate::specs::Kinds::begin_part))]
pub fn begin_part(
    at: Position,
    name: &Identifier,
    bracket: Position,
    scope: &Scope,
    marks: &mut Marks,
) -> Result<Begun, NoMemory>
    ensures begun { Gives (kinds.begin_part scope.now at name.now bracket marks.old) result marks.new }
{
    let sight = sight_at(at, name, scope, marks);
    let site = marks.site(SiteKind::View, bracket)?;
    Ok(Begun { sight, site })
}

/// `&a[e]` behind its index, which begins at this place.
#[tactic(auto, unfolding(crate::specs::Kinds::part_value))]
pub fn part_value(index: Value, at: Position, begun: Begun, marks: &mut Marks) -> Value
    ensures part { kinds.part_value at begun index marks.old ≡ (result, marks.new) }
{
    let number = number_of(index, at, marks);
    part_of(begun.sight, number, begun.site)
}
