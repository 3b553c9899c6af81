// The type of an expression, and what is known of it before it is read.
ghost use Rattle.std.specs.Prelude.{◌≡◌, [], IfOk, slice_get};
ghost use Rattle.std.specs.Option.{option_copied};
ghost use Rattle.wm_marks.specs.Marking.{Gives};
ghost use Rattle.wm_source.specs.Reading.{source_of, sum_mark};
ghost use Rattle.wm_source.specs.Written.{written_sources, sum_parts};
ghost use Rattle.wm_source.specs.Firsts.{name_of};
ghost use Rattle.wm_value.specs.Widths as widths;

use crate::form::{Head, Sight};
use crate::kinds::is_narrow;
use sqlite_items::{Boxed, Items};
use std::alloc::Global;
use wm_lang::{Expr, Identifier, Part, Position, SpotKind, SumMark, UnaryMark};
use wm_marks::Marks;
use wm_ops::{List, NoMemory, Op, Width, arg_width, arity, result_width};
use wm_program::{Array, Scalar, SiteKind};
use wm_scope::{Meaning, Scope, Slot};
use wm_source::{constant, first, name, width};

fn scalar_width(meaning: Meaning) -> Width
    ensures { result ≡ widths.scalar_width meaning }
{
    match meaning {
        Meaning::Operator(_) => Width::W32,
        Meaning::Counting(_) => Width::W32,
        Meaning::Function(_) => Width::W32,
        Meaning::Scalar { width, .. } => width,
        Meaning::Array { .. } => Width::W32,
        Meaning::Nothing => Width::W32,
    }
}

fn element_width(meaning: Meaning) -> Width
    ensures { result ≡ widths.element_width meaning }
{
    match meaning {
        Meaning::Operator(_) => Width::W32,
        Meaning::Counting(_) => Width::W32,
        Meaning::Function(_) => Width::W32,
        Meaning::Scalar { .. } => Width::W32,
        Meaning::Array { width, .. } => width,
        Meaning::Nothing => Width::W32,
    }
}

fn width_or(width: Option<Width>) -> Width
    ensures { result ≡ widths.width_or width }
{
    match width {
        None => Width::W32,
        Some(width) => width,
    }
}

fn call_width(meaning: Meaning, scope: &Scope) -> Width
    ensures { result ≡ widths.call_width scope.now meaning }
{
    match meaning {
        Meaning::Operator(op) => result_width(op),
        Meaning::Counting(_) => Width::W32,
        Meaning::Function(number) => width_or(scope.result(number)),
        Meaning::Scalar { .. } => Width::W32,
        Meaning::Array { .. } => Width::W32,
        Meaning::Nothing => Width::W32,
    }
}

/// The type of an expression: that of a variable, element, cast, operator or function, else 32 bits.
pub fn width_of(expression: &Expr, scope: &Scope) -> Width
    ensures width { result ≡ widths.width_in scope.now (source_of expression.now) }
{
    match expression {
        Expr::Cast { to, .. } => width(*to),
        Expr::Spot(spot) => match &spot.kind {
            SpotKind::Scalar { name } => scalar_width(scope.meaning(name.name.bytes())),
            SpotKind::Element { name, .. } => element_width(scope.meaning(name.name.bytes())),
            SpotKind::Pointed { name, .. } => element_width(scope.meaning(name.name.bytes())),
            SpotKind::Member { .. } => Width::W32,
            SpotKind::MemberElement { .. } => Width::W32,
        },
        Expr::Call(call) => call_width(scope.meaning(call.name.name.bytes()), scope),
        Expr::Parenthesis { inner, .. } => width_of(inner.get(), scope),
        Expr::Address { spot, .. } => match &spot.kind {
            SpotKind::Scalar { .. } => Width::W32,
            SpotKind::Element { .. } => Width::W32,
            SpotKind::Pointed { .. } => Width::W32,
            SpotKind::Member { .. } => Width::W32,
            SpotKind::MemberElement { .. } => Width::W32,
        },
        Expr::Or(_)
        | Expr::And(_)
        | Expr::Equality(_)
        | Expr::Relation(_)
        | Expr::Sum(_)
        | Expr::Product(_)
        | Expr::Unary { .. }
        | Expr::Number { .. } => Width::W32,
    }
}

/// The type of what an assignment writes.
pub fn spot_width(kind: &SpotKind<Boxed<Expr>>, scope: &Scope) -> Width
    ensures width { result ≡ widths.spot_width scope.now kind.now }
{
    match kind {
        SpotKind::Scalar { name } => scalar_width(scope.meaning(name.name.bytes())),
        SpotKind::Element { name, .. } => element_width(scope.meaning(name.name.bytes())),
        SpotKind::Pointed { name, .. } => element_width(scope.meaning(name.name.bytes())),
        SpotKind::Member { .. } => Width::W32,
        SpotKind::MemberElement { .. } => Width::W32,
    }
}

fn leaves(value: Option<i64>, width: Width) -> bool
    ensures { result ≡ widths.leaves value width }
{
    match value {
        None => !is_narrow(width),
        Some(z) => {
            if z < -32768 || 32767 < z {
                return true;
            }
            false
        }
    }
}

/// Whether a number of 32 bits goes to 16 bits, and is no constant that fits.
pub fn narrows(value: &Expr, to: Width, scope: &Scope) -> bool
    ensures narrows { result ≡ widths.narrows scope.now (source_of value.now) to }
{
    match to {
        Width::W16 => leaves(constant(value), width_of(value, scope)),
        Width::W32 => false,
    }
}

fn is_operator(meaning: Meaning) -> bool
    ensures { result ≡ widths.is_operator meaning }
{
    match meaning {
        Meaning::Operator(_) => true,
        Meaning::Counting(_) => false,
        Meaning::Function(_) => false,
        Meaning::Scalar { .. } => false,
        Meaning::Array { .. } => false,
        Meaning::Nothing => false,
    }
}

fn is_minus(mark: UnaryMark) -> bool
    ensures { result ≡ widths.is_minus mark }
{
    match mark {
        UnaryMark::Minus => true,
        UnaryMark::Plus => false,
        UnaryMark::Not => false,
    }
}

fn unless_constant(value: Option<i64>, carries: bool) -> bool
    ensures { result ≡ widths.unless_constant value carries }
{
    match value {
        None => carries,
        Some(_) => false,
    }
}

/// Whether the first token of an expression has a site of its own.
fn carries(value: &Expr, scope: &Scope) -> bool
    ensures { result ≡ widths.carries scope.now (source_of value.now) }
{
    match value {
        Expr::Or(chain) => unless_constant(constant(value), carries(chain.first.get(), scope)),
        Expr::And(chain) => unless_constant(constant(value), carries(chain.first.get(), scope)),
        Expr::Equality(chain) => unless_constant(
            constant(value),
            carries(chain.first.get(), scope),
        ),
        Expr::Relation(chain) => unless_constant(
            constant(value),
            carries(chain.first.get(), scope),
        ),
        Expr::Sum(chain) => unless_constant(constant(value), carries(chain.first.get(), scope)),
        Expr::Product(chain) => unless_constant(constant(value), carries(chain.first.get(), scope)),
        Expr::Unary { mark, .. } => unless_constant(constant(value), is_minus(*mark)),
        Expr::Cast { .. } => false,
        Expr::Number { .. } => false,
        Expr::Spot(spot) => match &spot.kind {
            SpotKind::Scalar { .. } => false,
            SpotKind::Element { .. } => false,
            SpotKind::Pointed { star, .. } => spot.at.token == star.token,
            SpotKind::Member { .. } => false,
            SpotKind::MemberElement { .. } => false,
        },
        Expr::Call(call) => is_operator(scope.meaning(call.name.name.bytes())),
        Expr::Parenthesis { .. } => false,
        Expr::Address { spot, .. } => match &spot.kind {
            SpotKind::Scalar { .. } => false,
            SpotKind::Element { .. } => false,
            SpotKind::Pointed { .. } => false,
            SpotKind::Member { .. } => false,
            SpotKind::MemberElement { .. } => false,
        },
    }
}

#[tactic(auto, unfolding(crate::specs::Widths::narrowing_in))]
/// The site of a conversion at a mark, if it is one.
pub fn narrowing(
    value: &Expr,
    to: Width,
    at: Position,
    scope: &Scope,
    marks: &mut Marks,
) -> Result<Option<u32>, NoMemory>
    ensures narrowing { Gives (widths.narrowing_in scope.now (source_of value.now) to at marks.old) result marks.new }
{
    if narrows(value, to, scope) {
        let site = marks.site(SiteKind::Narrowing, at)?;
        return Ok(Some(site));
    }
    Ok(None)
}

fn argument_site(carries: bool, at: Position, marks: &mut Marks) -> Result<u32, NoMemory>
    ensures { Gives (widths.argument_site carries at marks.old) result marks.new }
{
    if carries {
        return marks.site_behind(at);
    }
    marks.site(SiteKind::Narrowing, at)
}

#[tactic(auto, unfolding(crate::specs::Widths::argument_narrowing_in))]
/// The site of the conversion of an argument, if it is one. It stands behind that of the argument's first token.
pub fn argument_narrowing(
    value: &Expr,
    to: Width,
    scope: &Scope,
    marks: &mut Marks,
) -> Result<Option<u32>, NoMemory>
    ensures narrowing { Gives (widths.argument_narrowing_in scope.now (source_of value.now) to marks.old) result marks.new }
{
    if narrows(value, to, scope) {
        let site = argument_site(carries(value, scope), first(value), marks)?;
        return Ok(Some(site));
    }
    Ok(None)
}

#[tactic(auto, unfolding(crate::specs::Widths::width_at))]
/// The width of an operator's argument at a place; 32 bits for one too many.
pub fn width_at(op: Op, place: usize) -> Width
    ensures width { result ≡ widths.width_at op place }
{
    if place < arity(op) {
        return arg_width(op, place);
    }
    Width::W32
}

/// The slot at a place, if there is one.
pub fn slot_at(slots: &[Slot], place: usize) -> Option<Slot>
    ensures slot { result ≡ slice_get slots.now place }
{
    slots.get(place).copied()
}

#[tactic(auto, unfolding(crate::specs::Widths::passed_narrowing_in))]
/// The site of the conversion of what goes to a place of a function, if it is one.
pub fn passed_narrowing(
    value: &Expr,
    slot: Option<Slot>,
    scope: &Scope,
    marks: &mut Marks,
) -> Result<Option<u32>, NoMemory>
    ensures narrowing { Gives (widths.passed_narrowing_in scope.now (source_of value.now) slot marks.old) result marks.new }
{
    match slot {
        None => Ok(None),
        Some(slot) => {
            if slot.is_view {
                return Ok(None);
            }
            argument_narrowing(value, slot.width, scope, marks)
        }
    }
}

/// Whether a place of a function takes a view.
pub fn takes_view(slot: Option<Slot>) -> bool
    ensures view { result ≡ widths.takes_view slot }
{
    match slot {
        None => false,
        Some(slot) => slot.is_view,
    }
}

fn head_by(meaning: Meaning) -> Head
    ensures { result ≡ widths.head_by meaning }
{
    match meaning {
        Meaning::Operator(_) => Head::Number,
        Meaning::Counting(_) => Head::Number,
        Meaning::Function(_) => Head::Number,
        Meaning::Scalar { .. } => Head::Number,
        Meaning::Array {
            array,
            width,
            is_const,
        } => Head::Sight(Sight {
            array,
            width,
            is_const,
        }),
        Meaning::Nothing => Head::Nothing,
    }
}

fn head_named(name: Option<&Identifier>, scope: &Scope) -> Head
    ensures { result ≡ widths.head_named scope.now (option_copied name.entry) }
{
    match name {
        None => Head::Number,
        Some(name) => head_by(scope.meaning(name.name.bytes())),
    }
}

fn head_marked(mark: SumMark, first: &Expr, scope: &Scope) -> Head
    ensures { result ≡ widths.head_behind scope.now (sum_mark mark) (name_of first.now) }
{
    match mark {
        SumMark::Plus => head_named(name(first), scope),
        SumMark::Minus => Head::Number,
    }
}

#[tactic(auto, unfolding(crate::specs::Widths::head_of))]
/// How a sum begins where a view is wanted or not.
pub fn head_of(
    wants_view: bool,
    first: &Expr,
    rest: &Items<Part<SumMark, Expr>>,
    scope: &Scope,
) -> Head
    ensures head { result ≡ widths.head_of scope.now wants_view (source_of first.now) (sum_parts rest.now) }
{
    match rest.as_slice().split_first() {
        None => Head::Number,
        Some((part, others)) => match others.split_first() {
            Some(_) => Head::Number,
            None => {
                if wants_view {
                    return head_marked(part.mark, first, scope);
                }
                Head::Number
            }
        },
    }
}

fn array_by(meaning: Meaning) -> Option<Array>
    ensures { result ≡ widths.array_by meaning }
{
    match meaning {
        Meaning::Operator(_) => None,
        Meaning::Counting(_) => None,
        Meaning::Function(_) => None,
        Meaning::Scalar { .. } => None,
        Meaning::Array { array, .. } => Some(array),
        Meaning::Nothing => None,
    }
}

fn scalar_array(scalar: Scalar) -> Option<Array>
    ensures { result ≡ widths.scalar_array scalar }
{
    match scalar {
        Scalar::Overflow => None,
        Scalar::Object(object) => Some(Array::Object(object)),
        Scalar::Local(local) => Some(Array::Local(local)),
    }
}

fn address_array(meaning: Meaning) -> Option<Array>
    ensures { result ≡ widths.address_array meaning }
{
    match meaning {
        Meaning::Operator(_) => None,
        Meaning::Counting(_) => None,
        Meaning::Function(_) => None,
        Meaning::Scalar { scalar, .. } => scalar_array(scalar),
        Meaning::Array { .. } => None,
        Meaning::Nothing => None,
    }
}

fn array_named(name: Option<&Identifier>, scope: &Scope) -> Option<Array>
    ensures { result ≡ widths.array_named scope.now (option_copied name.entry) }
{
    match name {
        None => None,
        Some(name) => array_by(scope.meaning(name.name.bytes())),
    }
}

/// The array into which an argument looks, if it does.
fn looked_into(argument: &Expr, scope: &Scope) -> Option<Array>
    ensures { result ≡ widths.looked_into scope.now (source_of argument.now) }
{
    match argument {
        Expr::Or(chain) => array_named(name(chain.first.get()), scope),
        Expr::And(chain) => array_named(name(chain.first.get()), scope),
        Expr::Equality(chain) => array_named(name(chain.first.get()), scope),
        Expr::Relation(chain) => array_named(name(chain.first.get()), scope),
        Expr::Sum(chain) => array_named(name(chain.first.get()), scope),
        Expr::Product(chain) => array_named(name(chain.first.get()), scope),
        Expr::Unary { .. } => None,
        Expr::Cast { .. } => None,
        Expr::Number { .. } => None,
        Expr::Spot(spot) => match &spot.kind {
            SpotKind::Scalar { name } => array_by(scope.meaning(name.name.bytes())),
            SpotKind::Element { .. } => None,
            SpotKind::Pointed { .. } => None,
            SpotKind::Member { .. } => None,
            SpotKind::MemberElement { .. } => None,
        },
        Expr::Call(_) => None,
        Expr::Parenthesis { inner, .. } => looked_into(inner.get(), scope),
        Expr::Address { spot, .. } => match &spot.kind {
            SpotKind::Scalar { name } => address_array(scope.meaning(name.name.bytes())),
            SpotKind::Element { name, .. } => array_by(scope.meaning(name.name.bytes())),
            SpotKind::Pointed { .. } => None,
            SpotKind::Member { .. } => None,
            SpotKind::MemberElement { .. } => None,
        },
    }
}

fn also(found: &mut List<Array>, is_view: bool, array: Option<Array>) -> Result<(), NoMemory>
    ensures { IfOk result (λ done. found.new ≡ widths.also_where is_view found.old array) }
{
    if is_view {
        return match array {
            None => Ok(()),
            Some(array) => found.push(array),
        };
    }
    Ok(())
}

/// What is handed to each view parameter.
pub fn handed(
    alloc: Global,
    arguments: &[Expr],
    slots: &[Slot],
    scope: &Scope,
) -> Result<List<Array>, NoMemory>
    ensures handed { IfOk result (λ found. found ≡ widths.handed_in scope.now slots.now 0 [] (written_sources arguments.now)) }
{
    let mut found = List::new(alloc);
    for (place, argument) in arguments.iter().enumerate() {
        let is_view = takes_view(slot_at(slots, place));
        also(&mut found, is_view, looked_into(argument, scope))?;
    }
    Ok(found)
}
