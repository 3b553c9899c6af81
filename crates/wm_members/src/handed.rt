// What an argument hands on: a struct object by `&v`, a struct parameter by its name, or a value.
ghost use Rattle.std.specs.Prelude.{◌≡◌, option_map, OnOk};
ghost use Rattle.wm_lang.specs.declared.expression.Expr.{Expr as tree};
ghost use Rattle.wm_members.specs.Expressions.{whole, handed, passing, plain_named, named_spot, seen, members_handed};
ghost use Rattle.wm_members.specs.Expressions as spec;
ghost use Rattle.wm_members.specs.States.{members_at};
ghost use Rattle.wm_members.specs.Tables.{all_of};

use crate::spot::hand_on;
use crate::state::{Meaning, Slot, State};
use sqlite_items::{Boxed, Items};
use std::alloc::Global;
use wm_lang::{Expr, Identifier, Position, SpotKind};
use wm_ops::NoMemory;

/// What becomes of an argument.
#[derive(Clone, Copy)]
pub enum Passing {
    /// It is an argument as any other.
    Value,
    /// One view for each member of the struct of this number.
    Members(usize),
    /// It has no part in the call.
    Nothing,
}

/// A name, or `&` before a name.
#[derive(Clone, Copy)]
pub struct Named<'e> {
    pub name: &'e Identifier,
    pub is_address: bool,
}

/// The struct that a name, or `&` before it, hands on as a whole.
fn whole_of(meaning: Meaning, is_address: bool) -> Option<Option<usize>>
    ensures whole { result ≡ whole meaning is_address }
{
    match meaning {
        Meaning::Object(number) => {
            if is_address {
                return Some(number);
            }
            None
        }
        Meaning::Parameter(number) => {
            if is_address {
                return None;
            }
            Some(number)
        }
        Meaning::Function(_) => None,
        Meaning::Other => None,
    }
}

/// The struct that an argument hands on.
fn handed_by(named: Option<Named<'_>>, state: &State<'_>) -> Option<Option<usize>>
    ensures handed { result ≡ handed (option_map plain_named named.entry) state.now }
{
    match named {
        None => None,
        Some(named) => whole_of(state.meaning(named.name.name.bytes()), named.is_address),
    }
}

/// What becomes of an argument that hands on a struct at a place for one. Of a struct that is not declared nothing is known, so
/// any struct may be it.
fn passing_whole(wanted: Option<usize>, given: Option<usize>) -> Option<Passing>
    ensures passing { result ≡ spec.passing_whole wanted given }
{
    match wanted {
        None => Some(Passing::Nothing),
        Some(wanted) => match given {
            None => Some(Passing::Nothing),
            Some(number) => {
                if wanted == number {
                    return Some(Passing::Members(number));
                }
                None
            }
        },
    }
}

/// What becomes of an argument at its place; None where it may not stand there.
fn passing_at(slot: Slot, given: Option<Option<usize>>) -> Option<Passing>
    ensures passing { result ≡ passing slot given }
{
    match slot {
        Slot::Plain => match given {
            None => Some(Passing::Value),
            Some(_) => None,
        },
        Slot::Struct(wanted) => match given {
            None => None,
            Some(number) => passing_whole(wanted, number),
        },
    }
}

/// The name that a spot is.
fn named_by(kind: &SpotKind<Boxed<Expr>>, is_address: bool) -> Option<Named<'_>>
    ensures named { option_map plain_named result ≡ named_spot {E = tree} is_address kind.now }
{
    match kind {
        SpotKind::Scalar { name } => Some(Named { name, is_address }),
        SpotKind::Element { .. } => None,
        SpotKind::Pointed { .. } => None,
        SpotKind::Member { .. } => None,
        SpotKind::MemberElement { .. } => None,
    }
}

/// The name that an expression is, or `&` before a name, parentheses aside.
fn named_in(expression: &Expr) -> Option<Named<'_>>
    ensures named { option_map plain_named result ≡ (seen expression.now).named }
{
    match expression {
        Expr::Spot(spot) => named_by(&spot.kind, false),
        Expr::Address { spot, .. } => named_by(&spot.kind, true),
        Expr::Parenthesis { inner, .. } => named_in(inner.get()),
        Expr::Or(_) => None,
        Expr::And(_) => None,
        Expr::Equality(_) => None,
        Expr::Relation(_) => None,
        Expr::Sum(_) => None,
        Expr::Product(_) => None,
        Expr::Unary { .. } => None,
        Expr::Cast { .. } => None,
        Expr::Number { .. } => None,
        Expr::Call(_) => None,
    }
}

/// The first token of an expression, outer parentheses included.
pub fn first_in(expression: &Expr) -> Position
    ensures first { result ≡ (seen expression.now).at }
{
    match expression {
        Expr::Or(chain) => chain.at,
        Expr::And(chain) => chain.at,
        Expr::Equality(chain) => chain.at,
        Expr::Relation(chain) => chain.at,
        Expr::Sum(chain) => chain.at,
        Expr::Product(chain) => chain.at,
        Expr::Unary { at, .. } => *at,
        Expr::Cast { at, .. } => *at,
        Expr::Number { at, .. } => *at,
        Expr::Spot(spot) => spot.at,
        Expr::Call(call) => call.name.at,
        Expr::Parenthesis { at, .. } => *at,
        Expr::Address { at, .. } => *at,
    }
}

/// What becomes of an argument at a place.
pub fn passing_of(argument: &Expr, slot: Slot, state: &State<'_>) -> Option<Passing>
    ensures passing { result ≡ passing slot (handed (seen argument.now).named state.now) }
{
    passing_at(slot, handed_by(named_in(argument), state))
}

/// The views that an argument hands on for the members of a struct, behind the arguments so far.
pub fn views_of(
    argument: &Expr,
    number: usize,
    done: &mut Items<Expr>,
    state: &State<'_>,
    alloc: Global,
) -> Result<(), NoMemory>
    ensures handed { OnOk result (done.new ≡ members_handed (seen argument.now).at (seen argument.now).named (all_of (members_at number state.now.structures)) done.old) }
{
    match named_in(argument) {
        None => Ok(()),
        Some(named) => {
            let members = state.members(number, alloc)?;
            hand_on(first_in(argument), named, members.as_slice(), done, alloc)
        }
    }
}
