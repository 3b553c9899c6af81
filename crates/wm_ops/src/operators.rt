// The operators with what the row list tells of each: its number, name and widths.
ghost use Rattle.std.specs.Prelude.{◌≡◌, ◌<◌, ◌≤◌, ◌↔◌, slice_get, Some};
ghost use Rattle.wm_ops.specs.declared.operators.Op as one;
ghost use Rattle.wm_ops.specs.Operators.{number_of, op_numbered, name_of, arg_widths_of, arity_of, result_width_of};

use crate::operator_rows;
use crate::search::item_at;

/// An operator of G.191, in the order of the row list.
#[derive(Clone, Copy, Debug, PartialEq, Eq, Hash)]
pub enum Op {
    Add,
    Sub,
    AbsS,
    Negate,
    Mult,
    MultR,
    Shl,
    Shr,
    ShrR,
    LAdd,
    LSub,
    LAbs,
    LNegate,
    LMult,
    LMac,
    LMsu,
    LShl,
    LShr,
    LShrR,
    ExtractH,
    ExtractL,
    LDepositH,
    LDepositL,
    Round,
    MacR,
    MsuR,
    NormS,
    NormL,
    DivS,
    SMax,
    SMin,
    LMax,
    LMin,
    LMult0,
    LMac0,
    LMsu0,
}

/// The type of an argument or a result: a signed number of 16 or of 32 bits.
#[derive(Clone, Copy, Debug, PartialEq, Eq, Hash)]
pub enum Width {
    W16,
    W32,
}

macro_rules! one {
    ($row:ident) => {
        1
    };
}

macro_rules! count_of_rows {
    ([] $($op:ident $formula:ident $name:literal [$($arg:ident)*] $result:ident $mark:ident;)*) => {
        0 $(+ one!($op))*
    };
}

/// How many operators the row list has.
pub const OPERATORS: usize = operator_rows!(count_of_rows!());

macro_rules! every_op {
    ([] $($op:ident $formula:ident $name:literal [$($arg:ident)*] $result:ident $mark:ident;)*) => {
        [$(Op::$op),*]
    };
}

/// The operators in the order of the row list.
pub(crate) const ALL: [Op; OPERATORS] = operator_rows!(every_op!());

macro_rules! name_by_row {
    ([$of:ident] $($op:ident $formula:ident $name:literal [$($arg:ident)*] $result:ident $mark:ident;)*) => {
        match $of {
            $(Op::$op => $name,)*
        }
    };
}

macro_rules! arg_widths_by_row {
    ([$of:ident] $($op:ident $formula:ident $name:literal [$($arg:ident)*] $result:ident $mark:ident;)*) => {
        match $of {
            $(Op::$op => &[$(Width::$arg),*],)*
        }
    };
}

macro_rules! result_width_by_row {
    ([$of:ident] $($op:ident $formula:ident $name:literal [$($arg:ident)*] $result:ident $mark:ident;)*) => {
        match $of {
            $(Op::$op => Width::$result,)*
        }
    };
}

/// The operator's place in the row list, from 0.
pub fn op_number(op: Op) -> usize
    ensures number { result ≡ number_of op }
    ensures within { result < OPERATORS }
{
    op as usize
}

/// The operator at this place of the row list; None exactly past its end.
pub fn op_at(number: usize) -> Option<Op>
    ensures operator { result ≡ op_numbered number }
    ensures exact { (op : one.Op) → (result ≡ Some op) ↔ (number_of op ≡ number) }
{
    item_at(&ALL, number).copied()
}

/// The C name of the operator in G.191.
pub fn name(op: Op) -> &'static [u8]
    ensures name { result.now ≡ name_of op }
{
    operator_rows!(name_by_row!(op))
}

fn arg_widths(op: Op) -> &'static [Width]
    ensures widths { result.now ≡ arg_widths_of op }
{
    operator_rows!(arg_widths_by_row!(op))
}

/// How many arguments the operator takes, from 1 to 3.
pub fn arity(op: Op) -> usize
    ensures arity { result ≡ arity_of op }
    ensures within { (1 ≤ result) × (result ≤ 3) }
{
    arg_widths(op).len()
}

/// The type of the operator's argument `k`, counted from 0.
pub fn arg_width(op: Op, k: usize) -> Width
    requires { k < arity_of op }
    ensures width { slice_get (arg_widths_of op) k ≡ Some result }
{
    arg_widths(op)[k]
}

/// The type of the operator's result.
pub fn result_width(op: Op) -> Width
    ensures width { result ≡ result_width_of op }
{
    operator_rows!(result_width_by_row!(op))
}
