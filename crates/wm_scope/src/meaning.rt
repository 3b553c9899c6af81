// What a name stands for, and the names that are declared in a scope.
ghost use Rattle.std.specs.Prelude.{◌≡◌};
ghost use Rattle.wm_scope.specs.Names.{outermost};

use wm_lang::Name;
use wm_ops::{CountCall, Counted, Op, Width, counted_by_name};
use wm_program::{Array, Scalar};

/// What a name stands for.
#[derive(Clone, Copy, Debug, PartialEq, Eq)]
pub enum Meaning {
    Operator(Op),
    Counting(CountCall),
    /// A function with a block, by its number.
    Function(u32),
    /// A variable that is no array.
    Scalar {
        scalar: Scalar,
        width: Width,
        is_const: bool,
    },
    /// An array or a view parameter, with the width of its elements.
    Array {
        array: Array,
        width: Width,
        is_const: bool,
    },
    /// Nothing: it is not declared.
    Nothing,
}

/// A name that is declared.
#[derive(Drop)]
pub struct Named {
    pub name: Name,
    pub meaning: Meaning,
}

/// What a name stands for outside of the source: the operators, the counting calls and `Overflow`.
pub fn outermost(word: &[u8]) -> Meaning
    ensures meaning { result ≡ outermost word.now }
{
    if word == b"Overflow".as_slice() {
        return Meaning::Scalar {
            scalar: Scalar::Overflow,
            width: Width::W32,
            is_const: false,
        };
    }
    match counted_by_name(word) {
        None => Meaning::Nothing,
        Some(Counted::Operator(op)) => Meaning::Operator(op),
        Some(Counted::Call(call)) => Meaning::Counting(call),
        Some(Counted::Word(_)) => Meaning::Nothing,
    }
}
