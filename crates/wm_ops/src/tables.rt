// A table with one number for each operator.
ghost use Rattle.std.specs.Prelude.{◌≡◌, Some, replicate, slice_get, slice_set};
ghost use Rattle.wm_ops.specs.Operators.{number_of};

use crate::operators::{OPERATORS, Op, op_number};
use std::marker::Model;

/// One number for each operator, which contracts see as the list of the numbers in the order of the row list. `N` has
/// to be the length of that list.
#[derive(Clone, Copy, Debug)]
pub struct OpTable<const N: usize> {
    numbers: [u32; N],
}

impl<const N: usize> Model for OpTable<N> {
    ghost use Rattle.std.specs.Prelude.{ℕ, List};

    ghost Value = { List ℕ };

    ghost view = { λ table. table.numbers };

    ghost inverse = { λ numbers. record { numbers = numbers } };
}

impl<const N: usize> OpTable<N> {
    /// The table with this number for each operator.
    pub fn filled(value: u32) -> OpTable<N>
        requires { N ≡ OPERATORS }
        ensures filled { result ≡ replicate OPERATORS value }
    {
        OpTable {
            numbers: [value; N],
        }
    }

    /// The operator's number.
    pub fn get(&self, op: Op) -> u32
        requires { N ≡ OPERATORS }
        ensures kept { slice_get self.now (number_of op) ≡ Some result }
    {
        self.numbers[op_number(op)]
    }

    /// Puts a number in the operator's place, and leaves all others as they are.
    pub fn set(&mut self, op: Op, value: u32)
        requires { N ≡ OPERATORS }
        ensures placed { self.new ≡ slice_set self.old (number_of op) value }
    {
        self.numbers[op_number(op)] = value;
    }
}
