// What is tried at a site.
ghost use Rattle.std.specs.Prelude.{◌≡◌};
ghost use Rattle.wm_failing.specs.Trials.{operands_of};

use wm_ops::{Op, arity};
use wm_program::PlainMark;

/// What is tried with the operands of a site.
#[derive(Clone, Copy, PartialEq, Eq)]
pub enum Trial {
    /// The operator: it fails where it saturates or leaves its domain.
    Applies(Op),
    /// A plain operation on two numbers, which fails where its exact value is out of 32 bits.
    Computes(PlainMark),
    /// The number with the other sign, likewise.
    Negates,
    /// A number that has to stay from `low` to `high`: an index, the beginning of a view, a number that is narrowed.
    Stays { low: i64, high: i64 },
}

/// How many operands there are, at most 3.
pub fn operands(trial: Trial) -> usize
    ensures { result ≡ operands_of trial }
{
    match trial {
        Trial::Applies(op) => arity(op),
        Trial::Computes(_mark) => 2,
        Trial::Negates => 1,
        Trial::Stays { .. } => 1,
    }
}
