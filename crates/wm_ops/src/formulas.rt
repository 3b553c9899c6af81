// The formula of each operator, its domain and its mark, each by the row list.
ghost use Rattle.std.specs.Prelude.{◌≡◌, IsTrue, pos};
ghost use Rattle.wm_ops.specs.Arguments.{ArgsFit};
ghost use Rattle.wm_ops.specs.Outcomes as outcomes;

use crate::choices::{greater, lesser};
use crate::clamping::Clamped;
use crate::division::{div_s, is_quotient};
use crate::norms::{norm_l, norm_s};
use crate::operator_rows;
use crate::operators::Op;
use crate::parts::{extract_h, extract_l, l_deposit_h, l_deposit_l, mac_r, msu_r, round};
use crate::products::{l_mac, l_mac0, l_msu, l_msu0, l_mult, l_mult0, mult, mult_r};
use crate::shifts::{l_shl, l_shr, l_shr_r, shl, shr, shr_r};
use crate::sums::{abs_s, add, l_abs, l_add, l_negate, l_sub, negate, sub};

macro_rules! at_arguments {
    ($formula:ident [$one:ident] $a:ident $b:ident $c:ident) => {
        $formula($a)
    };
    ($formula:ident [$one:ident $two:ident] $a:ident $b:ident $c:ident) => {
        $formula($a, $b)
    };
    ($formula:ident [$one:ident $two:ident $three:ident] $a:ident $b:ident $c:ident) => {
        $formula($a, $b, $c)
    };
}

macro_rules! formula_by_row {
    ([$of:ident $a:ident $b:ident $c:ident] $($op:ident $formula:ident $name:literal $args:tt $result:ident $mark:ident;)*) => {
        match $of {
            $(Op::$op => at_arguments!($formula $args $a $b $c),)*
        }
    };
}

macro_rules! is_quiet_mark {
    (quiet) => {
        true
    };
    (loud) => {
        false
    };
}

macro_rules! quiet_by_row {
    ([$of:ident] $($op:ident $formula:ident $name:literal $args:tt $result:ident $mark:ident;)*) => {
        match $of {
            $(Op::$op => is_quiet_mark!($mark),)*
        }
    };
}

/// The operator's formula at these arguments, of which it looks at as many as it takes.
#[tactic(auto, unfolding(crate::specs::Outcomes::formula_of, crate::specs::Outcomes::in_domain))]
pub(crate) fn formula(op: Op, a: i64, b: i64, c: i64) -> Clamped
    requires types { ArgsFit op a b c }
    requires domain { IsTrue (outcomes.in_domain op a b) }
    ensures formula { result ≡ outcomes.formula_of op a b c }
{
    operator_rows!(formula_by_row!(op a b c))
}

/// Whether the arguments are in the operator's domain; `div_s` alone does not take all arguments of its types.
#[tactic(auto, unfolding(crate::specs::Outcomes::in_domain))]
pub(crate) fn in_domain(op: Op, a: i64, b: i64) -> bool
    ensures domain { result ≡ outcomes.in_domain op a b }
{
    match op {
        Op::DivS => is_quotient(a, b),
        _ => true,
    }
}

/// Whether the operator never sets the flag.
#[tactic(auto, unfolding(crate::specs::Outcomes::is_quiet))]
pub(crate) fn is_quiet(op: Op) -> bool
    ensures quiet { result ≡ outcomes.is_quiet op }
{
    operator_rows!(quiet_by_row!(op))
}
