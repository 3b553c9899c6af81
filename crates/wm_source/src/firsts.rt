// Where an expression begins, and what it is by its outermost form, parentheses aside.
ghost use Rattle.std.specs.Prelude.{◌≡◌};
ghost use Rattle.std.specs.Option.{option_copied};
ghost use Rattle.wm_source.specs.Firsts.{first_of, name_of, is_not, is_truth_of};

use wm_lang::{Expr, Identifier, Position, SpotKind, UnaryMark};

/// The first token of an expression, outer parentheses included.
pub fn first(expression: &Expr) -> Position
    ensures first { result ≡ first_of expression.now }
{
    match expression {
        Expr::Or(chain) => chain.at,
        Expr::And(chain) => chain.at,
        Expr::Equality(chain) => chain.at,
        Expr::Relation(chain) => chain.at,
        Expr::Sum(chain) => chain.at,
        Expr::Product(chain) => chain.at,
        Expr::Unary { at, .. } => *at,
        Expr::Cast { at, .. } => *at,
        Expr::Number { at, .. } => *at,
        Expr::Spot(spot) => spot.at,
        Expr::Call(call) => call.name.at,
        Expr::Parenthesis { at, .. } => *at,
        Expr::Address { at, .. } => *at,
    }
}

/// The name that an expression is, parentheses aside. None where it is anything else.
pub fn name(expression: &Expr) -> Option<&Identifier>
    ensures name { option_copied result ≡ name_of expression.now }
{
    match expression {
        Expr::Spot(spot) => match &spot.kind {
            SpotKind::Scalar { name } => Some(name),
            SpotKind::Element { .. }
            | SpotKind::Pointed { .. }
            | SpotKind::Member { .. }
            | SpotKind::MemberElement { .. } => None,
        },
        Expr::Parenthesis { inner, .. } => name(inner.get()),
        Expr::Or(_)
        | Expr::And(_)
        | Expr::Equality(_)
        | Expr::Relation(_)
        | Expr::Sum(_)
        | Expr::Product(_)
        | Expr::Unary { .. }
        | Expr::Cast { .. }
        | Expr::Number { .. }
        | Expr::Call(_)
        | Expr::Address { .. } => None,
    }
}

fn negates(mark: UnaryMark) -> bool
    ensures truth { result ≡ is_not mark }
{
    match mark {
        UnaryMark::Minus => false,
        UnaryMark::Plus => false,
        UnaryMark::Not => true,
    }
}

/// Whether an expression is a comparison or a logical value, parentheses aside.
pub fn is_truth(expression: &Expr) -> bool
    ensures truth { result ≡ is_truth_of expression.now }
{
    match expression {
        Expr::Or(_) | Expr::And(_) | Expr::Equality(_) | Expr::Relation(_) => true,
        Expr::Unary { mark, .. } => negates(*mark),
        Expr::Parenthesis { inner, .. } => is_truth(inner.get()),
        Expr::Spot(spot) => match &spot.kind {
            SpotKind::Scalar { .. } => false,
            SpotKind::Element { .. } => false,
            SpotKind::Pointed { .. } => false,
            SpotKind::Member { .. } => false,
            SpotKind::MemberElement { .. } => false,
        },
        Expr::Address { spot, .. } => match &spot.kind {
            SpotKind::Scalar { .. } => false,
            SpotKind::Element { .. } => false,
            SpotKind::Pointed { .. } => false,
            SpotKind::Member { .. } => false,
            SpotKind::MemberElement { .. } => false,
        },
        Expr::Sum(_) | Expr::Product(_) | Expr::Cast { .. } | Expr::Number { .. } | Expr::Call(_) =>
            false,
    }
}
