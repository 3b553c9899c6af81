// A chain of operators of one level is one node: each operator with the operand behind it goes to its end.
ghost use Rattle.std.specs.Prelude.{◌≡◌, ◌∷◌, [], IfOk};
ghost use Rattle.wm_expressions.specs.Chains as spec;

use sqlite_items::{Boxed, Items};
use std::alloc::{AllocError, Global};
use wm_cursor::Binary;
use wm_lang::{Chain, EqualityMark, Expr, Part, Position, ProductMark, RelationMark, SumMark};

/// A chain of two operands.
fn chain_of<M: Drop>(
    alloc: Global,
    at: Position,
    first: Expr,
    part: Part<M, Expr>,
) -> Result<Chain<M, Expr>, AllocError>
    ensures { IfOk result (λ chain. chain ≡ spec.chain_of at first part) }
{
    let first = Boxed::new(alloc, first)?;
    let mut rest = Items::new(alloc);
    rest.push(part)?;
    Ok(Chain { at, first, rest })
}

#[tactic(auto, unfolding(crate::specs::Chains::or))]
fn or(alloc: Global, at: Position, left: Expr, part: Part<(), Expr>) -> Result<Expr, AllocError>
    ensures { IfOk result (λ whole. whole ≡ spec.or at left part) }
{
    match left {
        Expr::Or(mut chain) => {
            chain.rest.push(part)?;
            Ok(Expr::Or(chain))
        }
        other => Ok(Expr::Or(chain_of(alloc, at, other, part)?)),
    }
}

#[tactic(auto, unfolding(crate::specs::Chains::and))]
fn and(alloc: Global, at: Position, left: Expr, part: Part<(), Expr>) -> Result<Expr, AllocError>
    ensures { IfOk result (λ whole. whole ≡ spec.and at left part) }
{
    match left {
        Expr::And(mut chain) => {
            chain.rest.push(part)?;
            Ok(Expr::And(chain))
        }
        other => Ok(Expr::And(chain_of(alloc, at, other, part)?)),
    }
}

#[tactic(auto, unfolding(crate::specs::Chains::equality))]
fn equality(
    alloc: Global,
    at: Position,
    left: Expr,
    part: Part<EqualityMark, Expr>,
) -> Result<Expr, AllocError>
    ensures { IfOk result (λ whole. whole ≡ spec.equality at left part) }
{
    match left {
        Expr::Equality(mut chain) => {
            chain.rest.push(part)?;
            Ok(Expr::Equality(chain))
        }
        other => Ok(Expr::Equality(chain_of(alloc, at, other, part)?)),
    }
}

#[tactic(auto, unfolding(crate::specs::Chains::relation))]
fn relation(
    alloc: Global,
    at: Position,
    left: Expr,
    part: Part<RelationMark, Expr>,
) -> Result<Expr, AllocError>
    ensures { IfOk result (λ whole. whole ≡ spec.relation at left part) }
{
    match left {
        Expr::Relation(mut chain) => {
            chain.rest.push(part)?;
            Ok(Expr::Relation(chain))
        }
        other => Ok(Expr::Relation(chain_of(alloc, at, other, part)?)),
    }
}

#[tactic(auto, unfolding(crate::specs::Chains::sum))]
fn sum(
    alloc: Global,
    at: Position,
    left: Expr,
    part: Part<SumMark, Expr>,
) -> Result<Expr, AllocError>
    ensures { IfOk result (λ whole. whole ≡ spec.sum at left part) }
{
    match left {
        Expr::Sum(mut chain) => {
            chain.rest.push(part)?;
            Ok(Expr::Sum(chain))
        }
        other => Ok(Expr::Sum(chain_of(alloc, at, other, part)?)),
    }
}

#[tactic(auto, unfolding(crate::specs::Chains::product))]
fn product(
    alloc: Global,
    at: Position,
    left: Expr,
    part: Part<ProductMark, Expr>,
) -> Result<Expr, AllocError>
    ensures { IfOk result (λ whole. whole ≡ spec.product at left part) }
{
    match left {
        Expr::Product(mut chain) => {
            chain.rest.push(part)?;
            Ok(Expr::Product(chain))
        }
        other => Ok(Expr::Product(chain_of(alloc, at, other, part)?)),
    }
}

/// What was read from `start` on, and the operator and operand behind it.
pub fn joined(
    alloc: Global,
    start: Position,
    left: Expr,
    binary: Binary,
    at: Position,
    operand: Expr,
) -> Result<Expr, AllocError>
    ensures { IfOk result (λ whole. whole ≡ spec.joined start left binary at operand) }
{
    match binary {
        Binary::Or => or(
            alloc,
            start,
            left,
            Part {
                mark: (),
                at,
                operand,
            },
        ),
        Binary::And => and(
            alloc,
            start,
            left,
            Part {
                mark: (),
                at,
                operand,
            },
        ),
        Binary::Equality(mark) => equality(alloc, start, left, Part { mark, at, operand }),
        Binary::Relation(mark) => relation(alloc, start, left, Part { mark, at, operand }),
        Binary::Sum(mark) => sum(alloc, start, left, Part { mark, at, operand }),
        Binary::Product(mark) => product(alloc, start, left, Part { mark, at, operand }),
    }
}
