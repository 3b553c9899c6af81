// The marks of comparisons, and the two ways out.
ghost use Rattle.std.specs.Prelude.{◌≡◌, ◌∷◌, [], None, OnOk, IfOk};
ghost use Rattle.wm_flow.specs.Kept as forms;
ghost use Rattle.wm_flow.specs.Plain as plain;
ghost use Rattle.wm_flow.specs.Strokes as strokes;
ghost use Rattle.wm_flow.specs.Tests as tests;
ghost use Rattle.wm_flow.specs.Views.{doing_of};
ghost use Rattle.wm_pen.specs.Ink.{put};
ghost use Rattle.wm_comparisons.specs.Draws.{parting};

use std::alloc::Global;
use wm_domain::Relation;
use wm_flow::{Action, Kept};
use wm_forms::{form_of, negative_of, one_more};
use wm_ops::NoMemory;
use wm_pen::Pen;
use wm_program::Comparison;

fn other_way(mark: Comparison) -> Comparison
    ensures { result ≡ tests.other_way mark }
{
    match mark {
        Comparison::Less => Comparison::GreaterEqual,
        Comparison::LessEqual => Comparison::Greater,
        Comparison::Greater => Comparison::LessEqual,
        Comparison::GreaterEqual => Comparison::Less,
        Comparison::Equal => Comparison::NotEqual,
        Comparison::NotEqual => Comparison::Equal,
    }
}

/// The comparison with its sides changed.
pub(crate) fn from_right(mark: Comparison) -> Comparison
    ensures { result ≡ tests.from_right mark }
{
    match mark {
        Comparison::Less => Comparison::Greater,
        Comparison::LessEqual => Comparison::GreaterEqual,
        Comparison::Greater => Comparison::Less,
        Comparison::GreaterEqual => Comparison::LessEqual,
        Comparison::Equal => Comparison::Equal,
        Comparison::NotEqual => Comparison::NotEqual,
    }
}

#[tactic(auto, unfolding(wm_flow::specs::Views::doing_of))]
fn keep(alloc: Global, kept: Kept, relation: Relation) -> Result<Action, NoMemory>
    ensures { IfOk result (λ action. doing_of action ≡ plain.Keep (forms.form_of kept) relation) }
{
    let form = form_of(alloc, kept)?;
    Ok(Action::Keep { form, relation })
}

/// The points at which the sides with this difference compare so.
#[tactic(auto, unfolding(wm_flow::specs::Tests::keeping))]
fn keeping(alloc: Global, mark: Comparison, difference: Kept) -> Result<Action, NoMemory>
    ensures { IfOk result (λ action. doing_of action ≡ tests.keeping mark difference) }
{
    match mark {
        Comparison::Less => keep(alloc, one_more(difference)?, Relation::AtMost),
        Comparison::LessEqual => keep(alloc, difference, Relation::AtMost),
        Comparison::Greater => {
            let negative = negative_of(difference)?;
            keep(alloc, one_more(negative)?, Relation::AtMost)
        }
        Comparison::GreaterEqual => keep(alloc, negative_of(difference)?, Relation::AtMost),
        Comparison::Equal => keep(alloc, difference, Relation::Equal),
        Comparison::NotEqual => keep(alloc, difference, Relation::NotEqual),
    }
}

/// Two edges from a node.
#[tactic(auto, using(wm_pen::proofs::Joins::put_twice))]
fn two_lines(
    node: u32,
    first: u32,
    one: Action,
    second: u32,
    other: Action,
    pen: &mut Pen,
) -> Result<(), NoMemory>
    ensures { OnOk result (pen.new ≡ put 0 (strokes.Line node first (doing_of one) None ∷ strokes.Line node second (doing_of other) None ∷ []) pen.old) }
{
    pen.line(node, first, one, None)?;
    pen.line(node, second, other, None)
}

/// The two ways of sides with this difference, the one with the lower target first.
#[tactic(auto, unfolding(crate::specs::Draws::parting, wm_flow::specs::Tests::fork))]
pub(crate) fn part(
    alloc: Global,
    mark: Comparison,
    difference: Kept,
    hit: u32,
    miss: u32,
    pen: &mut Pen,
) -> Result<(), NoMemory>
    ensures { OnOk result (pen.new ≡ parting mark difference hit miss pen.old) }
{
    let node = pen.node();
    let holds = keeping(alloc, mark, difference)?;
    let fails = keeping(alloc, other_way(mark), difference)?;
    if hit < miss {
        return two_lines(node, hit, holds, miss, fails, pen);
    }
    two_lines(node, miss, fails, hit, holds, pen)
}
