// An operator whose value is assigned to a variable other than `Overflow` gives it to the variable itself.
ghost use Rattle.std.specs.Prelude.{◌≡◌};
ghost use Rattle.wm_flow.specs.Effects as effects;
ghost use Rattle.wm_program.specs.Trees.{expression_of};
ghost use Rattle.wm_stores.specs.Directs.{target_of, direct_in};

use wm_applied::{Applied, operator_of};
use wm_flow::Source;
use wm_program::Expr;

/// An operator, and the variable that gets its value.
#[derive(Clone, Copy)]
pub struct Direct<'x> {
    pub applied: Applied<'x>,
    pub target: u32,
}

/// The variable that a value may go to at once: any but `Overflow`, whose number is given.
fn target_of(overflow: u32, source: Source) -> Option<u32>
    ensures { result ≡ target_of overflow source }
{
    match source {
        Source::Variable(v) => {
            if v == overflow {
                return None;
            }
            Some(v)
        }
        Source::Cells(_) => None,
        Source::Fixed { .. } => None,
    }
}

/// The operator that an expression is, where its value needs no conversion and goes to a variable other than `Overflow`,
/// whose number is given.
#[tactic(auto, using(crate::proofs::DirectStores::direct_as))]
pub fn direct_store<'x>(
    overflow: u32,
    source: Source,
    x: &'x Expr,
    narrowing: Option<u32>,
) -> Option<Direct<'x>>
    ensures direct { direct_in result ≡ effects.direct overflow source (expression_of x.now) narrowing }
{
    match narrowing {
        Some(_) => None,
        None => match target_of(overflow, source) {
            None => None,
            Some(target) => match operator_of(x) {
                None => None,
                Some(applied) => Some(Direct { applied, target }),
            },
        },
    }
}
