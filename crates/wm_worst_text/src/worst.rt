// The text of the worst choices, with a part for each frame function.
ghost use Rattle.std.specs.Prelude.{◌≡◌, ◌≤◌, ◌^◌, ◌++◌, length, slice_get, IfOk, OnOk};
ghost use Rattle.wm_findings_text.specs.Report.{is_several};
ghost use Rattle.wm_worst_text.specs.Text.{chosen_lines, made_lines, part_of, parts, worst_text};

use crate::words::push_choice;
use std::alloc::{AllocError, Global};
use wm_findings::Findings;
use wm_findings_text::push_bound_line;
use wm_flow::{Bound, Graph};
use wm_lang::Name;
use wm_ops::NoMemory;
use wm_path::Choice;
use wm_program::{Program, Spec};
use wm_weights::Weights;

fn push_chosen(
    text: &mut Vec<u8>,
    graph: &Graph,
    weights: &Weights,
    choices: &[Option<Choice>],
    k: usize,
) -> Result<(), AllocError>
    requires { length graph.now.heads ≤ 2 ^ 32 }
    ensures { OnOk result (text.new.items ≡ text.old.items ++ chosen_lines graph.now weights.now (slice_get choices.now k)) }
{
    match choices.get(k) {
        None => Ok(()),
        Some(None) => Ok(()),
        Some(Some(choice)) => push_choice(text, graph, weights, choice),
    }
}

/// What makes a bound, where it is a number.
fn push_made(
    text: &mut Vec<u8>,
    graph: &Graph,
    weights: &Weights,
    choices: &[Option<Choice>],
    k: usize,
    bound: Bound,
) -> Result<(), AllocError>
    requires { length graph.now.heads ≤ 2 ^ 32 }
    ensures { OnOk result (text.new.items ≡ text.old.items ++ made_lines graph.now weights.now (slice_get choices.now k) bound) }
{
    match bound {
        Bound::At(_) => push_chosen(text, graph, weights, choices, k),
        Bound::NoTrips { .. } => Ok(()),
        Bound::TooLarge => Ok(()),
    }
}

/// The part of the function of this number, from 0.
fn push_part(
    text: &mut Vec<u8>,
    graph: &Graph,
    weights: &Weights,
    several: bool,
    name: &Name,
    choices: &[Option<Choice>],
    bounds: &[Bound],
    k: usize,
) -> Result<(), AllocError>
    requires { length graph.now.heads ≤ 2 ^ 32 }
    ensures { OnOk result (text.new.items ≡ text.old.items ++ part_of graph.now weights.now several name.now (slice_get choices.now k) (slice_get bounds.now k)) }
{
    match bounds.get(k) {
        None => Ok(()),
        Some(bound) => {
            push_bound_line(text, several, name.bytes(), *bound)?;
            push_made(text, graph, weights, choices, k, *bound)
        }
    }
}

fn push_parts(
    text: &mut Vec<u8>,
    graph: &Graph,
    weights: &Weights,
    names: &[Name],
    choices: &[Option<Choice>],
    bounds: &[Bound],
) -> Result<(), AllocError>
    requires { length graph.now.heads ≤ 2 ^ 32 }
    ensures { OnOk result (text.new.items ≡ text.old.items ++ parts graph.now weights.now (is_several names.now) choices.now bounds.now 0 names.now) }
{
    let several = names.len() > 1;
    for (k, name) in names.iter().enumerate() {
        push_part(text, graph, weights, several, name, choices, bounds, k)?;
    }
    Ok(())
}

/// The text of what makes the bound of each frame function: how often each counted word is counted on the worst choice, beside
/// its weight, and the turns of each loop on it. `choices` has that of each function, as `worst_path` gives it for the
/// graph and these weights; the findings are of the program of the graph, and `spec` is the specification of which it was made.
/// A number of times above 10^15 is printed as 10^15 + 1: where a bound is a number, a word of a weight above 0 has none.
/// `NoMemory`: memory ran out, or the graph has more than 2^32 - 1 heads.
#[tactic(auto, unfolding(crate::specs::Text::worst_text))]
pub fn worst_text(
    alloc: Global,
    _program: &Program,
    graph: &Graph,
    weights: &Weights,
    spec: &Spec,
    findings: &Findings,
    choices: &[Option<Choice>],
) -> Result<Vec<u8>, NoMemory>
    ensures text { IfOk result (λ text. text.items ≡ worst_text graph.now weights.now spec.now findings.now choices.now) }
{
    if graph.heads.items().len() > u32::MAX as usize {
        return Err(NoMemory);
    }
    let mut text = Vec::from_slice(alloc, b"wmops worst 1\n")?;
    push_parts(
        &mut text,
        graph,
        weights,
        spec.frames.items(),
        choices,
        findings.bounds.items(),
    )?;
    Ok(text)
}
