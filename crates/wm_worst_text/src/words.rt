// The lines of words and of loops.
ghost use Rattle.std.specs.Prelude.{◌≡◌, ◌≤◌, ◌^◌, ◌++◌, length, OnOk};
ghost use Rattle.wm_ways.specs.Numbers.{or_nought};
ghost use Rattle.wm_weights.specs.Table.{weight_of};
ghost use Rattle.wm_worst_text.specs.Text.{word_text, word_line, word_line_of, word_lines, loop_text, loop_named, loop_lines, choice_lines};

use crate::times::{times_of, turns_of};
use std::alloc::AllocError;
use wm_digits::push_number;
use wm_flow::{Edge, Graph, Head};
use wm_ops::{COUNTED_WORDS, Counted, counted_at, counted_name};
use wm_path::Choice;
use wm_weights::Weights;

#[tactic(auto, unfolding(crate::specs::Text::word_text))]
fn push_word(text: &mut Vec<u8>, word: Counted, times: u64, weight: u32) -> Result<(), AllocError>
    ensures { OnOk result (text.new.items ≡ text.old.items ++ word_text word times weight) }
{
    text.extend_from_slice(b"word ")?;
    text.extend_from_slice(counted_name(word))?;
    text.extend_from_slice(b" ")?;
    push_number(text, times)?;
    text.extend_from_slice(b" ")?;
    push_number(text, u64::from(weight))?;
    text.extend_from_slice(b"\n")
}

fn push_word_line(
    text: &mut Vec<u8>,
    word: Counted,
    times: u64,
    weight: u32,
) -> Result<(), AllocError>
    ensures { OnOk result (text.new.items ≡ text.old.items ++ word_line word times weight) }
{
    if weight > 0 {
        if times > 0 {
            return push_word(text, word, times, weight);
        }
    }
    Ok(())
}

fn weight_in(weights: &Weights, word: Counted) -> u32
    ensures { result ≡ or_nought (weight_of weights.now word) }
{
    match weights.weight(word) {
        None => 0,
        Some(weight) => weight,
    }
}

fn push_word_line_of(
    text: &mut Vec<u8>,
    edges: &[Edge],
    weights: &Weights,
    choice: &Choice,
    word: Option<Counted>,
) -> Result<(), AllocError>
    ensures { OnOk result (text.new.items ≡ text.old.items ++ word_line_of edges.now weights.now choice.now word) }
{
    match word {
        None => Ok(()),
        Some(word) => push_word_line(
            text,
            word,
            times_of(edges, word, choice),
            weight_in(weights, word),
        ),
    }
}

/// A line for each counted word that has times and a weight.
fn push_word_lines(
    text: &mut Vec<u8>,
    edges: &[Edge],
    weights: &Weights,
    choice: &Choice,
) -> Result<(), AllocError>
    ensures { OnOk result (text.new.items ≡ text.old.items ++ word_lines edges.now weights.now choice.now 48) }
{
    for number in 0..COUNTED_WORDS {
        push_word_line_of(text, edges, weights, choice, counted_at(number))?;
    }
    Ok(())
}

#[tactic(auto, unfolding(crate::specs::Text::loop_text))]
fn push_loop(text: &mut Vec<u8>, loop_id: u32, instance: u32, turns: u64) -> Result<(), AllocError>
    ensures { OnOk result (text.new.items ≡ text.old.items ++ loop_text loop_id instance turns) }
{
    text.extend_from_slice(b"loop ")?;
    push_number(text, u64::from(loop_id) + 1)?;
    text.extend_from_slice(b" instance ")?;
    push_number(text, u64::from(instance) + 1)?;
    text.extend_from_slice(b" turns ")?;
    push_number(text, turns)?;
    text.extend_from_slice(b"\n")
}

fn push_loop_named(
    text: &mut Vec<u8>,
    loop_id: Option<u32>,
    instance: Option<u32>,
    turns: Option<u64>,
) -> Result<(), AllocError>
    ensures { OnOk result (text.new.items ≡ text.old.items ++ loop_named loop_id instance turns) }
{
    match loop_id {
        None => Ok(()),
        Some(loop_id) => match instance {
            None => Ok(()),
            Some(instance) => match turns {
                None => Ok(()),
                Some(turns) => push_loop(text, loop_id, instance, turns),
            },
        },
    }
}

/// A line for each head that has a choice of its own.
fn push_loop_lines(text: &mut Vec<u8>, choice: &Choice, heads: &[Head]) -> Result<(), AllocError>
    requires { length heads.now ≤ 2 ^ 32 }
    ensures { OnOk result (text.new.items ≡ text.old.items ++ loop_lines choice.now 0 heads.now) }
{
    for (k, head) in heads.iter().enumerate() {
        push_loop_named(
            text,
            head.loop_id,
            head.instance,
            turns_of(k as u32, choice),
        )?;
    }
    Ok(())
}

/// The lines of what makes a bound.
#[tactic(auto, unfolding(crate::specs::Text::choice_lines))]
pub fn push_choice(
    text: &mut Vec<u8>,
    graph: &Graph,
    weights: &Weights,
    choice: &Choice,
) -> Result<(), AllocError>
    requires { length graph.now.heads ≤ 2 ^ 32 }
    ensures { OnOk result (text.new.items ≡ text.old.items ++ choice_lines graph.now weights.now choice.now) }
{
    push_word_lines(text, graph.edges.items(), weights, choice)?;
    push_loop_lines(text, choice, graph.heads.items())
}
