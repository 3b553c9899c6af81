// What is counted over all instances, and the different steps of loops.
ghost use Rattle.std.specs.Prelude.{◌≡◌, IfOk};
ghost use Rattle.wm_instances.specs.Totals.{plus, loops_from, heads_from, heads_of, tokens_of, size_from, size_of, is_among, exceeds_from, exceeds_steps};

use std::alloc::Global;
use wm_ops::NoMemory;
use wm_program::{FunctionInfo, InstanceInfo, LoopInfo};

/// So many, and one more for each loop of this function.
fn loops_from(count: u32, function: u32, loops: &[LoopInfo]) -> u32
    ensures { result ≡ loops_from count function loops.now }
{
    let mut sum = count;
    for one in loops {
        if one.function == function {
            sum = sum.saturating_add(1);
        }
    }
    sum
}

/// The loop heads over all instances, and that of the frames. A number past 2^32 - 1 counts as that.
#[tactic(auto, unfolding(crate::specs::Totals::heads_of))]
pub fn heads(loops: &[LoopInfo], instances: &[InstanceInfo]) -> u32
    ensures heads { result ≡ heads_of loops.now instances.now }
{
    let mut sum = 1;
    for instance in instances {
        sum = loops_from(sum, instance.function, loops);
    }
    sum
}

fn tokens_of(functions: &[FunctionInfo], function: u32) -> u32
    ensures { result ≡ tokens_of functions.now function }
{
    match functions.get(function as usize) {
        Some(info) => info.tokens,
        None => 0,
    }
}

/// The tokens of the bodies, added over all instances. A number past 2^32 - 1 counts as that.
#[tactic(auto, unfolding(crate::specs::Totals::size_of))]
pub fn size(functions: &[FunctionInfo], instances: &[InstanceInfo]) -> u32
    ensures size { result ≡ size_of functions.now instances.now }
{
    let mut sum: u32 = 0;
    for instance in instances {
        sum = sum.saturating_add(tokens_of(functions, instance.function));
    }
    sum
}

fn is_among(step: u32, seen: &[u32]) -> bool
    ensures { result ≡ is_among step seen.now }
{
    for other in seen {
        if *other == step {
            return true;
        }
    }
    false
}

/// Whether the loops have more than so many different steps.
#[tactic(auto, unfolding(crate::specs::Totals::exceeds_steps))]
pub fn exceeds_steps(alloc: Global, limit: usize, loops: &[LoopInfo]) -> Result<bool, NoMemory>
    ensures exceeds { IfOk result (λ exceeds. exceeds ≡ exceeds_steps limit loops.now) }
{
    let mut seen = Vec::new(alloc);
    for one in loops {
        if !is_among(one.step, seen.as_slice()) {
            if seen.len() >= limit {
                return Ok(true);
            }
            seen.push(one.step)?;
        }
    }
    Ok(false)
}
