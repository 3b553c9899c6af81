// The frame functions of a program, and which of them a frame runs.
ghost use Rattle.std.specs.Prelude.{◌≡◌, slice_get, slice_index_or};
ghost use Rattle.wm_observe.specs.Functions.{tokens_in, function_at, is_several, least_nought, high_of, functions_in, chosen, function_of};

use wm_program::{FunctionInfo, InputInfo, InstanceInfo, Program};

fn tokens_in(functions: &[FunctionInfo], function: u32) -> u32
    ensures { result ≡ tokens_in (slice_get functions.now function) }
{
    match functions.get(function as usize) {
        None => 1,
        Some(info) => info.tokens,
    }
}

fn function_at(instances: &[InstanceInfo], instance: u32) -> u32
    ensures { result ≡ function_at (slice_get instances.now instance) }
{
    match instances.get(instance as usize) {
        None => 0,
        Some(info) => info.function,
    }
}

/// Whether each frame chooses among several functions. The function that runs the chosen one has no tokens.
pub fn is_several(program: &Program) -> bool
    ensures { result ≡ is_several program.now }
{
    let function = function_at(program.instances.items(), program.frame);
    tokens_in(program.functions.items(), function) == 0
}

fn least_nought(z: i64) -> usize
    ensures { result ≡ least_nought z }
{
    if z < 0 { 0 } else { z as usize }
}

fn high_of(inputs: &[InputInfo]) -> usize
    ensures { result ≡ high_of (slice_get inputs.now 0) }
{
    match inputs.first() {
        None => 0,
        Some(input) => least_nought(input.range.high),
    }
}

/// How many frame functions there are.
pub fn functions_in(program: &Program) -> usize
    ensures { result ≡ functions_in program.now }
{
    if is_several(program) {
        return high_of(program.inputs.items());
    }
    1
}

fn chosen(values: &[i64]) -> usize
    ensures { result ≡ chosen (slice_get values.now 0) }
{
    match values.first() {
        None => 0,
        Some(number) => least_nought(*number).saturating_sub(1),
    }
}

/// The function that a frame of these inputs runs, from 0.
pub fn function_of(several: bool, values: &[i64]) -> usize
    ensures { result ≡ function_of several values.now }
{
    if several {
        return chosen(values);
    }
    0
}
