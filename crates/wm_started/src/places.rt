// What the numbers of the variables at the first node rest on.
ghost use Rattle.std.specs.Prelude.{◌≡◌};
ghost use Rattle.wm_program.specs.Code.{code_of};
ghost use Rattle.wm_flow.specs.Seats as seats;
ghost use Rattle.wm_started.specs.Starting as starting;

use wm_flow::{Bases, Counts, LocalCounts, Tables};
use wm_places::function_of;
use wm_program::Program;

// no scalars of a function
fn no_locals() -> LocalCounts
    ensures { result ≡ seats.no_local_counts }
{
    LocalCounts {
        scalars: 0,
        arrays: 0,
    }
}

fn counts_in(counts: &[LocalCounts], function: u32) -> LocalCounts
    ensures { result ≡ seats.counts_in counts.now function }
{
    match counts.get(function as usize) {
        Some(counts) => *counts,
        None => no_locals(),
    }
}

fn without_inputs(counts: Counts) -> Counts
    ensures { result ≡ starting.without_inputs counts }
{
    Counts {
        inputs: 0,
        ..counts
    }
}

/// Whether the first node has inputs: that of init's instance has them, and without init one of the shape of the frame head
/// does not.
pub(crate) fn has_inputs(program: &Program) -> bool
    ensures { result ≡ starting.has_inputs program.now.init }
{
    match program.init {
        Some(_init) => true,
        None => false,
    }
}

/// Where the first node has its variables.
pub(crate) fn first_bases(program: &Program, tables: &Tables) -> Bases
    ensures { result ≡ starting.first_bases (code_of program.now) tables.now }
{
    match program.init {
        Some(init) => Bases {
            counts: tables.counts,
            locals: counts_in(tables.local_counts.items(), function_of(program, init)),
            loops: 0,
            sums: 0,
        },
        None => Bases {
            counts: without_inputs(tables.counts),
            locals: no_locals(),
            loops: 0,
            sums: 0,
        },
    }
}
