// All tables of a program.
ghost use Rattle.std.specs.Prelude.{◌≡◌, IfOk};
ghost use Rattle.wm_program.specs.Code.{code_of};
ghost use Rattle.wm_flow.specs.Seats as seats;
ghost use Rattle.wm_seats.specs.Whole.{tables_in};

use crate::locals::{all_counts, all_seats};
use crate::loops::{above, first_heads, head_count, loop_counts, ranks};
use crate::objects::{object_counts, object_seats};
use std::alloc::Global;
use wm_flow::Tables;
use wm_ops::NoMemory;
use wm_program::Program;

/// The tables, one after another.
#[tactic(auto, unfolding(crate::specs::Whole::tables_in))]
fn tables_in(alloc: Global, program: &Program) -> Result<Tables, NoMemory>
    ensures { IfOk result (λ tables. tables ≡ tables_in program.now) }
{
    let objects = object_seats(alloc, program.objects.items())?;
    let counts = object_counts(program.objects.items())?;
    let locals = all_seats(alloc, program.functions.items())?;
    let local_counts = all_counts(alloc, program.functions.items())?;
    let above = above(
        alloc,
        counts.arrays,
        local_counts.items(),
        program.instances.items(),
    )?;
    let loops = loop_counts(alloc, program.functions.items(), program.loops.items())?;
    let first_heads = first_heads(alloc, loops.as_slice(), program.instances.items())?;
    let heads = head_count(loops.as_slice(), program.instances.items())?;
    let ranks = ranks(alloc, program.loops.items())?;
    Ok(Tables {
        objects,
        counts,
        locals,
        local_counts,
        above,
        first_heads,
        ranks,
        heads,
    })
}

/// Where the objects and locals of a program stand, and the numbers of its heads. `NoMemory`: memory ran out, or a number
/// is past 32 bits.
#[tactic(auto, using(crate::proofs::Same::tables_same))]
pub fn tables_of(alloc: Global, program: &Program) -> Result<Tables, NoMemory>
    ensures { IfOk result (λ tables. tables ≡ seats.tables_of (code_of program.now)) }
{
    tables_in(alloc, program)
}
