// The graph of a program for some sum counters.
ghost use Rattle.std.specs.Prelude.{◌≡◌, IfOk};
ghost use Rattle.wm_program.specs.Code.{code_of};
ghost use Rattle.wm_flow.specs.Views.{flow_of};
ghost use Rattle.wm_flow.specs.Graphs.{graph_of};
ghost use Rattle.wm_graph_laws.specs.Calling.{CallsStand};
ghost use Rattle.wm_flow.specs.Parts.{plan_of};
ghost use Rattle.wm_graph_laws.specs.Begun.{HeadsStand};
ghost use Rattle.wm_graph_laws.specs.Laws.{IsOrderly, IsHeaded};

use std::alloc::Global;
use wm_flow::{Graph, Sum};
use wm_ops::NoMemory;
use wm_parts::{drawn, sizes_of};
use wm_places::Plan;
use wm_program::Program;
use wm_seats::{sum_rows, tables_of};

/// The expanded graph of a program, for these sum counters: they stand in the order of their heads and then of their
/// variables, at most four for each head of an innermost loop, each with a step from 1 to 2147483647.
///
/// `NoMemory`: memory ran out, or a number of the graph is past 32 bits.
pub fn lower(alloc: Global, program: &Program, sums: &[Sum]) -> Result<Graph, NoMemory>
    ensures graph { IfOk result (λ graph. flow_of graph ≡ graph_of (code_of program.now) sums.now) }
    ensures orderly { IfOk result (λ graph. CallsStand (code_of program.now) → IsOrderly (flow_of graph)) }
    ensures headed { IfOk result (λ graph. CallsStand (code_of program.now) → HeadsStand (plan_of (code_of program.now) sums.now) → IsHeaded (flow_of graph)) }
{
    drawn_graph(alloc, program, sums)
}

// the graph as it is drawn
#[tactic(auto, unfolding(wm_flow::specs::Graphs::graph_of, wm_flow::specs::Parts::plan_of, wm_places::specs::Seen::plan_of))]
fn drawn_graph(alloc: Global, program: &Program, sums: &[Sum]) -> Result<Graph, NoMemory>
    ensures graph { IfOk result (λ graph. flow_of graph ≡ graph_of (code_of program.now) sums.now) }
{
    let tables = tables_of(alloc, program)?;
    let rows = sum_rows(alloc, tables.heads, sums)?;
    let sizes = sizes_of(alloc, program, &tables, rows.items())?;
    let plan = Plan {
        alloc,
        program,
        tables: &tables,
        sums: rows.items(),
        sizes: sizes.as_slice(),
    };
    let sketch = drawn(&plan)?;
    sketch.into_graph(alloc, sums)
}
