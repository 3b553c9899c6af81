// The shapes that have a number, by context.
ghost use Rattle.std.specs.Prelude.{◌≡◌, ◌++◌, ◌∷◌, [], replicate, slice_index_or, slice_set, OnOk, IfOk};
ghost use Rattle.wm_flow.specs.Graphs as graphs;
ghost use Rattle.wm_sketch.specs.Seen.{row_of, rows_of, known_set};

use std::alloc::Global;
use wm_ops::{List, NoMemory};

/// A shape of a context that has a number, by its temporaries.
#[derive(Clone, Copy, Debug, PartialEq, Eq)]
pub struct Known {
    pub temporaries: u32,
    pub number: u32,
}

/// The number of the shape with so many temporaries.
pub(crate) fn number_in(row: &[Known], temporaries: u32) -> Option<u32>
    ensures { result ≡ graphs.number_in temporaries (row_of row.now) }
{
    for it in row {
        if it.temporaries == temporaries {
            return Some(it.number);
        }
    }
    None
}

/// The shapes of a context.
pub(crate) fn row_at(rows: &[List<Known>], context: u32) -> &[Known]
    ensures { row_of result.now ≡ slice_index_or (rows_of rows.now) context [] }
{
    match rows.get(context as usize) {
        Some(row) => row.items(),
        None => &[],
    }
}

/// Puts a shape behind those of its context.
fn push_known(rows: &mut Vec<List<Known>>, context: u32, known: Known) -> Result<(), NoMemory>
    ensures { OnOk result (rows.new.items ≡ known_set rows.old.items context known) }
{
    let context = context as usize;
    if context < rows.len() {
        rows[context].push(known)?;
    }
    Ok(())
}

/// A shape of a context gets a number.
#[tactic(auto, using(crate::proofs::Rows::known_more))]
pub(crate) fn remember(
    rows: &mut Vec<List<Known>>,
    context: u32,
    temporaries: u32,
    number: u32,
) -> Result<(), NoMemory>
    ensures { OnOk result (rows_of rows.new.items ≡ slice_set (rows_of rows.old.items) context (slice_index_or (rows_of rows.old.items) context [] ++ record { temporaries = temporaries; number = number } ∷ [])) }
{
    push_known(
        rows,
        context,
        Known {
            temporaries,
            number,
        },
    )
}

/// So many contexts without shapes.
#[tactic(auto, using(crate::proofs::Rows::rows_step))]
pub(crate) fn no_rows(alloc: Global, count: u32) -> Result<Vec<List<Known>>, NoMemory>
    ensures { IfOk result (λ rows. rows_of rows.items ≡ replicate count []) }
{
    let mut rows = Vec::new(alloc);
    for k in 0..count {
        rows.push(List::new(alloc))?;
    }
    Ok(rows)
}
