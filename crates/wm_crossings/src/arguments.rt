// The parameters of a call with their arguments.
ghost use Rattle.std.specs.Prelude.{◌≡◌, ◌++◌, ◌∷◌, [], OnOk, IfOk};
ghost use Rattle.wm_flow.specs.Calls as calls;
ghost use Rattle.wm_flow.specs.Kept as forms;

use std::alloc::Global;
use wm_flow::{Argument, Bases, Kept, LocalSeat};
use wm_forms::form_of;
use wm_ops::{List, NoMemory};
use wm_places::{next, scalar_place, temporary};

/// Puts a parameter with its argument at the end.
fn push_argument(
    alloc: Global,
    list: &mut List<Argument>,
    parameter: u32,
    value: Kept,
) -> Result<(), NoMemory>
    ensures { OnOk result (list.new ≡ list.old ++ record { parameter = parameter; form = forms.form_of value } ∷ []) }
{
    let form = form_of(alloc, value)?;
    list.push(Argument { parameter, form })
}

/// The parameters with their arguments; an addressed one has its argument in a temporary.
pub(crate) fn arguments_from(
    alloc: Global,
    bases: Bases,
    seats: &[LocalSeat],
    values: &[Kept],
) -> Result<List<Argument>, NoMemory>
    ensures { IfOk result (λ list. list ≡ calls.arguments_from bases seats.now values.now 0) }
{
    let mut list = List::new(alloc);
    let mut temporaries = 0;
    let mut rest = values;
    for seat in seats {
        let Some((value, others)) = rest.split_first() else {
            return Ok(list);
        };
        match seat {
            LocalSeat::Scalar(k) => {
                let place = scalar_place(bases, *k)?;
                push_argument(alloc, &mut list, place, *value)?;
            }
            LocalSeat::Array(_) => {
                let place = temporary(bases, temporaries)?;
                push_argument(alloc, &mut list, place, *value)?;
                temporaries = next(temporaries)?;
            }
        }
        rest = others;
    }
    Ok(list)
}
