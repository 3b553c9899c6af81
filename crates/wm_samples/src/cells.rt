// What each input of a program takes of a frame.
ghost use Rattle.std.specs.Prelude.{◌≡◌, ◌-◌, ◌^◌, min};
ghost use Rattle.wm_samples.specs.Form.{form_in, forms_of, frame_bytes, bytes_in};
ghost use Rattle.wm_samples.specs.Cells.{form_seen};

use crate::numbers::bytes_of;
use wm_interval::Interval;
use wm_ops::Width;
use wm_program::{InputInfo, Program};

/// The cells of an input: how many, their width, and the numbers that each may have.
#[derive(Clone, Copy, Debug)]
pub(crate) struct InputCells {
    pub(crate) count: u32,
    pub(crate) width: Width,
    pub(crate) range: Interval,
}

/// The cells of an input; none where it names no object.
pub(crate) fn cells_of(program: &Program, input: InputInfo) -> InputCells
    ensures { form_seen result ≡ form_in program.now.objects input }
{
    match program.objects.items().get(input.object as usize) {
        Some(object) => InputCells {
            count: object.length,
            width: object.width,
            range: input.range,
        },
        None => InputCells {
            count: 0,
            width: Width::W16,
            range: input.range,
        },
    }
}

/// How many bytes a frame takes; a number that is too large for 64 bits counts as the greatest one.
pub(crate) fn frame_bytes(program: &Program) -> u64
    ensures { result ≡ min (frame_bytes (forms_of program.now)) (2 ^ 64 - 1) }
{
    let inputs = program.inputs.items();
    let mut bytes = 0u64;
    for input in inputs {
        bytes = bytes.saturating_add(input_bytes(cells_of(program, *input)));
    }
    bytes
}

/// How many bytes an input takes.
fn input_bytes(cells: InputCells) -> u64
    ensures { result ≡ bytes_in (form_seen cells) }
{
    cells.count as u64 * bytes_of(cells.width) as u64
}
