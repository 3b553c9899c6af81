// What a program tells of an instance and of what holds cells.
ghost use Rattle.std.specs.Prelude.{◌≡◌};
ghost use Rattle.wm_program.specs.Code as codes;

use wm_program::{LocalInfo, Program, Root};

/// The function of an instance.
pub fn function_of(program: &Program, instance: u32) -> u32
    ensures { result ≡ codes.function_of (codes.code_of program.now) instance }
{
    match program.instances.items().get(instance as usize) {
        Some(info) => info.function,
        None => 0,
    }
}

/// What the view parameters of an instance look into.
pub(crate) fn roots_of(program: &Program, instance: u32) -> &[Root]
    ensures { result.now ≡ codes.roots_of (codes.code_of program.now) instance }
{
    match program.instances.items().get(instance as usize) {
        Some(info) => info.roots.items(),
        None => &[],
    }
}

/// How many cells a local has: a scalar and the offset of a view one.
pub fn cells_in(local: &LocalInfo) -> u32
    ensures { result ≡ codes.cells_in local.now }
{
    match local.array {
        Some(count) => count,
        None => 1,
    }
}

#[tactic(auto, using(crate::proofs::Routines::routine_there, crate::proofs::Routines::routine_nowhere))]
fn local_cells(program: &Program, function: u32, local: u32) -> u32
    ensures { result ≡ codes.local_cells (codes.routine_at (codes.code_of program.now) function) local }
{
    match program.functions.items().get(function as usize) {
        Some(info) => match info.locals.items().get(local as usize) {
            Some(local) => cells_in(local),
            None => 0,
        },
        None => 0,
    }
}

/// How many cells a root has.
pub fn length_of(program: &Program, root: Root) -> u32
    ensures { result ≡ codes.length_of (codes.code_of program.now) root }
{
    match root {
        Root::Object(object) => match program.objects.items().get(object as usize) {
            Some(info) => info.length,
            None => 0,
        },
        Root::Local { instance, local } => local_cells(
            program,
            function_of(program, instance),
            local,
        ),
    }
}
