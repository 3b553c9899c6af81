// The layouts.
ghost use Rattle.std.specs.Prelude.{◌≡◌, ◌++◌, ◌∷◌, [], take, drop, replicate, length, IfOk};
ghost use Rattle.wm_flow.specs.Layouts as layouts;
ghost use Rattle.wm_flow.specs.Views.{layout_of};
ghost use Rattle.wm_layouts.specs.Ranges.{ranges_of, shape_layout};
ghost use Rattle.wm_program.specs.Code.{code_of};

use crate::locals::{instance_scalars, push_path};
use crate::objects::{push_inputs, states, static_arrays};
use crate::ranges::{behind, count_range, first_of, push_range, push_ranges, push_same, word32};
use std::alloc::Global;
use wm_domain::Shape;
use wm_interval::Interval;
use wm_ops::{List, NoMemory};
use wm_program::Program;

/// At the head of the frames, and where a run without init starts.
#[tactic(auto, unfolding(wm_flow::specs::Layouts::static_layout), using(crate::proofs::Pieces::joined2))]
fn static_layout(alloc: Global, program: &Program) -> Result<Shape, NoMemory>
    ensures { IfOk result (λ shape. shape_layout shape ≡ layouts.static_layout (code_of program.now)) }
{
    let states = states(alloc, program.objects.items())?;
    let mut group = List::new(alloc);
    push_ranges(&mut group, first_of(states.items(), 8))?;
    let mut singles = List::new(alloc);
    push_ranges(&mut singles, behind(states.items(), 8))?;
    push_range(&mut singles, word32())?;
    let arrays = static_arrays(alloc, program.objects.items())?;
    Ok(Shape {
        group,
        singles,
        arrays,
    })
}

/// The group at a node: the first state scalars, the first scalars of the instance, the counters.
#[tactic(auto, using(crate::proofs::Pieces::joined3))]
fn group_at(
    alloc: Global,
    states: &[Interval],
    scalars: &[Interval],
    counters: u32,
) -> Result<List<Interval>, NoMemory>
    ensures { IfOk result (λ group. ranges_of group ≡ take 8 (ranges_of states.now) ++ take 12 (ranges_of scalars.now) ++ replicate counters layouts.count_range) }
{
    let mut group = List::new(alloc);
    push_ranges(&mut group, first_of(states, 8))?;
    push_ranges(&mut group, first_of(scalars, 12))?;
    push_same(&mut group, count_range(), counters)?;
    Ok(group)
}

/// The singles at a node: the other state scalars, the inputs, `Overflow`, the other scalars, the temporaries.
#[tactic(auto, using(crate::proofs::Pieces::joined5))]
fn singles_at(
    alloc: Global,
    program: &Program,
    states: &[Interval],
    scalars: &[Interval],
    temporaries: u32,
) -> Result<List<Interval>, NoMemory>
    ensures { IfOk result (λ singles. ranges_of singles ≡ drop 8 (ranges_of states.now) ++ layouts.input_ranges (code_of program.now) ++ layouts.word32 ∷ drop 12 (ranges_of scalars.now) ++ replicate temporaries layouts.word32) }
{
    let mut singles = List::new(alloc);
    push_ranges(&mut singles, behind(states, 8))?;
    push_inputs(&mut singles, program.objects.items())?;
    push_range(&mut singles, word32())?;
    push_ranges(&mut singles, behind(scalars, 12))?;
    push_same(&mut singles, word32(), temporaries)?;
    Ok(singles)
}

/// The arrays at a node: the static ones, and those of the open instances.
fn arrays_at(alloc: Global, program: &Program, instance: u32) -> Result<List<Interval>, NoMemory>
    ensures { IfOk result (λ arrays. ranges_of arrays ≡ layouts.static_arrays (code_of program.now) ++ layouts.path_arrays (code_of program.now) (length program.now.instances) instance) }
{
    let mut arrays = static_arrays(alloc, program.objects.items())?;
    push_path(
        &mut arrays,
        program,
        program.instances.items().len(),
        instance,
    )?;
    Ok(arrays)
}

/// At a node of an instance, with so many counters of both kinds and so many temporaries in use.
#[tactic(auto, unfolding(wm_flow::specs::Layouts::instance_layout))]
fn instance_layout(
    alloc: Global,
    program: &Program,
    instance: u32,
    counters: u32,
    temporaries: u32,
) -> Result<Shape, NoMemory>
    ensures { IfOk result (λ shape. shape_layout shape ≡ layouts.instance_layout (code_of program.now) instance counters temporaries) }
{
    let states = states(alloc, program.objects.items())?;
    let scalars = instance_scalars(alloc, program, instance)?;
    let group = group_at(alloc, states.items(), scalars.items(), counters)?;
    let singles = singles_at(alloc, program, states.items(), scalars.items(), temporaries)?;
    let arrays = arrays_at(alloc, program, instance)?;
    Ok(Shape {
        group,
        singles,
        arrays,
    })
}

fn shape_at(
    alloc: Global,
    program: &Program,
    instance: Option<u32>,
    counters: u32,
    temporaries: u32,
) -> Result<Shape, NoMemory>
    ensures { IfOk result (λ shape. shape_layout shape ≡ layouts.layout_at (code_of program.now) instance counters temporaries) }
{
    match instance {
        Some(instance) => instance_layout(alloc, program, instance, counters, temporaries),
        None => static_layout(alloc, program),
    }
}

/// The shape of a node of an instance, with so many counters of loops and sums and so many temporaries in use, or that of
/// the head of the frames. `NoMemory`: memory ran out.
#[tactic(auto, using(crate::proofs::Grown::layout_shown))]
pub fn layout_at(
    alloc: Global,
    program: &Program,
    instance: Option<u32>,
    counters: u32,
    temporaries: u32,
) -> Result<Shape, NoMemory>
    ensures { IfOk result (λ shape. layout_of shape ≡ layouts.layout_at (code_of program.now) instance counters temporaries) }
{
    shape_at(alloc, program, instance, counters, temporaries)
}
