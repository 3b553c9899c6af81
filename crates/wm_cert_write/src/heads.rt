// The heads of a text.
ghost use Rattle.std.specs.Prelude.{◌≡◌, IfOk};
ghost use Rattle.wm_domain.specs.States.{IsShape};
ghost use Rattle.wm_cert_write.specs.Heads.{name_with, name_of, sums_at, IsStateText, IsHeadText};

use crate::printed::printed;
use std::alloc::Global;
use wm_cert_text::{Head as Told, HeadName, State, SumStep};
use wm_domain::{Domain, Shape};
use wm_flow::{Graph, Head, Sum};
use wm_ops::{List, NoMemory};
use wm_told::tell;

fn name_with(loop_id: u32, instance: Option<u32>) -> HeadName
    ensures { result ≡ name_with loop_id instance }
{
    match instance {
        None => HeadName::Frame,
        Some(instance) => HeadName::Loop { loop_id, instance },
    }
}

fn name_of(loop_id: Option<u32>, instance: Option<u32>) -> HeadName
    ensures { result ≡ name_of loop_id instance }
{
    match loop_id {
        None => HeadName::Frame,
        Some(loop_id) => name_with(loop_id, instance),
    }
}

/// The sum counters of a head.
fn sums_at(alloc: Global, head: usize, sums: &[Sum]) -> Result<List<SumStep>, NoMemory>
    ensures { IfOk result (λ list. list ≡ sums_at head sums.now) }
{
    let mut list = List::new(alloc);
    for sum in sums {
        if sum.head as usize == head {
            list.push(SumStep {
                variable: sum.variable,
                step: sum.step,
            })?;
        }
    }
    Ok(list)
}

/// What the text prints of a state; nothing where it has no point.
fn state_text<D: Domain>(alloc: Global, shape: &Shape, state: &D) -> Result<Option<State>, NoMemory>
    requires shape { D.shape_of state.now ≡ shape.now }
    requires valid { IsShape shape.now }
    ensures text { IfOk result (λ told. IsStateText D.PAIRS shape.now (D.holds state.now) told) }
{
    match tell(alloc, shape, state)? {
        None => Ok(None),
        Some(full) => Ok(Some(printed(alloc, full)?)),
    }
}

/// A head of the text, of the head with this number and its state.
pub fn head_text<D: Domain>(
    alloc: Global,
    graph: &Graph,
    number: usize,
    head: Head,
    shape: &Shape,
    state: &D,
) -> Result<Told, NoMemory>
    requires shape { D.shape_of state.now ≡ shape.now }
    requires valid { IsShape shape.now }
    ensures text { IfOk result (λ told. IsHeadText D.PAIRS graph.now number head shape.now (D.holds state.now) told) }
{
    Ok(Told {
        name: name_of(head.loop_id, head.instance),
        sums: sums_at(alloc, number, graph.sums.items())?,
        state: state_text(alloc, shape, state)?,
    })
}
