// The instances of each frame function.
ghost use Rattle.std.specs.Prelude.{◌≡◌, ◌++◌, false, slice_get, slice_index_or, length, IfOk, OnOk, if◌then◌else◌, ◌∷◌, []};
ghost use Rattle.wm_bounds.specs.Parts.{has_no_tokens, is_choosing, is_called_by, firsts_from, parts_from, parts_called, parts_of, is_foreign, instance_at, is_live, lives_in};

use std::alloc::{AllocError, Global};
use wm_flow::{Edge, Graph};
use wm_ops::NoMemory;
use wm_program::{FunctionInfo, InstanceInfo, Program};

/// The instances of a frame function and of all that it calls: from the first one up to another that is none of them. The others
/// behind `frame` are those of other frame functions.
#[derive(Clone, Copy, Debug, PartialEq, Eq)]
pub struct Part {
    pub frame: u32,
    pub first: u32,
    pub end: u32,
}

fn has_no_tokens(functions: &[FunctionInfo], function: u32) -> bool
    ensures { result ≡ has_no_tokens (slice_get functions.now function) }
{
    match functions.get(function as usize) {
        None => false,
        Some(function) => function.tokens == 0,
    }
}

/// Whether the instance's function is the one that chooses among several frame functions: it alone has no tokens.
fn is_choosing(program: &Program) -> bool
    ensures { result ≡ is_choosing program.now }
{
    match program.instances.items().get(program.frame as usize) {
        None => false,
        Some(info) => has_no_tokens(program.functions.items(), info.function),
    }
}

fn is_called_by(frame: u32, caller: Option<u32>) -> bool
    ensures { result ≡ is_called_by frame caller }
{
    match caller {
        None => false,
        Some(caller) => caller == frame,
    }
}

fn push_first(
    firsts: &mut Vec<u32>,
    frame: u32,
    number: usize,
    caller: Option<u32>,
) -> Result<(), NoMemory>
    ensures { OnOk result (firsts.new.items ≡ firsts.old.items ++ (if is_called_by frame caller then number ∷ [] else [])) }
{
    if is_called_by(frame, caller) {
        let Ok(first) = u32::try_from(number) else {
            return Err(NoMemory);
        };
        firsts.push(first)?;
    }
    Ok(())
}

/// The numbers of the instances that the frame calls itself.
fn firsts_called(
    alloc: Global,
    frame: u32,
    instances: &[InstanceInfo],
) -> Result<Vec<u32>, NoMemory>
    ensures { IfOk result (λ firsts. firsts.items ≡ firsts_from frame 0 instances.now) }
{
    let mut firsts = Vec::new(alloc);
    for number in 0..instances.len() {
        push_first(&mut firsts, frame, number, instances[number].caller)?;
    }
    Ok(firsts)
}

/// The number at a place; that of no instance behind the end.
fn first_at(firsts: &[u32], place: usize) -> u32
    ensures { result ≡ slice_index_or firsts.now place 4294967295 }
{
    if place < firsts.len() {
        return firsts[place];
    }
    u32::MAX
}

/// Each part ends where the next one begins.
fn parts_between(alloc: Global, frame: u32, firsts: &[u32]) -> Result<Vec<Part>, AllocError>
    ensures { IfOk result (λ parts. parts.items ≡ parts_from frame firsts.now 0 firsts.now) }
{
    let mut parts = Vec::new(alloc);
    for k in 0..firsts.len() {
        parts.push(Part {
            frame,
            first: firsts[k],
            end: first_at(firsts, k + 1),
        })?;
    }
    Ok(parts)
}

fn parts_called(alloc: Global, program: &Program) -> Result<Vec<Part>, NoMemory>
    ensures { IfOk result (λ parts. parts.items ≡ parts_called program.now) }
{
    let firsts = firsts_called(alloc, program.frame, program.instances.items())?;
    let parts = parts_between(alloc, program.frame, firsts.as_slice())?;
    Ok(parts)
}

/// The part of each frame function in their order; of a program with one frame function its whole frame.
pub fn parts_of(alloc: Global, program: &Program) -> Result<Vec<Part>, NoMemory>
    ensures parts { IfOk result (λ parts. parts.items ≡ parts_of program.now) }
{
    if is_choosing(program) {
        return parts_called(alloc, program);
    }
    let mut parts = Vec::new(alloc);
    parts.push(Part {
        frame: program.frame,
        first: program.frame,
        end: u32::MAX,
    })?;
    Ok(parts)
}

/// Whether a node belongs to an instance of another frame function.
fn is_foreign(part: Part, instance: Option<u32>) -> bool
    ensures { result ≡ is_foreign part instance }
{
    match instance {
        None => false,
        Some(instance) => {
            if instance <= part.frame {
                return false;
            }
            if instance < part.first {
                return true;
            }
            part.end <= instance
        }
    }
}

fn instance_at(graph: &Graph, node: u32) -> Option<u32>
    ensures { result ≡ instance_at graph.now node }
{
    match graph.node_instance.items().get(node as usize) {
        None => None,
        Some(instance) => *instance,
    }
}

fn is_live(graph: &Graph, part: Part, edge: &Edge, live: bool) -> bool
    ensures { result ≡ is_live graph.now part edge.now live }
{
    if is_foreign(part, instance_at(graph, edge.source)) {
        return false;
    }
    if is_foreign(part, instance_at(graph, edge.target)) {
        return false;
    }
    live
}

/// A mark of a list, or false behind its end.
fn mark_at(marks: &[bool], place: usize) -> bool
    ensures { result ≡ slice_index_or marks.now place false }
{
    if place < marks.len() {
        return marks[place];
    }
    false
}

/// The live edges, without those that lead from or to a node of another frame function's instances. `live` has an entry for each
/// edge.
pub fn lives_in(
    alloc: Global,
    graph: &Graph,
    part: Part,
    live: &[bool],
) -> Result<Vec<bool>, NoMemory>
    ensures lives { IfOk result (λ own. own.items ≡ lives_in graph.now part live.now) }
{
    let mut own = Vec::new(alloc);
    for edge in graph.edges.items() {
        let is_live = is_live(graph, part, edge, mark_at(live, own.len()));
        own.push(is_live)?;
    }
    Ok(own)
}
