// The sketch.
ghost use Rattle.std.specs.Prelude.{◌≡◌, ◌-◌, length, replicate, slice_index_or, slice_set, OnOk, IfOk};
ghost use Rattle.wm_flow.specs.Graphs as graphs;
ghost use Rattle.wm_flow.specs.Views.{doing_of, layout_of, flow_of};
ghost use Rattle.wm_flow.specs.Layouts as layouts;
ghost use Rattle.wm_sketch.specs.Drawn.{blank, with_arc, with_head, with_turn};
ghost use Rattle.wm_program.specs.Code.{code_of};

use crate::known::{Known, no_rows, number_in, remember, row_at};
use std::alloc::Global;
use std::marker::Model;
use wm_domain::Shape;
use wm_flow::{Action, Edge, Graph, Head, Sum};
use wm_layouts::layout_at;
use wm_ops::{List, NoMemory};
use wm_program::Program;

/// What has been drawn. Shapes are numbered in the order in which they are first used; those that are known stand by
/// context.
#[derive(Drop)]
pub struct Sketch {
    known: Vec<List<Known>>,
    shapes: List<Shape>,
    node_shape: List<u32>,
    node_instance: List<Option<u32>>,
    edges: List<Edge>,
    heads: Vec<Head>,
}

impl Model for Sketch {
    ghost use Rattle.wm_flow.specs.Graphs as graphs;
    ghost use Rattle.wm_sketch.specs.Seen.{rows_of, layouts_of, arcs_of};

    ghost Value = { graphs.Sketch };

    ghost view = { λ sketch. record { known = rows_of sketch.known.items; layouts = layouts_of sketch.shapes; node_shape = sketch.node_shape; node_instance = sketch.node_instance; arcs = arcs_of sketch.edges; heads = sketch.heads.items } };
}

/// A number of 32 bits.
fn small(count: usize) -> Result<u32, NoMemory>
    ensures { IfOk result (λ number. number ≡ count) }
{
    match u32::try_from(count) {
        Ok(number) => Ok(number),
        Err(_) => Err(NoMemory),
    }
}

fn no_head() -> Head
    ensures { result ≡ graphs.no_head }
{
    Head {
        node: 0,
        instance: None,
        loop_id: None,
        entry: 0,
        back: 0,
    }
}

#[tactic(auto, using(crate::proofs::Rows::heads_step))]
fn no_heads(alloc: Global, count: u32) -> Result<Vec<Head>, NoMemory>
    ensures { IfOk result (λ heads. heads.items ≡ replicate count graphs.no_head) }
{
    let mut heads = Vec::new(alloc);
    for k in 0..count {
        heads.push(no_head())?;
    }
    Ok(heads)
}

fn head_at(heads: &[Head], head: u32) -> Head
    ensures { result ≡ slice_index_or heads.now head graphs.no_head }
{
    match heads.get(head as usize) {
        Some(head) => *head,
        None => no_head(),
    }
}

fn set_head(heads: &mut Vec<Head>, head: u32, it: Head)
    ensures { heads.new.items ≡ slice_set heads.old.items head it }
{
    let head = head as usize;
    if head < heads.len() {
        heads[head] = it;
    }
}

fn list_of(alloc: Global, heads: &[Head]) -> Result<List<Head>, NoMemory>
    ensures { IfOk result (λ list. list ≡ heads.now) }
{
    let mut list = List::new(alloc);
    for head in heads {
        list.push(*head)?;
    }
    Ok(list)
}

fn copy_of(alloc: Global, sums: &[Sum]) -> Result<List<Sum>, NoMemory>
    ensures { IfOk result (λ list. list ≡ sums.now) }
{
    let mut list = List::new(alloc);
    for sum in sums {
        list.push(*sum)?;
    }
    Ok(list)
}

impl Sketch {
    /// Nothing is drawn of so many contexts and heads. `NoMemory`, here and below: memory ran out, or a number is past 32
    /// bits.
    pub fn new(alloc: Global, contexts: u32, heads: u32) -> Result<Sketch, NoMemory>
        ensures { IfOk result (λ sketch. sketch ≡ blank contexts heads) }
    {
        let known = no_rows(alloc, contexts)?;
        let heads = no_heads(alloc, heads)?;
        Ok(Sketch {
            known,
            shapes: List::new(alloc),
            node_shape: List::new(alloc),
            node_instance: List::new(alloc),
            edges: List::new(alloc),
            heads,
        })
    }

    fn node(&mut self, number: u32, instance: Option<u32>) -> Result<(), NoMemory>
        ensures { OnOk result (self.new ≡ graphs.with_node number instance self.old) }
    {
        self.node_shape.push(number)?;
        self.node_instance.push(instance)
    }

    /// A shape with the next number.
    #[tactic(auto, using(crate::proofs::Rows::layouts_joined, crate::proofs::Rows::length_layouts))]
    fn shape(&mut self, shape: Shape, context: u32, temporaries: u32) -> Result<u32, NoMemory>
        ensures after { OnOk result (self.new ≡ graphs.with_layout (layout_of shape) context temporaries self.old) }
        ensures number { IfOk result (λ number. number ≡ length self.old.layouts) }
    {
        let number = small(self.shapes.items().len())?;
        remember(&mut self.known, context, temporaries, number)?;
        self.shapes.push(shape)?;
        Ok(number)
    }

    fn number_of(&self, context: u32, temporaries: u32) -> Option<u32>
        ensures { result ≡ graphs.number_in temporaries (graphs.known_in self.now context) }
    {
        number_in(row_at(self.known.as_slice(), context), temporaries)
    }

    /// A node, whose shape has a number or gets the next one.
    #[tactic(auto, unfolding(wm_flow::specs::Graphs::node_drawn))]
    pub fn point(
        &mut self,
        alloc: Global,
        program: &Program,
        context: u32,
        instance: Option<u32>,
        counters: u32,
        temporaries: u32,
    ) -> Result<(), NoMemory>
        ensures { OnOk result (self.new ≡ graphs.node_drawn (layouts.layout_at (code_of program.now) instance counters temporaries) context temporaries instance (graphs.number_in temporaries (graphs.known_in self.old context)) self.old) }
    {
        match self.number_of(context, temporaries) {
            Some(number) => self.node(number, instance),
            None => {
                let shape = layout_at(alloc, program, instance, counters, temporaries)?;
                let number = self.shape(shape, context, temporaries)?;
                self.node(number, instance)
            }
        }
    }

    /// An edge.
    #[tactic(auto, using(crate::proofs::Rows::arcs_joined))]
    pub fn edge(
        &mut self,
        source: u32,
        target: u32,
        action: Action,
        site: Option<u32>,
    ) -> Result<(), NoMemory>
        ensures { OnOk result (self.new ≡ with_arc source target (doing_of action) site self.old) }
    {
        self.edges.push(Edge {
            source,
            target,
            action,
            site,
        })
    }

    /// The number of the last edge.
    #[tactic(auto, using(crate::proofs::Rows::length_arcs))]
    fn last_edge(&self) -> Result<u32, NoMemory>
        ensures { IfOk result (λ number. number ≡ length self.now.arcs - 1) }
    {
        small(self.edges.items().len().saturating_sub(1))
    }

    /// The last edge enters a head, at this node.
    pub fn begins(
        &mut self,
        head: u32,
        instance: Option<u32>,
        loop_id: Option<u32>,
        node: u32,
    ) -> Result<(), NoMemory>
        ensures { OnOk result (self.new ≡ with_head head instance loop_id node self.old) }
    {
        let entry = self.last_edge()?;
        set_head(
            &mut self.heads,
            head,
            Head {
                node,
                instance,
                loop_id,
                entry,
                back: 0,
            },
        );
        Ok(())
    }

    /// The last edge is the back edge of a head.
    pub fn turns(&mut self, head: u32) -> Result<(), NoMemory>
        ensures { OnOk result (self.new ≡ with_turn head self.old) }
    {
        let back = self.last_edge()?;
        let it = head_at(self.heads.as_slice(), head);
        set_head(&mut self.heads, head, Head { back, ..it });
        Ok(())
    }

    /// The graph, for these sum counters.
    #[tactic(auto, using(crate::proofs::Rows::layouts_mapped, crate::proofs::Rows::arcs_mapped))]
    pub fn into_graph(self, alloc: Global, sums: &[Sum]) -> Result<Graph, NoMemory>
        ensures { IfOk result (λ graph. flow_of graph ≡ graphs.flow_from sums.now self) }
    {
        let heads = list_of(alloc, self.heads.as_slice())?;
        let sums = copy_of(alloc, sums)?;
        Ok(Graph {
            shapes: self.shapes,
            node_shape: self.node_shape,
            node_instance: self.node_instance,
            edges: self.edges,
            heads,
            sums,
        })
    }
}
