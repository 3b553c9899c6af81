// The pen.
ghost use Rattle.std.specs.Prelude.{◌≡◌, suc, [], ◌∷◌, OnOk, IfOk};
ghost use Rattle.wm_flow.specs.Strokes as strokes;
ghost use Rattle.wm_flow.specs.Views.{doing_of};
ghost use Rattle.wm_places.specs.Seen.{plan_of};
ghost use Rattle.wm_pen.specs.Ink.{put, drawing, measuring, ruler, ruler_mode, is_rest};
ghost use Rattle.wm_pen.specs.Seen.{stroke_of, strokes_of};

use crate::points::point_at;
use crate::stroke::Stroke;
use std::alloc::Global;
use std::marker::Model;
use wm_flow::{Action, Scene};
use wm_ops::NoMemory;
use wm_places::{Plan, next, plus};

/// What a pen does with strokes.
#[derive(Clone, Copy, Debug, PartialEq, Eq)]
pub enum Mode {
    /// It records them.
    Draws,
    /// It counts the nodes that they make, and records nothing.
    Measures,
    /// Nothing: it stays where it is.
    Rests,
}

/// A pen at a node. Contracts see its node, what it does, and the strokes that it has recorded.
#[derive(Drop)]
pub struct Pen {
    node: u32,
    mode: Mode,
    strokes: Vec<Stroke>,
}

impl Model for Pen {
    ghost use Rattle.wm_pen.specs.Ink.{Ink};
    ghost use Rattle.wm_pen.specs.Seen.{strokes_of};

    ghost Value = { Ink };

    ghost view = { λ pen. record { node = pen.node; mode = pen.mode; strokes = strokes_of pen.strokes.items } };
}

fn ruler_mode(mode: Mode) -> Mode
    ensures { result ≡ ruler_mode mode }
{
    match mode {
        Mode::Draws => Mode::Measures,
        Mode::Measures => Mode::Rests,
        Mode::Rests => Mode::Rests,
    }
}

impl Pen {
    /// A pen that draws, at this node.
    pub fn new(alloc: Global, node: u32) -> Pen
        ensures drawing { result ≡ drawing node }
    {
        Pen {
            node,
            mode: Mode::Draws,
            strokes: Vec::new(alloc),
        }
    }

    /// A pen that tells how many nodes something will make: it measures from the node 0 on where this one draws, and rests
    /// where this one does not.
    pub fn ruler(&self, alloc: Global) -> Pen
        ensures ruler { result ≡ ruler self.now }
    {
        Pen {
            node: 0,
            mode: ruler_mode(self.mode),
            strokes: Vec::new(alloc),
        }
    }

    /// A pen that measures, at the node 0.
    pub fn measuring(alloc: Global) -> Pen
        ensures measuring { result ≡ measuring }
    {
        Pen {
            node: 0,
            mode: Mode::Measures,
            strokes: Vec::new(alloc),
        }
    }

    /// The node at which it is.
    pub fn node(&self) -> u32
        ensures node { result ≡ self.now.node }
    {
        self.node
    }

    /// Whether it rests.
    pub fn rests(&self) -> bool
        ensures rests { result ≡ is_rest self.now.mode }
    {
        match self.mode {
            Mode::Draws => false,
            Mode::Measures => false,
            Mode::Rests => true,
        }
    }

    /// What it has recorded.
    pub fn into_strokes(self) -> Vec<Stroke>
        ensures recorded { strokes_of result.items ≡ self.strokes }
    {
        self.strokes
    }

    /// So many nodes further, which other strokes make. `NoMemory` where a number is past 32 bits.
    #[tactic(auto, using(crate::proofs::Joins::put_drawn, crate::proofs::Joins::put_measured, crate::proofs::Joins::put_rested, crate::proofs::Joins::append_nothing))]
    pub fn skip(&mut self, count: u32) -> Result<(), NoMemory>
        ensures { OnOk result (self.new ≡ put count [] self.old) }
    {
        match self.mode {
            Mode::Draws => {
                self.node = plus(self.node, count)?;
                Ok(())
            }
            Mode::Measures => {
                self.node = plus(self.node, count)?;
                Ok(())
            }
            Mode::Rests => Ok(()),
        }
    }

    /// One stroke.
    #[tactic(auto, using(crate::proofs::Joins::put_drawn, crate::proofs::Joins::put_measured, crate::proofs::Joins::put_rested, crate::proofs::Joins::strokes_of_one))]
    fn put(&mut self, count: u32, stroke: Stroke) -> Result<(), NoMemory>
        ensures { OnOk result (self.new ≡ put count (stroke_of stroke ∷ []) self.old) }
    {
        match self.mode {
            Mode::Draws => {
                let node = plus(self.node, count)?;
                self.strokes.push(stroke)?;
                self.node = node;
                Ok(())
            }
            Mode::Measures => {
                self.node = plus(self.node, count)?;
                Ok(())
            }
            Mode::Rests => Ok(()),
        }
    }

    /// The node at which the pen stands, the first one of an instance. `NoMemory`, here and below: memory ran out, or a
    /// number is past 32 bits.
    pub fn begin(&mut self, plan: &Plan, scene: Scene, temporaries: u32) -> Result<(), NoMemory>
        ensures { OnOk result (self.new ≡ put 0 (strokes.point (plan_of plan.now) scene temporaries ∷ []) self.old) }
    {
        let stroke = point_at(plan, scene, temporaries)?;
        self.put(0, stroke)
    }

    /// The next node.
    pub fn point(&mut self, plan: &Plan, scene: Scene, temporaries: u32) -> Result<(), NoMemory>
        ensures { OnOk result (self.new ≡ put 1 (strokes.point (plan_of plan.now) scene temporaries ∷ []) self.old) }
    {
        let stroke = point_at(plan, scene, temporaries)?;
        self.put(1, stroke)
    }

    /// An edge.
    pub fn line(
        &mut self,
        source: u32,
        target: u32,
        action: Action,
        site: Option<u32>,
    ) -> Result<(), NoMemory>
        ensures { OnOk result (self.new ≡ put 0 (strokes.Line source target (doing_of action) site ∷ []) self.old) }
    {
        self.put(
            0,
            Stroke::Line {
                source,
                target,
                action,
                site,
            },
        )
    }

    /// An edge to a new node.
    #[tactic(auto, using(crate::proofs::Joins::step_joins))]
    pub fn step(
        &mut self,
        plan: &Plan,
        scene: Scene,
        action: Action,
        site: Option<u32>,
        temporaries: u32,
    ) -> Result<(), NoMemory>
        ensures { OnOk result (self.new ≡ put 1 (strokes.step (plan_of plan.now) scene self.old.node (doing_of action) site temporaries) self.old) }
    {
        let node = self.node();
        let target = next(node)?;
        self.line(node, target, action, site)?;
        self.point(plan, scene, temporaries)
    }

    /// The nodes and edges of an instance, from a node on. The pen does not move.
    pub fn part(&mut self, instance: u32, start: u32) -> Result<(), NoMemory>
        ensures { OnOk result (self.new ≡ put 0 (strokes.Part instance start ∷ []) self.old) }
    {
        self.put(0, Stroke::Part { instance, start })
    }

    /// The last edge enters a head.
    pub fn begins(
        &mut self,
        head: u32,
        instance: Option<u32>,
        loop_id: Option<u32>,
        node: u32,
    ) -> Result<(), NoMemory>
        ensures { OnOk result (self.new ≡ put 0 (strokes.Begins head instance loop_id node ∷ []) self.old) }
    {
        self.put(
            0,
            Stroke::Begins {
                head,
                instance,
                loop_id,
                node,
            },
        )
    }

    /// The last edge is the back edge of a head.
    pub fn turns(&mut self, head: u32) -> Result<(), NoMemory>
        ensures { OnOk result (self.new ≡ put 0 (strokes.Turns head ∷ []) self.old) }
    {
        self.put(0, Stroke::Turns { head })
    }
}
