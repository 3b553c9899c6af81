// A machine that runs a program, frame after frame.
ghost use Rattle.std.specs.Prelude.{◌≡◌, ℤ, [], IfOk, OnOk, OnErr, IsErr, MatchOption, IsSomeAnd, slice_index_or};
ghost use Rattle.wm_program.specs.Code.{code_of};
ghost use Rattle.wm_weights.specs.Table.{weight_of};
ghost use Rattle.wm_program.specs.Outcomes.{Got};
ghost use Rattle.wm_program.specs.Runs.{result_of, started, then_frame};
ghost use Rattle.wm_interp.specs.Frames.{started_on, frame_on, shown_by};
ghost use Rattle.wm_interp.specs.Projected.{Stands};
ghost use Rattle.wm_interp.specs.Standing.{code_in, weights_in, stand_of, ran_seen, frame_with};

use crate::frames::{Ran, first_run, next_run, shown};
use std::alloc::Global;
use wm_ops::NoMemory;
use wm_program::{FrameResult, Inputs, Program};
use wm_weights::Weights;

/// A machine over one store of cells, which runs the frames of a program one after another.
#[derive(Drop)]
pub struct Machine<'p> {
    program: &'p Program,
    weights: &'p Weights,
    alloc: Global,
    ran: Option<Ran>,
}

impl<'p> Machine<'p> {
    /// A machine that waits for its first start. Each word that the program uses is to have a weight; one without counts
    /// nothing.
    pub fn new(
        alloc: Global,
        program: &'p Program,
        weights: &'p Weights,
    ) -> Result<Machine<'p>, NoMemory>
        ensures waits { IfOk result (λ machine. stand_of machine ≡ None) }
        ensures code { IfOk result (λ machine. code_in machine ≡ code_of program.now) }
        ensures weights { IfOk result (λ machine. weights_in machine ≡ weight_of weights.now) }
    {
        Ok(Machine {
            program,
            weights,
            alloc,
            ran: None,
        })
    }

    /// Gives the objects their static values, keeps the fill list, and runs init, where there is one, with so many
    /// elementary steps.
    ///
    /// The result has the weights of the counted words, `Overflow` at the end, the failures by site and cause in the order
    /// of their first time, and how init ended. `NoMemory`: memory ran out; the machine then waits for another start.
    #[tactic(auto, using(crate::proofs::Runs::started_agrees, crate::proofs::Runs::result_agrees))]
    pub fn start(&mut self, fill: Vec<i64>, steps: u64) -> Result<FrameResult, NoMemory>
        ensures result { IfOk result (λ shown. shown ≡ result_of (weights_in self.old) (started (code_in self.old) fill.items steps)) }
        ensures stands { OnOk result (Stands (weights_in self.old) (started (code_in self.old) fill.items steps) (stand_of self.new)) }
        ensures refused { OnErr result (stand_of self.new ≡ None) }
        ensures code { code_in self.new ≡ code_in self.old }
        ensures weights { weights_in self.new ≡ weights_in self.old }
    {
        self.ran = None;
        match first_run(self.alloc, self.program, self.weights, fill, steps) {
            Ok(ran) => self.keep(ran),
            Err(_) => Err(NoMemory),
        }
    }

    /// Runs a frame: stores the inputs, one number for each input cell, and calls the frame function with so many
    /// elementary steps.
    ///
    /// It ends as `Stopped` at a site whose operation is not done, and as `StepLimit` where another elementary step would
    /// begin. After such an end, of the start too, each frame answers that end with the count 0 and no failures, until the
    /// next start. `NoMemory`: memory ran out, or did so before and no start was made since.
    #[tactic(auto, using(crate::proofs::Runs::frame_agrees, crate::proofs::Runs::result_agrees))]
    pub fn run_frame(&mut self, inputs: &Inputs, steps: u64) -> Result<FrameResult, NoMemory>
        ensures result { (ran : Got ℤ) → Stands (weights_in self.old) ran (stand_of self.old) → IfOk result (λ shown. shown ≡ result_of (weights_in self.old) (then_frame (code_in self.old) ran (frame_with inputs.now steps))) }
        ensures stands { (ran : Got ℤ) → Stands (weights_in self.old) ran (stand_of self.old) → OnOk result (Stands (weights_in self.old) (then_frame (code_in self.old) ran (frame_with inputs.now steps)) (stand_of self.new)) }
        ensures refused { OnErr result (stand_of self.new ≡ None) }
        ensures waits { stand_of self.old ≡ None → IsErr result }
        ensures code { code_in self.new ≡ code_in self.old }
        ensures weights { weights_in self.new ≡ weights_in self.old }
    {
        let Some(ran) = self.ran.take() else {
            return Err(NoMemory);
        };
        match next_run(ran, self.alloc, self.program, self.weights, inputs, steps) {
            Ok(ran) => self.keep(ran),
            Err(_) => Err(NoMemory),
        }
    }

    /// The cells of an object as they stand, with none for an unset one. None exactly where no start was Ok, or memory ran
    /// out since.
    pub fn cells(&self, object: u32) -> Option<&[Option<i64>]>
        ensures cells { MatchOption result (stand_of self.now ≡ None) (λ cells. IsSomeAnd (stand_of self.now) (λ stand. cells.now ≡ slice_index_or stand.held.state.objects object [])) }
    {
        match &self.ran {
            Some(ran) => Some(ran.memory.objects.row(object as usize)),
            None => None,
        }
    }

    /// Shows what was run, and keeps it.
    fn keep(&mut self, ran: Ran) -> Result<FrameResult, NoMemory>
        requires { stand_of self.old ≡ None }
        ensures shown { IfOk result (λ shown. shown ≡ shown_by (ran_seen ran)) }
        ensures kept { OnOk result (stand_of self.new ≡ Some (ran_seen ran)) }
        ensures refused { OnErr result (stand_of self.new ≡ None) }
        ensures code { code_in self.new ≡ code_in self.old }
        ensures weights { weights_in self.new ≡ weights_in self.old }
    {
        let result = shown(self.alloc, &ran)?;
        self.ran = Some(ran);
        Ok(result)
    }
}
