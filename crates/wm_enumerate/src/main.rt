//! Compares every call of the octagons with plain enumeration of integer points, on small octagons of two to four
//! variables from a fixed generator. It prints how many cases there were, and how many of them differ.
#![tactic(auto)]

ghost use Rattle.std.specs.Prelude.{◌<◌, ◌≤◌};

mod comparing;
mod draws;
mod points;
mod sample;

use draws::Draws;
use sample::{Sample, new_agrees};
use std::alloc::Global;
use std::io;
use wm_ops::NoMemory;

/// How many octagons are drawn, each beside another.
const ROUNDS: u32 = 400;

/// How many cases were compared, and how many of them differ.
#[derive(Clone, Copy)]
struct Tally {
    cases: u32,
    different: u32,
}

impl Tally {
    fn note(&mut self, agrees: bool) {
        self.cases = self.cases.saturating_add(1);
        if !agrees {
            self.different = self.different.saturating_add(1);
        }
    }

    // Each call on one drawn octagon.
    fn note_round(&mut self, alloc: Global, draws: &mut Draws) -> Result<(), NoMemory> {
        let variables = 2 + draws.below(3) as usize;
        self.note(new_agrees(alloc, draws, variables)?);
        let sample = Sample::new(alloc, draws, variables)?;
        let other = Sample::new(alloc, draws, variables)?;
        self.note(sample.bound_agrees(alloc, draws)?);
        self.note(sample.range_agrees(alloc, draws)?);
        self.note(sample.forget_agrees(alloc, draws)?);
        self.note(sample.shift_agrees(alloc, draws)?);
        self.note(sample.difference_agrees(alloc, draws)?);
        self.note(sample.join_agrees(alloc, &other)?);
        self.note(sample.within_agrees(&other));
        self.note(sample.copy_agrees(alloc)?);
        self.note(sample.projection_agrees(alloc, draws)?);
        Ok(())
    }
}

fn all_rounds(alloc: Global) -> Result<Tally, NoMemory> {
    let mut draws = Draws::new();
    let mut tally = Tally {
        cases: 0,
        different: 0,
    };
    for _ in 0..ROUNDS {
        tally.note_round(alloc, &mut draws)?;
    }
    Ok(tally)
}

fn main(rt: HostRuntime) -> io::Result<()> {
    match all_rounds(rt.alloc()) {
        Ok(Tally { cases, different }) => println!(rt; "cases {cases} different {different}"),
        Err(_) => Err(io::Error::from(io::ErrorKind::OutOfMemory)),
    }
}
