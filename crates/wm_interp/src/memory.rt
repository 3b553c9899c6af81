// What a machine holds while it runs.
ghost use Rattle.std.specs.Prelude.{◌≡◌, OnOk, IfOk};
ghost use Rattle.wm_program.specs.Runs.{with_event, is_same, cause_number};
ghost use Rattle.wm_interp.specs.Events.{counted_again};
ghost use Rattle.wm_program.specs.Execution.{take_fill, rest_of};
ghost use Rattle.wm_interp.specs.Held.{Goes, step_on, with_count, failed_on};
ghost use Rattle.wm_interp.specs.Seen.{held_of};
ghost use Rattle.wm_interp.specs.Frames.{begun_on};

use crate::fill::Fill;
use crate::halt::{Halt, Refusal};
use crate::store::Store;
use wm_program::{Cause, End, Event};

/// The cells of all variables, the flag `Overflow`, the rest of the fill list, the steps that are left, the count and the
/// failures.
#[derive(Drop)]
pub(crate) struct Memory {
    pub(crate) objects: Store,
    /// The locals of each instance; of one that was never called there are none.
    pub(crate) locals: Vec<Store>,
    pub(crate) overflow: i64,
    pub(crate) fill: Fill,
    pub(crate) steps: u64,
    pub(crate) count: u128,
    pub(crate) events: Vec<Event>,
}

impl Memory {
    /// An elementary step.
    #[tactic(auto, using(crate::proofs::Steps::step_made))]
    pub(crate) fn step(&mut self) -> Result<(), Halt>
        ensures { Goes result (held_of self.new) (step_on (held_of self.old)) }
    {
        if self.steps == 0 {
            return Err(Halt::Over(End::StepLimit));
        }
        self.steps -= 1;
        Ok(())
    }

    /// Adds a weight to the count.
    pub(crate) fn add_weight(&mut self, weight: u32) -> Result<(), Refusal>
        ensures { OnOk result (held_of self.new ≡ with_count weight (held_of self.old)) }
    {
        match self.count.checked_add(u128::from(weight)) {
            Some(count) => {
                self.count = count;
                Ok(())
            }
            None => Err(Refusal::Unfit),
        }
    }

    /// Notes a failure of a site.
    pub(crate) fn fail(&mut self, site: u32, cause: Cause) -> Result<(), Refusal>
        ensures { OnOk result (held_of self.new ≡ failed_on site cause (held_of self.old)) }
    {
        note_event(&mut self.events, site, cause)
    }

    /// A frame begins: so many elementary steps, and nothing counted.
    pub(crate) fn begin(&mut self, steps: u64)
        ensures { held_of self.new ≡ begun_on steps (held_of self.old) }
    {
        self.steps = steps;
        self.count = 0;
        self.events.clear();
    }
}

/// One more failure, with those of its site and cause.
#[tactic(auto, using(crate::proofs::Events::passed, crate::proofs::Events::found, crate::proofs::Events::none_found))]
fn note_event(events: &mut Vec<Event>, site: u32, cause: Cause) -> Result<(), Refusal>
    ensures { OnOk result (events.new.items ≡ with_event site cause events.old.items) }
{
    for i in 0..events.len() {
        let event = events[i];
        if is_same(site, cause, event) {
            events[i] = again(event)?;
            return Ok(());
        }
    }
    let event = Event {
        site,
        cause,
        times: 1,
    };
    match events.push(event) {
        Ok(()) => Ok(()),
        Err(_) => Err(Refusal::NoMemory),
    }
}

/// Whether it is an event of this site and cause.
fn is_same(site: u32, cause: Cause, event: Event) -> bool
    ensures { result ≡ is_same site cause event }
{
    event.site == site && cause_number(event.cause) == cause_number(cause)
}

fn cause_number(cause: Cause) -> u8
    ensures { result ≡ cause_number cause }
{
    match cause {
        Cause::Saturates => 0,
        Cause::Domain => 1,
        Cause::Index => 2,
        Cause::Arithmetic => 3,
        Cause::Narrowing => 4,
        Cause::Unset => 5,
    }
}

/// The event, once more.
fn again(event: Event) -> Result<Event, Refusal>
    ensures { IfOk result (λ more. more ≡ counted_again event) }
{
    match event.times.checked_add(1) {
        Some(times) => Ok(Event { times, ..event }),
        None => Err(Refusal::Unfit),
    }
}
