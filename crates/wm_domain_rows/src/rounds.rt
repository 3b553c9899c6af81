// The rounds: two drawn states of one shape each, and every call on the first.

ghost use Rattle.std.specs.Prelude.{◌≡◌, IfOk};
ghost use Rattle.wm_domain_rows.specs.Drawn.{IsSmall};

use crate::cases::{
    assign_form_agrees, assign_near_agrees, assign_range_agrees, clear_agrees, copy_agrees,
    form_agrees, full_agrees, join_agrees, keep_agrees, project_agrees, set_array_agrees,
    within_agrees, write_agrees,
};
use crate::draws::Draws;
use crate::shapes::{arrays, count};
use crate::telling::points_of;
use crate::worked::{order_and_sum_agrees, writes_agree};
use std::alloc::Global;
use wm_domain::{Domain, Shape};
use wm_ops::NoMemory;

/// How many states are drawn, each beside another.
const ROUNDS: u32 = 300;

/// How many cases were compared, and how many of them differ.
#[derive(Clone, Copy)]
pub(crate) struct Tally {
    pub(crate) cases: u32,
    pub(crate) different: u32,
}

impl Tally {
    fn note(&mut self, agrees: bool) {
        self.cases = self.cases.saturating_add(1);
        if !agrees {
            self.different = self.different.saturating_add(1);
        }
    }

    // each call on one drawn state
    fn note_round<D: Domain>(&mut self, alloc: Global, draws: &mut Draws) -> Result<(), NoMemory> {
        let shape = draws.shape(alloc)?;
        self.note(full_agrees::<D>(alloc, &shape)?);
        let state: D = drawn(alloc, draws, &shape)?;
        let other: D = drawn(alloc, draws, &shape)?;
        let all = points_of(alloc, &shape, &state)?;
        let points = all.as_slice();
        let others = points_of(alloc, &shape, &other)?;
        self.note(copy_agrees(alloc, &shape, &state, points)?);
        self.note(clear_agrees(alloc, &shape, &state)?);
        self.note(form_agrees(alloc, draws, &shape, &state, points)?);
        self.note(keep_agrees(alloc, draws, &shape, &state, points)?);
        self.note(assign_form_agrees(alloc, draws, &shape, &state, points)?);
        self.note(assign_near_agrees(alloc, draws, &shape, &state, points)?);
        self.note(assign_range_agrees(alloc, draws, &shape, &state, points)?);
        self.note(set_array_agrees(alloc, draws, &shape, &state, points)?);
        self.note(write_agrees(alloc, draws, &shape, &state, points)?);
        self.note(join_agrees(alloc, &shape, &state, points, &other, others.as_slice())?);
        self.note(within_agrees(alloc, &shape, &state, points, &other)?);
        self.note(project_agrees(alloc, draws, &shape, &state, points)?);
        Ok(())
    }
}

// a state of some forms and cells, or the join of two such ones
fn drawn<D: Domain>(alloc: Global, draws: &mut Draws, shape: &Shape) -> Result<D, NoMemory>
    requires small { IsSmall shape.now }
    ensures shape { IfOk result (λ s. D.shape_of s ≡ shape.now) }
{
    let mut state: D = cut(alloc, draws, shape)?;
    if draws.coin() {
        let other: D = cut(alloc, draws, shape)?;
        state.join_with(&other);
    }
    Ok(state)
}

// a new state with drawn cells and up to 3 drawn forms
fn cut<D: Domain>(alloc: Global, draws: &mut Draws, shape: &Shape) -> Result<D, NoMemory>
    requires small { IsSmall shape.now }
    ensures shape { IfOk result (λ s. D.shape_of s ≡ shape.now) }
{
    let mut state: D = D::full(alloc, shape)?;
    for a in 0..arrays(shape) {
        state.set_array(a, draws.summary());
    }
    for _ in 0..draws.below(4) {
        let form = draws.form(alloc, count(shape))?;
        state.keep(&form, draws.relation());
    }
    Ok(state)
}

/// The worked states, and all rounds.
pub(crate) fn all_rounds<D: Domain>(alloc: Global) -> Result<Tally, NoMemory> {
    let mut draws = Draws::new();
    let mut tally = Tally {
        cases: 0,
        different: 0,
    };
    tally.note(order_and_sum_agrees::<D>(alloc)?);
    tally.note(writes_agree::<D>(alloc)?);
    for _ in 0..ROUNDS {
        tally.note_round::<D>(alloc, &mut draws)?;
    }
    Ok(tally)
}
