//! Where the variables and arrays of a node stand, and what a name is in an instance.
#![tactic(auto)]

mod bases;
mod forms;
mod names;
mod numbers;
mod plan;
mod program;

pub use bases::{
    bases_of, counter, first_counter, first_sum, first_temporary, group_size, head_of, input_place,
    other_scalars, other_states, overflow_place, related_scalars, related_states, scalar_place,
    state_place, sums_in, temporary,
};
pub use forms::{has_overflow, has_static, is_named};
pub use names::{
    above_at, array_source, local_seat_at, offset_of, own_source, root_of, scalar_source, seat_at,
};
pub use numbers::{next, plus};
pub use plan::Plan;
pub use program::{cells_in, function_of, length_of};
