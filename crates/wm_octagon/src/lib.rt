//! Integer octagons: bounds on the variables, and on the sums and the differences of two variables, that are kept
//! so tight that an integer point attains each.
#![tactic(auto)]

mod assigning;
mod changes;
mod closing;
mod half;
mod layout;
mod octagon;
mod pairs;
mod projecting;

pub use half::Half;
pub use octagon::{Octagon, Side};
