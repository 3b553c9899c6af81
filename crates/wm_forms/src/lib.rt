//! Forms in a fixed room, as they are kept while an expression is looked at: their sums and what they are made of.
#![tactic(auto)]

mod kept;
mod sums;
mod terms;

pub use kept::{constant, form_of, is_below, is_side, variable};
pub use sums::{collected, negative_of, one_more};
pub use terms::{has_term, turned_terms};
