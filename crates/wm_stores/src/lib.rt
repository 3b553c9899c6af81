//! The single steps of statements without words of their own: stores, the number of a spot as it is read, values that are
//! dropped, and names that are declared.
#![tactic(auto)]

mod directs;
mod drops;
mod fresh;
mod spots;

pub use directs::{Direct, direct_store};
pub use drops::{count_call, drop_value};
pub use fresh::{blank, filled, listed};
pub use spots::{current, finish};
