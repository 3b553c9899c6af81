//! The beginnings and ends of statements in a graph, around the statements that they hold; returns.
#![tactic(auto)]

mod choices;
mod loops;
mod numbers;
mod returns;

pub use choices::{choose, otherwise};
pub use loops::{
    ask, ask_first, ask_last, close_for, close_while, effects_ahead, open_do, open_for, open_while,
    tail_ahead,
};
pub use numbers::behind;
pub use returns::{give, leave};
