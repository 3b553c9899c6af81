//! The text of how far the operands of operators that are not proved have to be shifted so that they no longer fail.
#![tactic(auto)]

mod shifts;
mod sites;
mod text;

pub use text::headroom_text;
