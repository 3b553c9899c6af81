//! Parameters whose addresses are taken, drawn: each is written from its temporary into its array, the last one first.
#![tactic(auto)]

mod addressed;

pub use addressed::store_all;
