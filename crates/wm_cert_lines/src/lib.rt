//! The lines of a certificate's text, read one by one, each by its form alone.
#![tactic(auto)]

mod items;
mod line;
mod numbers;
mod words;

pub use items::Item;
pub use line::item_of;
