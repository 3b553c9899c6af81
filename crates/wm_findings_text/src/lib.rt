//! The texts of what is found of a program: the report, the summary of a generated example, and what was
//! seen beside what is proved.
#![tactic(auto)]

mod demo;
mod observed;
mod places;
mod report;
mod sites;

pub use demo::demo_text;
pub use observed::observe_text;
pub use places::push_place;
pub use report::{is_safe, push_bound_line, report_text};
