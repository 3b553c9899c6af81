//! What a specification says, what a program is and does, and the numbers that a frame reads.
#![tactic(auto)]

mod faults;
mod inputs;
pub mod laws;
mod program;
mod results;
mod spec;
mod tree;
mod words_in_bodies;
mod words_in_expressions;
mod words_in_program;

pub use faults::{LinkFault, What};
pub use inputs::Inputs;
pub use program::{
    FunctionInfo, InputInfo, InstanceInfo, LocalInfo, LoopInfo, ObjectInfo, Program, Root,
    SiteInfo, SiteKind,
};
pub use results::{Cause, End, Event, FrameResult};
pub use spec::{RangeOf, Spec};
pub use tree::{
    Array, Body, Call, Comparison, Condition, Converted, Declared, Expr, Link, Otherwise, Passed,
    PlainMark, Scalar, Simple, Spot, Statement, View,
};
