//! From a unit and its specification to the program, or to the first of their faults.
#![tactic(auto)]

mod linking;

pub use linking::link;
pub use wm_program::{
    FunctionInfo, InputInfo, Inputs, InstanceInfo, LinkFault, LocalInfo, LoopInfo, ObjectInfo,
    Program, RangeOf, Root, SiteInfo, SiteKind, Spec, What,
};
