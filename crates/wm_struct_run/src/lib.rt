//! What a unit with structs does, told of its own trees: no struct is taken apart, and a member is looked up in its object. The
//! definitions stand in `specs/`; there is no code.
#![tactic(auto)]
