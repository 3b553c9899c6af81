//! What an edge of the graph makes of a state: the definitions, by the points that each rule allows.
#![tactic(auto)]
