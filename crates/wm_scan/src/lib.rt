//! A plain scan over small boxes, to compare the exact ranges and first failures of the operators with: it takes all
//! arguments in the boxes in lexicographic order and looks at what the operator gives.
#![tactic(auto)]

#[cfg(test)]
mod boundary;
mod fitting;
mod scanning;
#[cfg(test)]
mod tests;

pub use scanning::agrees;
