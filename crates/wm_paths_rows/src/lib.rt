//! Worst paths of small graphs by hand, with the texts letter by letter, and the texts of shifts of single operators.
#![tactic(auto)]

#[cfg(test)]
mod graphs;
#[cfg(test)]
mod headrooms;
#[cfg(test)]
mod paths;
