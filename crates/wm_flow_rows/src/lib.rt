//! Expanded graphs of small programs, worked by hand from the rules of the graph and compared line by line.
#![tactic(auto)]

#[cfg(test)]
mod actions;
#[cfg(test)]
mod control;
#[cfg(test)]
mod drawing;
#[cfg(test)]
mod printer;
