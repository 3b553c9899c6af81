//! Octagons of two and three variables, worked by hand.
#![tactic(auto)]

#[cfg(test)]
mod tests;
