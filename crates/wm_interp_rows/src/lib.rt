//! Small programs, worked by hand, and what the machine shows of them.
#![tactic(auto)]

#[cfg(test)]
mod tests;
