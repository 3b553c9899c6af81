//! Worked reports as tests: what is found of small programs, given by hand, and the texts letter by letter.
#![tactic(auto)]

#[cfg(test)]
mod programs;
#[cfg(test)]
mod reports;
