//! Small programs by hand, and what is seen while their frames are run, with the texts letter by letter.
#![tactic(auto)]

#[cfg(test)]
mod programs;
#[cfg(test)]
mod seen;
