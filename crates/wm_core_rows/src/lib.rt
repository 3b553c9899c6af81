//! Worked rows of the lower crates as tests: numbers, operators, intervals and exact ranges, summaries of arrays, words of the
//! command line, the generated codec, and graphs of calls.
#![tactic(auto)]

#[cfg(test)]
mod arrays;
#[cfg(test)]
mod call_graphs;
#[cfg(test)]
mod command_lines;
#[cfg(test)]
mod generated;
#[cfg(test)]
mod headrooms;
#[cfg(test)]
mod intervals;
#[cfg(test)]
mod numbers;
#[cfg(test)]
mod operators;
#[cfg(test)]
mod ranges;
