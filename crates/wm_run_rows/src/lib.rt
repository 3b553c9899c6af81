//! Calls of each command over memory: reads, writes and puts that fail in turn, refusals in their order, certificates as they are written,
//! cut and changed, and boxes beside groups. Whole texts stand in the tables of tests/.
#![tactic(auto)]

#[cfg(test)]
mod boxes;
#[cfg(test)]
mod calls;
#[cfg(test)]
mod certificates;
#[cfg(test)]
mod programs;
#[cfg(test)]
mod refusals;
#[cfg(test)]
mod replays;
