//! Worked rows: tests of what is read besides sources (specifications, weights, samples), of the texts that are printed, of grids
//! and of last uses.
#![tactic(auto)]

#[cfg(test)]
mod grids;
#[cfg(test)]
mod reads;
#[cfg(test)]
mod reports;
#[cfg(test)]
mod samples;
#[cfg(test)]
mod specifications;
#[cfg(test)]
mod uses;
#[cfg(test)]
mod weights;
