//! Tests of the crates that solve, rank, edit and judge: of what no run of the program shows.
#![tactic(auto)]

#[cfg(test)]
mod guesses;
#[cfg(test)]
mod instances;
#[cfg(test)]
mod outcomes;
#[cfg(test)]
mod rankings;
#[cfg(test)]
mod sessions;
#[cfg(test)]
mod sums;
