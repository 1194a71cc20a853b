//! Tests of the crates from squares to solvers: what no run of the program shows.
#![tactic(auto)]

#[cfg(test)]
mod given_phases;
#[cfg(test)]
mod instances;
#[cfg(test)]
mod laws;
#[cfg(test)]
mod node_children;
#[cfg(test)]
mod perfect_assignments;
#[cfg(test)]
mod replays;
#[cfg(test)]
mod solvers;
#[cfg(test)]
mod wide_cells;
#[cfg(test)]
mod written_phases;
