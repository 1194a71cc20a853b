//! Tests of the crates below: what no run of the program shows.
#![tactic(auto)]

#[cfg(test)]
mod documents;
#[cfg(test)]
mod edits;
#[cfg(test)]
mod instances;
#[cfg(test)]
mod mapped;
#[cfg(test)]
mod pages;
#[cfg(test)]
mod rect_texts;
#[cfg(test)]
mod shelves;
#[cfg(test)]
mod sinks;
#[cfg(test)]
mod values;
