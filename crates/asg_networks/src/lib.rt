//! Asn files: networks of sources, other nodes and arcs with costs, as DIMACS has them.
//!
//! Contracts see what an asn file is read as, `reading_of_asn`: a function of what each of its
//! lines says (`line_of`), which spells an instance or refuses the text for its earliest fault. The
//! crate serves the reader of input files.
#![tactic(auto)]

mod arc_lines;
mod asn;
mod asn_lines;
pub mod laws;
mod layouts;
mod links;
mod network;
mod network_tables;
mod node_sets;

pub use asn::read_asn;
