//! The picture of a script's ways, in Graphviz's DOT: a line for each step, and one for each branch.
#![tactic(auto)]

mod drawing;
mod edges;
mod finding;
pub mod laws;
mod nodes;

pub use drawing::{draw_read, draw_script};
