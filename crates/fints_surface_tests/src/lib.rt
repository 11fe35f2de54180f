//! The public surface, through the seven crates that a caller lists: calls that no other test makes, each
//! at an input that it is for and with memory enough. What is wanted comes from worked rows, inputs
//! whose answers were known before there was a program; a row is named where a value of it is used. Also that
//! every fault is an error of its own, that outputs keep their bytes where memory runs out, and reports on
//! families of scripts.
#![tactic(auto)]

#[cfg(test)]
mod check;
#[cfg(test)]
mod classes;
#[cfg(test)]
mod cli;
#[cfg(test)]
mod families;
#[cfg(test)]
mod faults;
#[cfg(test)]
mod params;
#[cfg(test)]
mod rules;
#[cfg(test)]
mod samples;
#[cfg(test)]
mod script;
#[cfg(test)]
mod streams;
#[cfg(test)]
mod syntax;
