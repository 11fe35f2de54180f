//! Tests of the checker, of certificates and of hints: what no row of `rows/` can show.
#![tactic(auto)]

#[cfg(test)]
mod asking;
#[cfg(test)]
mod certificates;
#[cfg(test)]
mod hints;
#[cfg(test)]
mod numbers;
#[cfg(test)]
mod objects;
#[cfg(test)]
mod reports;
