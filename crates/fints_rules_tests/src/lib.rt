//! Tests of the calls up to the judge: what no row of `rows/` can show.
#![tactic(auto)]

#[cfg(test)]
mod captures;
#[cfg(test)]
mod feeding;
#[cfg(test)]
mod hashing;
#[cfg(test)]
mod parts;
#[cfg(test)]
mod permissions;
#[cfg(test)]
mod reading;
#[cfg(test)]
mod segments;
#[cfg(test)]
mod tables;
