//! Tests of the objects that commands answer. The texts that they must have are written by hand.
#![tactic(auto)]

#[cfg(test)]
mod answers;
#[cfg(test)]
mod findings;
#[cfg(test)]
mod making;
#[cfg(test)]
mod placing;
#[cfg(test)]
mod shows;
