//! Tests of logs, recorded dialogues, the parts of drafts, and verdicts on several messages: what no row of `rows/` can
//! show.
#![tactic(auto)]

#[cfg(test)]
mod accounts;
#[cfg(test)]
mod alike;
#[cfg(test)]
mod dialogues;
#[cfg(test)]
mod draft_texts;
#[cfg(test)]
mod logs;
#[cfg(test)]
mod offers;
#[cfg(test)]
mod verdicts;
