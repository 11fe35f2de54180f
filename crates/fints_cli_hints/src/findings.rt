//! Which numbers findings have.
use fints_cli_hints_words::places::{HintText, say};
use std::alloc::Global;

/// Where the number of the last finding is.
pub fn finding_hint(alloc: Global, number: u32) -> HintText {
    if number == 0 {
        return say(alloc, "the first finding is number 1");
    }
    say(
        alloc,
        "the last line that check prints says how many findings there are",
    )
}
