//! All messages of a file.
ghost use Rattle.std.specs.Prelude.{◌≡◌, IfOk};
ghost use Rattle.fints_rules_logs.specs.Scan.{IsScan};

use crate::find::{Find, Found, Unfit, head_text};
use crate::standing::{AtFront, read_front};
use fints_syntax::Memory;
use std::alloc::Global;

/// The messages of a file and the begins without one, leftmost first. What a message holds is not looked at
/// again, and the first byte of a begin without a message is passed over.
pub fn scan(alloc: Global, file: &[u8]) -> Result<Vec<Find<'_>>, Memory>
    ensures { IfOk result (λ finds. IsScan file.now finds.items) }
{
    let mut finds = Vec::new(alloc);
    let mut start = 0;
    while start < file.len() {
        let (_, text) = file.split_at(start);
        match read_front(alloc, text)? {
            AtFront::Nothing => start += 1,
            AtFront::Misfit => {
                finds.push(Find::Misfit(Unfit::new(start, head_text(text))))?;
                start += 1;
            }
            AtFront::Message(front) => {
                let len = front.len;
                let found = Found::new(start, front.form, front.stored);
                finds.push(Find::Message(found))?;
                start += len;
            }
        }
    }
    Ok(finds)
}
