//! The object of a report.
use fints_check::Report;
use fints_cli_json::{GivesReasons, Reason, RunsReport, object_line};
use fints_syntax::Memory;
use std::alloc::Global;
use std::test::Fail;

// Each reason is without words.
#[derive(Drop)]
struct Wordless {
    alloc: Global,
}

impl GivesReasons for Wordless {
    fn why(&mut self, _place: usize) -> Result<Reason, Memory> {
        Ok(Reason {
            segment: None,
            cause: None,
            words: String::new(self.alloc),
        })
    }
}

/// Whether it is the object that `check` answers.
pub fn is_object(alloc: Global, report: &Report<'_>, wanted: &[u8]) -> Result<bool, Fail> {
    let reasons = &mut Wordless { alloc };
    let object = RunsReport::of(alloc, "check", report, reasons, Vec::new(alloc))?;
    let text = object_line(alloc, &object)?;
    Ok(text.as_slice() == wanted)
}
