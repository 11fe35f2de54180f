//! Answers as objects of JSON. Their texts are written by `json::Writer`.
#![tactic(auto)]

mod audits;
mod case;
mod findings;
mod found;
mod latin;
pub mod laws;
mod note;
mod objects;
mod placed;
mod refusals;
mod reported;
mod reports;
mod rows;
mod runs;
mod shows;
mod values;
mod verdicts;
mod words;
mod writing;

pub use audits::{JsonAudit, MessageSize};
pub use found::{FindingPlace, JsonFinding, PlacedFinding, Reason, SegmentName};
pub use note::JsonNote;
pub use objects::{Object, object_line};
pub use placed::GivesReasons;
pub use refusals::JsonRefusal;
pub use reports::{JsonCertificate, RunsReport, StepFigures, Verified};
pub use runs::{RunMessage, RunMessages};
pub use shows::{ShownMessage, ShownParams, ShownSegment};
pub use verdicts::JsonVerdict;
