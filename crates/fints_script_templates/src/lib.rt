//! The segments that a script sends: elements, templates, signers and the seal, and what they weigh.
#![tactic(auto)]

mod elements;
mod item_text;
pub mod segments;
pub mod signers;
mod template;
pub mod weights;

pub use fints_syntax_segments::Memory;
pub use template::{Signer, Template, TemplateElements, TemplateItem};
