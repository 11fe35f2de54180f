//! What a step rests on.
ghost use Rattle.std.specs.Prelude.{◌≤◌, length};
ghost use Rattle.fints_script_rows.specs.declared.limits.TheConstants.{MAX_STEPS};

use crate::signers::Signers;
use fints_script_rows::{Fields, NamedRows};
use fints_script_templates::TemplateElements;
use fints_script_templates::weights::FieldWeight;

/// What a step rests on: the fields of the script with their figures, its signers, its seal if any,
/// and all rows of `step`.
#[derive(Clone, Copy)]
pub struct Around<'a, 'r> {
    pub fields: &'a Fields,
    pub figures: &'a [FieldWeight],
    pub signers: &'a Signers<'a>,
    pub seal: Option<&'a TemplateElements>,
    pub rows: &'a NamedRows<'r>,
    pub ghost few: { length rows.now ≤ MAX_STEPS },
}
