//! Arrays with too many entries.
use fints_cli_hints_words::places::{HintText, say};
use fints_cli_hints_words::tables::rows_of;
use fints_syntax_texts::document::member;
use std::alloc::Global;
use toml::Table;

/// How many entries the array at a key may have.
#[derive(Clone, Copy)]
pub struct Most {
    pub key: &'static str,
    pub most: usize,
}

/// The first of these keys whose array has too many entries, which are called so.
pub fn too_many(alloc: Global, table: &Table, what: &str, all: &[Most]) -> HintText {
    for Most { key, most } in all {
        let count = rows_of(member(table, key)).len();
        if count > *most {
            return say(
                alloc,
                format_args!(": {key} has {count} {what}, and may have {most}"),
            );
        }
    }
    Ok(None)
}
