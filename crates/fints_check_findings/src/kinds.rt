//! The kinds of a step's segments.
ghost use Rattle.std.specs.Prelude.{◌≡◌, ◌≤◌, length};
ghost use Rattle.std.specs.List.{list_any};
ghost use Rattle.std.specs.Set.{distinct_count};
ghost use Rattle.std.specs.Str.{bytes_eq};
ghost use Rattle.fints_check_findings.specs.Kinds.{AreCounts, demanding_count, has_kind, is_end, is_last_of_kind, is_tan_segment, template_count, template_kinds};

use fints_rules::Permissions;
use fints_rules::kinds::{is_plain_order, is_tan_order};
use fints_script::Template;
use fints_script_rows::limits::MAX_SEGMENTS;
use fints_syntax::Kind;

fn has_kind(template: &Template, kind: Kind) -> bool
    ensures { result ≡ has_kind kind template.now }
{
    template.kind == kind
}

fn some_has_kind(templates: &[Template], kind: Kind) -> bool
    ensures { result ≡ list_any (has_kind kind) templates.now }
{
    templates.iter().any(|template| has_kind(template, kind))
}

// Whether it is an order other than HKTAN, and none of those after it has its kind.
fn is_last_of_kind(template: &Template, behind: &[Template]) -> bool
    ensures { result ≡ is_last_of_kind template.now behind.now }
{
    is_plain_order(template.kind) && !some_has_kind(behind, template.kind)
}

/// How many different kinds of orders other than HKTAN there are.
pub fn count_kinds(templates: &[Template]) -> usize
    ensures { result ≡ distinct_count bytes_eq (template_kinds templates.now) }
{
    let mut kinds = 0;
    for (i, template) in templates.iter().enumerate() {
        if is_last_of_kind(template, &templates[i + 1..]) {
            kinds += 1;
        }
    }
    kinds
}

/// How many have the kind.
pub fn count_kind(templates: &[Template], kind: Kind) -> usize
    ensures { result ≡ template_count kind templates.now }
{
    let mut count = 0;
    for template in templates {
        if has_kind(template, kind) {
            count += 1;
        }
    }
    count
}

/// Beside each segment how many have its kind.
pub fn kind_counts(templates: &[Template]) -> [usize; MAX_SEGMENTS]
    requires { length templates.now ≤ MAX_SEGMENTS }
    ensures { AreCounts templates.now result }
{
    let mut counts = [0; MAX_SEGMENTS];
    for (i, template) in templates.iter().enumerate() {
        counts[i] = count_kind(templates, template.kind);
    }
    counts
}

/// How many are orders other than HKTAN that are listed with J.
pub fn count_demanding(permissions: &Permissions<'_>, templates: &[Template]) -> usize
    ensures { result ≡ demanding_count permissions.now.rows.pins templates.now }
{
    let mut count = 0;
    for template in templates {
        if permissions.is_demanding(template.kind) {
            count += 1;
        }
    }
    count
}

fn is_tan_segment(template: &Template) -> bool
    ensures { result ≡ is_tan_segment template.now }
{
    is_tan_order(template.kind)
}

/// Whether an HKTAN is there.
pub fn some_tan_order(templates: &[Template]) -> bool
    ensures { result ≡ list_any is_tan_segment templates.now }
{
    templates.iter().any(|template| is_tan_segment(template))
}

fn is_end(template: &Template) -> bool
    ensures { result ≡ is_end template.now }
{
    template.kind.as_bytes() == b"HKEND".as_slice()
}

/// Whether an HKEND ends the dialogue.
pub fn some_ends(templates: &[Template]) -> bool
    ensures { result ≡ list_any is_end templates.now }
{
    templates.iter().any(|template| is_end(template))
}
