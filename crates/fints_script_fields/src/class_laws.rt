//! Laws of the classes: each function's contract is one.
ghost use Rattle.std.specs.Prelude.{◌≡◌, ℕ, List, [], ◌∷◌};
ghost use Rattle.fints_script_fields.specs.AccountLaws.{IsListedSomewhere, ListedAreAdmitted, ListedStandAsItems, TextIsOneAccount};
ghost use Rattle.fints_script_fields.specs.Fields.{field_accounts, field_domain, field_items, field_longest, field_shortest, field_written};
ghost use Rattle.fints_script_fields.specs.Joined.{joined};
ghost use Rattle.fints_syntax_segments.specs.Segment.{item_value};
ghost use Rattle.fints_syntax_segments.specs.declared.item.OwnedItem.{OwnedItem};
ghost use Rattle.fints_script_fields.specs.declared.field.Field.{Field};
ghost use Rattle.fints_script_fields.specs.declared.field.Field.TheVariants as fields;
ghost use Rattle.fints_script_fields.specs.declared.counted.Bin.{Bin};
ghost use Rattle.fints_script_fields.specs.declared.counted.Text.{Text};
ghost use Rattle.fints_script_fields.specs.declared.listing.Account.{Account};
ghost use Rattle.fints_script_fields.specs.declared.listing.OneOf.{OneOf};

/// The value of an account field is the text of its items.
#[tactic(auto, using(crate::specs::ListedLaws::account_found))]
pub fn account_is_its_items()
    ensures { (c : Account) (v : List ℕ) → field_domain (fields.Account c) v
        → joined (field_items (fields.Account c) v) ≡ v }
{}

/// The text of a listed account determines its items: no two listed accounts have the same text.
pub fn text_is_one_account()
    ensures { TextIsOneAccount }
{}

/// A value of an account field is the text of a listed account, and has its items.
pub fn account_values_are_listed()
    ensures { (c : Account) (v : List ℕ) → field_domain (fields.Account c) v
        → IsListedSomewhere (fields.Account c) v }
{}

/// The text of each listed account is a value of the field, and has that account's items.
pub fn listed_accounts_are_values()
    ensures admitted { ListedAreAdmitted }
    ensures items { ListedStandAsItems }
{}

/// A field that lists no accounts is one item with its value.
pub fn others_are_one_item()
    ensures { (f : Field) (v : List ℕ) → field_accounts f ≡ [] → (item : OwnedItem)
        × (field_items f v ≡ item ∷ []) × (item_value item ≡ v) }
{}

/// Where a field admits the empty value, its shortest value is empty.
pub fn empty_is_shortest()
    ensures { (f : Field) → field_domain f [] → field_shortest f ≡ [] }
{}

/// Where the longest value of a field is written as no bytes, each value is empty; and only there the
/// longest value is.
pub fn longest_is_empty_alone()
    ensures alone { (f : Field) (v : List ℕ) → field_domain f v
        → field_written f (field_longest f) ≡ 0 → v ≡ [] }
    ensures empty { (f : Field) → field_longest f ≡ [] → field_written f (field_longest f) ≡ 0 }
{}

/// A class is given by its alphabet and bounds, or by its listed values: no two classes of a kind have the same.
pub fn one_class()
    ensures text { (c d : Text) → c.alphabet ≡ d.alphabet → c.min ≡ d.min → c.max ≡ d.max → c ≡ d }
    ensures bin { (c d : Bin) → c.min ≡ d.min → c.max ≡ d.max → c ≡ d }
    ensures oneof { (c d : OneOf) → c.values ≡ d.values → c ≡ d }
    ensures account { (c d : Account) → c.values ≡ d.values → c ≡ d }
{}
