//! Laws of messages and rules: each function's contract is one.
ghost use Rattle.std.specs.Prelude.{◌≡◌};
ghost use Rattle.fints_syntax_segments.specs.Values.{values_at};
ghost use Rattle.fints_syntax_segments.specs.declared.item.OwnedSegment.{OwnedSegment};
ghost use Rattle.fints_rules_permissions.specs.Accounts.{account_named};
ghost use Rattle.fints_rules.specs.Facts.{six_items};
ghost use Rattle.fints_rules_permissions.specs.declared.orders.AccountForm.{AccountForm};
ghost use Rattle.fints_rules.specs.Laws.{CausesBreak};

pub use fints_rules_messages::laws::{numbered_bodies, one_message, one_stop};
pub use fints_rules_permissions::laws::one_table;

/// An account is found in the first six items of an element; more change nothing.
#[tactic(auto, using(crate::proofs::AccountLemmas::six_same))]
pub fn six_items_name_an_account()
    ensures { (form : AccountForm) (s : OwnedSegment)
        → account_named form (six_items s) ≡ account_named form (values_at s 2) }
{}

/// Where a cause holds of a segment, the segment breaks the rule that the cause is one of.
pub fn causes_break()
    ensures { CausesBreak }
{}
