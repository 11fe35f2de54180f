//! Laws of recorded dialogues: each function's contract is one.
ghost use Rattle.fints_rules_dialogues.specs.Laws.{NoAuditAtFault, NoDialogueAtFault, OneDialogue, OneDialogueFault};

/// A file is one dialogue at most, and has one first refusal at most, and never both.
pub fn one_dialogue()
    ensures dialogue { OneDialogue }
    ensures refusal { OneDialogueFault }
    ensures not_both { NoDialogueAtFault }
{}

/// A file that is a recording is never audited by the parameters in its own answers and refused for them.
pub fn no_audit_at_fault()
    ensures { NoAuditAtFault }
{}
