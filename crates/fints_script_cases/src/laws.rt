//! Laws of answers and cases: each function's contract is one.
ghost use Rattle.std.specs.Prelude.{◌≡◌, ◌↔◌, ◌<◌, ℕ, List};
ghost use Rattle.fints_script_cases.specs.Answers.{OneCodeFires, OneBranchFires, OpenersLead, CanLead, IsOpenTo};
ghost use Rattle.fints_script_cases.specs.Carrying.{CarriesWhere, CarryingLeads};
ghost use Rattle.fints_script_cases.specs.Cases.{CaseOrBadLine, OneCase, IsFirstBadCaseLine};
ghost use Rattle.fints_script_cases.specs.declared.answers.Branch.{Branch};
ghost use Rattle.fints_script_cases.specs.declared.answers.Target.{Target};

/// One code is enough to fire a branch that some answer fires.
pub fn one_code_fires()
    ensures { (branches : List Branch) (b : ℕ) → OneCodeFires branches b }
{}

/// Every list of codes fires exactly one branch, and leads where that branch does.
pub fn one_branch_fires()
    ensures { (branches : List Branch) (otherwise : Target) (codes : List ℕ)
        → OneBranchFires branches otherwise codes }
{}

/// Some answer leads to a target exactly where some open branch, the default among them, has it.
pub fn open_branches_lead()
    ensures { (branches : List Branch) (otherwise target : Target)
        → CanLead branches otherwise target ↔ IsOpenTo branches otherwise target }
{}

/// An opener by itself leads to its branch's target.
pub fn openers_lead()
    ensures { (branches : List Branch) (otherwise : Target) → OpenersLead branches otherwise }
{}

/// A text denotes one case at most.
pub fn one_case()
    ensures { (text : List ℕ) → OneCase text }
{}

/// A text has one first bad line at most.
pub fn one_bad_line()
    ensures { (text : List ℕ) (n m : ℕ) → IsFirstBadCaseLine text n → IsFirstBadCaseLine text m → n ≡ m }
{}

/// A text is a case, or has a first bad line.
pub fn case_or_bad_line()
    ensures { (text : List ℕ) → CaseOrBadLine text }
{}

/// A branch carries a code exactly where it is open and no pattern before it matches the code.
pub fn carried_where()
    ensures { (branches : List Branch) (b code : ℕ) → code < 10000 → CarriesWhere branches b code }
{}

/// An answer that has a code and fires a branch leads where the branch does.
pub fn carrying_leads()
    ensures { (branches : List Branch) (otherwise : Target) → CarryingLeads branches otherwise }
{}
