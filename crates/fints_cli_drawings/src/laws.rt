//! The law of the codes that a picture shows of branches: the function's contract is it.
ghost use Rattle.std.specs.Prelude.{ℕ, ◌+◌, ◌≤◌, List, length};
ghost use Rattle.fints_script_cases.specs.declared.answers.Branch.{Branch};
ghost use Rattle.fints_cli_drawings.specs.Laws.{OpenersAreLeast};

/// A branch is drawn grey exactly where no answer fires it; else it has the least code that matches it
/// and no earlier branch.
pub fn openers_are_least()
    ensures { (branches : List Branch) (b : ℕ) → 1 ≤ b → b ≤ length branches + 1
        → OpenersAreLeast branches b }
{}
