//! Cases: the values of a run and the answers that it gets.
ghost use Rattle.std.specs.Prelude.{◌≡◌, ◌<◌, [], ◌∷◌, length, All, SomeIff, IfOk};
ghost use Rattle.fints_script_cases.specs.Answers.{IsAnswer};

use crate::values::Values;
use fints_params::Code;
use fints_syntax::Memory;
use std::alloc::Global;
use std::marker::Model;

/// An answer of the bank: one code or more; a contract sees the list.
#[derive(Drop)]
pub struct Answer {
    codes: Vec<Code>,
}

impl Model for Answer {
    ghost use Rattle.std.specs.Prelude.{ℕ, List};
    ghost use Rattle.fints_script_cases.specs.Answers.{IsAnswer};

    ghost Value = { List ℕ };

    ghost view = { λ a. a.codes.items };

    ghost invariant = { λ a. IsAnswer a.codes.items };
}

impl Answer {
    /// The answer with these codes, if there is one.
    pub fn new(codes: Vec<Code>) -> Option<Answer>
        ensures { SomeIff result (0 < length codes.items) codes.items }
    {
        prove!(codes.iter().all(|code| code.number() < 10_000));
        if codes.is_empty() {
            return None;
        }
        Some(Answer { codes })
    }

    /// The answer of one code.
    pub fn single(alloc: Global, code: Code) -> Result<Answer, Memory>
        ensures { IfOk result (λ a. a ≡ code ∷ []) }
    {
        let mut codes = Vec::new(alloc);
        codes.push(code)?;
        Ok(Answer { codes })
    }

    /// The answer of two codes.
    pub fn pair(alloc: Global, first: Code, second: Code) -> Result<Answer, Memory>
        ensures { IfOk result (λ a. a ≡ first ∷ second ∷ []) }
    {
        let mut codes = Vec::new(alloc);
        codes.push(first)?;
        codes.push(second)?;
        Ok(Answer { codes })
    }

    /// What each answer keeps.
    pub fn keeps(&self)
        ensures { IsAnswer self.now }
    {
        let _ = &self.codes;
    }

    /// The codes, in order.
    pub fn codes(&self) -> &[Code]
        ensures codes { result.now ≡ self.now }
        ensures answer { IsAnswer self.now }
    {
        &self.codes
    }
}

/// A run to be looked at: the values of the script's fields, and the bank's answers in order.
#[derive(Drop)]
pub struct Case {
    pub values: Values,
    pub answers: Vec<Answer>,
}
