//! The search for findings: of each reached step each rule, at each place.
ghost use Rattle.std.specs.Prelude.{◌≡◌, ◌↔◌, ◌<◌, ◌≤◌, ◌⊎◌, ◌+◌, Some, length, IsTrue, OnOk};
ghost use Rattle.fints_rules.specs.Rules.{rule_number};
ghost use Rattle.fints_check_findings.specs.AtStep.{BreaksAsSent};
ghost use Rattle.fints_check_findings.specs.Findings.{IsReal};
ghost use Rattle.fints_check_findings.specs.Laws.{release_of};
ghost use Rattle.fints_check_findings.specs.Searching.{AreFiguresAt, AreFoundTo, IsGreatestAt};

use crate::at_step::AtStep;
use crate::finding::{Finding, Reached};
use fints_rules::{Rule, figures_break};
use fints_syntax::Memory;
use std::marker::Model;

/// A step that runs send, with its greatest figures, and whether it leaves an order unreleased.
#[derive(Drop)]
pub struct SentStep<'a> {
    at: AtStep<'a>,
    figures: Reached,
    unreleased: bool,
}

impl<'a> Model for SentStep<'a> {
    ghost use Rattle.fints_check_findings.specs.AtStep.{IsSentStep, SentStepValue};

    ghost Value = { SentStepValue };

    ghost view = { λ s. record { at = s.at; figures = s.figures; unreleased = s.unreleased } };

    ghost invariant = { λ s. IsSentStep s.at s.figures s.unreleased };
}

fn finding_at(n: usize, rule: Rule, place: usize) -> Finding
    requires step { n < 65536 }
    requires place { place < 65536 }
    ensures { result ≡ record { step = n; rule = rule; segment = place } }
{
    Finding {
        step: n as u16,
        rule,
        segment: place as u16,
    }
}

impl<'a> SentStep<'a> {
    /// The step with these figures, where it is known whether it leaves an order unreleased.
    pub fn new(at: AtStep<'a>, figures: Reached, unreleased: bool) -> SentStep<'a>
        requires figures { AreFiguresAt at.script at.step figures }
        requires greatest { IsGreatestAt at.script.steps at.n figures.number }
        requires unreleased { IsTrue unreleased ↔ IsReal at.granted at.script (release_of at.n) }
        ensures { result.at ≡ at.entry }
    {
        SentStep {
            at,
            figures,
            unreleased,
        }
    }

    // Whether messages of its figures break the rule, or it is P11 and an order is left unreleased.
    fn breaks_whole(&self, rule: Rule) -> bool
        ensures { IsTrue result ↔ BreaksAsSent self.now rule }
    {
        figures_break(self.at.permissions().bank(), self.figures.figures(), rule)
            || (self.unreleased && matches!(rule, Rule::Release))
    }

    fn breaks_at_zero(&self, rule: Rule, place: usize) -> bool
        ensures { IsTrue result ↔ ((place ≡ 0) × BreaksAsSent self.now rule) }
    {
        place == 0 && self.breaks_whole(rule)
    }

    // Whether the rule at the place is a finding of the step.
    fn is_real(&self, rule: Rule, place: usize) -> bool
        ensures { IsTrue result ↔ IsReal self.now.at.granted self.now.at.script
            (record { step = self.now.at.n; rule = rule; segment = place }) }
    {
        let held = self.at.breaks(rule, place);
        self.breaks_at_zero(rule, place) || held
    }

    // Adds the findings of a rule.
    fn search_places(&self, rule: Rule, findings: &mut Vec<Finding>) -> Result<(), Memory>
        requires { AreFoundTo self.now.at.granted self.now.at.script self.now.at.n (rule_number rule) 0
            findings.old.items }
        ensures { OnOk result (AreFoundTo self.now.at.granted self.now.at.script self.now.at.n
            (rule_number rule + 1) 0 findings.new.items) }
    {
        for place in 0..self.at.place_count() {
            if self.is_real(rule, place) {
                findings.push(finding_at(self.at.number(), rule, place))?;
            }
        }
        Ok(())
    }

    /// Adds the findings of the step.
    pub fn search(&self, findings: &mut Vec<Finding>) -> Result<(), Memory>
        requires { AreFoundTo self.now.at.granted self.now.at.script self.now.at.n 1 0 findings.old.items }
        ensures { OnOk result (
            AreFoundTo self.now.at.granted self.now.at.script (self.now.at.n + 1) 1 0 findings.new.items) }
    {
        for rule in Rule::ALL {
            self.search_places(rule, findings)?;
        }
        Ok(())
    }
}
