//! What a report says of a step, and what fires its branches.
use fints_check::{Reached, Report};
use fints_script::{Plan, Step};

/// Step n of the plan, if it is one; steps count from 1.
pub fn step_at<'a>(plan: &'a Plan<'_>, n: usize) -> Option<&'a Step> {
    if n == 0 || n > plan.step_count() {
        return None;
    }
    Some(plan.step(n))
}

/// The figures of step n, if it is one and some run sends it.
pub fn figures_of(report: &Report<'_>, n: usize) -> Option<Reached> {
    if n == 0 || n > report.plan().step_count() {
        return None;
    }
    report.reached(n)
}

/// Whether the step has the branch, and some answer fires it; branches count from 1, and the default comes last.
pub fn is_open(step: &Step, branch: usize) -> bool {
    branch > 0 && branch - 1 <= step.branches().len() && step.opener(branch).is_some()
}
