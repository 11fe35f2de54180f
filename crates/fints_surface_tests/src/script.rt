//! Steps of plans, patterns and answers.
use crate::samples::{FORK, T};
use fints_params::Code;
use fints_rules::OrderTable;
use fints_script::{Answer, Plan, Script, Step};
use std::alloc::Global;
use std::test::*;

// The second of three steps.
fn are_steps(plan: &Plan<'_>) -> bool {
    plan.step_count() == 3
        && plan.steps().len() == 3
        && plan.step(2).name().as_bytes() == b"bad".as_slice()
}

fn is_planned(alloc: Global, script: &Script) -> Result<bool, Fail> {
    let orders = OrderTable::read(alloc, T)?;
    let plan = script.plan(&orders)?;
    Ok(plan.orders().same(&orders) && are_steps(&plan))
}

#[test]
fn plans(rt: HostRuntime) -> Result<(), Fail> {
    let script = Script::read(rt.alloc(), FORK)?;
    assert!(rt; is_planned(rt.alloc(), &script)?);
    Ok(())
}

// The codes of row `fork`.
fn are_matched(step: &Step) -> Option<bool> {
    let late = Code::parse(b"9010")?;
    let early = Code::parse(b"0020")?;
    match step.branches() {
        [done, bad] => Some(
            (done.on.matches(late), done.on.matches(early)) == (false, true)
                && !bad.on.matches(early),
        ),
        _ => None,
    }
}

#[test]
fn patterns(rt: HostRuntime) -> Result<(), Fail> {
    let script = Script::read(rt.alloc(), FORK)?;
    let step = script.steps().first().ok_or("a step")?;
    assert!(rt; are_matched(step) == Some(true));
    Ok(())
}

// An answer has the codes that it is made of.
fn is_answer(alloc: Global, late: Code, early: Code) -> Result<bool, Fail> {
    let mut codes = Vec::new(alloc);
    codes.push(late)?;
    codes.push(early)?;
    let answer = Answer::new(codes).ok_or("an answer")?;
    Ok(answer.codes() == [late, early].as_slice())
}

#[test]
fn answers(rt: HostRuntime) -> Result<(), Fail> {
    let late = Code::parse(b"9010").ok_or("a code")?;
    let early = Code::parse(b"0020").ok_or("a code")?;
    assert!(rt; is_answer(rt.alloc(), late, early)?);
    Ok(())
}
