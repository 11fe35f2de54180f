//! Scripts that are read, and the first fault of those that are not.
use fints_params::Code;
use fints_samples::FORK;
use fints_script::{Answer, Branch, FaultKind, Pattern, Place, Script, ScriptFault, Step, Target};
use fints_syntax::Memory;
use std::alloc::Global;
use std::test::*;

// Answers of late codes are followed by the first branch that one of these fires.
fn are_followed(step: &Step) -> bool {
    let (Some(late), Some(early)) = (Code::from_number(9010), Code::from_number(20)) else {
        return false;
    };
    (step.choose(&[late, early]), step.choose(&[late])) == (Target::Step(3), Target::Stop)
}

// The second branch is closed by the first, and any other code takes the default.
fn are_opened(step: &Step) -> bool {
    step.branches().len() == 2
        && (step.opener(1), step.opener(2), step.opener(3))
            == (Code::from_number(0), None, Code::from_number(1000))
}

fn are_branches(branches: &[Branch]) -> bool {
    match branches {
        [done, bad] => {
            (Some(done.on), done.to) == (Pattern::parse(b"0***"), Target::Step(3))
                && done.on.as_bytes() == b"0***".as_slice()
                && (Some(bad.on), bad.to) == (Pattern::parse(b"0030"), Target::Step(2))
        }
        _ => false,
    }
}

fn is_fork(script: &Script) -> bool {
    match script.steps() {
        [one, ..] => are_branches(one.branches()) && are_opened(one) && are_followed(one),
        [] => false,
    }
}

#[test]
fn branches(rt: HostRuntime) -> Result<(), Fail> {
    let script = Script::read(rt.alloc(), FORK)?;
    assert!(rt; is_fork(&script));
    Ok(())
}

// An answer that has a code and fires the branch, where some answer does both.
fn answer_of(
    alloc: Global,
    step: &Step,
    branch: usize,
    code: Code,
) -> Result<Option<Answer>, Memory> {
    if branch == 0 || branch > step.branches().len() + 1 || !step.carries(branch, code) {
        return Ok(None);
    }
    Ok(Some(step.carrying(alloc, branch, code)?))
}

fn are_codes(answer: &Option<Answer>, wanted: &[u16]) -> bool {
    match answer {
        Some(answer) => answer
            .codes()
            .iter()
            .map(|code| code.number())
            .eq(wanted.iter().copied()),
        None => wanted.is_empty(),
    }
}

// The first branch takes each code that begins with 0, the second none, and the default the others;
// beside what opens a branch comes any code that no pattern before it matches.
const CARRIED: [(usize, u16, &[u16]); 5] = [
    (1, 30, &[30]),
    (1, 9010, &[0, 9010]),
    (2, 30, &[]),
    (3, 30, &[]),
    (3, 9010, &[9010]),
];

#[test]
fn carried_codes(rt: HostRuntime) -> Result<(), Fail> {
    let script = Script::read(rt.alloc(), FORK)?;
    let step = script.steps().first().ok_or("step")?;
    for (branch, number, wanted) in CARRIED {
        let code = Code::from_number(number).ok_or("code")?;
        let answer = answer_of(rt.alloc(), step, branch, code)?;
        assert!(rt; are_codes(&answer, wanted));
    }
    Ok(())
}

// A jump back, and a text that is longer than a file may be.
#[test]
fn faults(rt: HostRuntime) -> Result<(), Fail> {
    let back =
        br#"step = [{name = "a", segments = [{kind = "HKEND", version = 1}], default = "a"}]"#;
    let long = vec![in rt.alloc(); b'\n'; 1_048_577]?;
    let rows: [(&[u8], FaultKind, Place); 2] = [
        (back, FaultKind::BackwardJump, Place::Step(1)),
        (long.as_slice(), FaultKind::Limit, Place::Top),
    ];
    for (text, kind, place) in rows {
        let found = Script::read(rt.alloc(), text).err();
        assert_eq!(rt; found, Some(ScriptFault { kind, place }));
    }
    Ok(())
}
