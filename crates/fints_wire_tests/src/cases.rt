//! The texts of cases.
use crate::asking::are_values;
use crate::samples::{Pairs, name, values};
use fints_params::Code;
use fints_script::{Answer, Case, CaseFault};
use std::alloc::Global;
use std::test::*;

const VALUES: &[u8] =
    b"fints-case 1\nfield dialog 41\nfield pin 3030303030\nfield tan -\nfield acct 4445323232\n";

const ANSWER: &[u8] = b"fints-case 1\nfield dialog 44\nanswer 0020\n";

#[test]
fn values_of_cases(rt: HostRuntime) -> Result<(), Fail> {
    let acct = name(b"acct")?;
    let case = Case::read(rt.alloc(), VALUES)?;
    let pairs: Pairs<'_> = &[
        (b"dialog", b"A"),
        (b"pin", b"00000"),
        (b"tan", b""),
        (b"acct", b"DE222"),
    ];
    assert!(rt; are_values(&case.values, pairs) && case.answers.is_empty());
    assert!(rt; case.values.get(acct) == Some(b"DE222".as_slice()));
    Ok(())
}

// One answer, of this code only.
fn are_single(answers: &[Answer], number: u16) -> bool {
    match answers {
        [answer] => match answer.codes() {
            [code] => code.number() == number,
            _ => false,
        },
        _ => false,
    }
}

#[test]
fn answers_of_cases(rt: HostRuntime) -> Result<(), Fail> {
    let case = Case::read(rt.alloc(), ANSWER)?;
    assert!(rt; are_single(case.answers.as_slice(), 20));
    Ok(())
}

#[test]
fn answers(rt: HostRuntime) -> Result<(), Fail> {
    let code = Code::from_number(30).ok_or("code")?;
    let answer = Answer::single(rt.alloc(), code)?;
    assert!(rt; are_single(&[answer], 30) && Answer::new(Vec::new(rt.alloc())).is_none());
    Ok(())
}

#[test]
fn two_codes(rt: HostRuntime) -> Result<(), Fail> {
    let (first, second) = (Code::from_number(20), Code::from_number(3010));
    let answer = Answer::pair(rt.alloc(), first.ok_or("code")?, second.ok_or("code")?)?;
    assert!(rt; answer.codes().len() == 2);
    assert!(rt; answer.codes().first().map(|code| code.number()) == Some(20));
    assert!(rt; answer.codes().last().map(|code| code.number()) == Some(3010));
    Ok(())
}

#[test]
fn written(rt: HostRuntime) -> Result<(), Fail> {
    for text in [VALUES, ANSWER] {
        let case = Case::read(rt.alloc(), text)?;
        let again = case.write(rt.alloc())?;
        assert!(rt; again.as_slice() == text);
    }
    Ok(())
}

// A case with one value of this size, as it is written.
fn long_text(alloc: Global, bytes: usize) -> Result<Vec<u8>, Fail> {
    let value = vec![in alloc; b'0'; bytes]?;
    let case = Case {
        values: values(alloc, &[(b"dialog", value.as_slice())])?,
        answers: Vec::new(alloc),
    };
    Ok(case.write(alloc)?)
}

// A case with one long value is read up to 1,048,576 bytes, and can be longer when it is written.
#[test]
fn longest_case(rt: HostRuntime) -> Result<(), Fail> {
    let rows = [
        (524_274, 1_048_575, None),
        (524_275, 1_048_577, Some(CaseFault::Bad { line: 2 })),
    ];
    for (bytes, len, fault) in rows {
        let text = long_text(rt.alloc(), bytes)?;
        let found = Case::read(rt.alloc(), text.as_slice()).err();
        assert_eq!(rt; (text.len(), found), (len, fault));
    }
    Ok(())
}
