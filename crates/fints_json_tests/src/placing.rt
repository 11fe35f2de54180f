//! Findings that get their places and reasons.
use crate::making::prints;
use fints_cli_json::{GivesReasons, JsonAudit, JsonVerdict, Reason};
use fints_rules::{Broken, Rule};
use fints_rules_dialogues::{Audited, RecordedMessage};
use fints_syntax::Memory;
use std::alloc::Global;
use std::test::Fail;

// Each reason says the place that it was asked for.
#[derive(Drop)]
struct Counted {
    alloc: Global,
}

impl GivesReasons for Counted {
    fn why(&mut self, place: usize) -> Result<Reason, Memory> {
        let mut words = String::new(self.alloc);
        for _ in 0..place {
            words.push_str("x")?;
        }
        Ok(Reason {
            segment: None,
            cause: None,
            words,
        })
    }
}

fn broken(alloc: Global, rules: &[Rule]) -> Result<Vec<Broken>, Fail> {
    let mut broken = Vec::new(alloc);
    for rule in rules {
        broken.push(Broken {
            rule: *rule,
            segment: 0,
        })?;
    }
    Ok(broken)
}

#[test]
fn one_message(rt: HostRuntime) -> Result<(), Fail> {
    let alloc = rt.alloc();
    let found = broken(alloc, &[Rule::Protocol, Rule::Number])?;
    let verdict = JsonVerdict::of(alloc, found.as_slice(), &mut Counted { alloc })?;
    assert!(rt;
        prints(
            alloc,
            &verdict,
            b"{\"fints\":1,\"command\":\"judge\",\"status\":1,\"verdict\":\"broken\",\"findings\":[{\"rule\":\"P1\",\"name\":\"protocol\",\"segment\":0,\"cause\":\"ProtocolUnlisted\",\"why\":\"\"},{\"rule\":\"P2\",\"name\":\"number\",\"segment\":0,\"cause\":\"NumberTooHigh\",\"why\":\"x\"}]}\n"
        )?
    );
    Ok(())
}

fn three_messages(alloc: Global) -> Result<Vec<Audited<'static>>, Fail> {
    let mut audited = Vec::new(alloc);
    for rules in [[].as_slice(), &[Rule::Size], &[Rule::Kinds]] {
        audited.push(Audited {
            sent: RecordedMessage {
                start: 0,
                bytes: b"12345",
            },
            begins: false,
            broken: broken(alloc, rules)?,
        })?;
    }
    Ok(audited)
}

#[test]
fn several_messages(rt: HostRuntime) -> Result<(), Fail> {
    let alloc = rt.alloc();
    let audited = three_messages(alloc)?;
    let reasons = &mut Counted { alloc };
    let audit = JsonAudit::of(alloc, audited.as_slice(), reasons, Vec::new(alloc))?;
    assert!(rt;
        prints(
            alloc,
            &audit,
            b"{\"fints\":1,\"command\":\"audit\",\"status\":1,\"verdict\":\"broken\",\"messages\":[{\"message\":1,\"size\":5},{\"message\":2,\"size\":5},{\"message\":3,\"size\":5}],\"findings\":[{\"message\":2,\"rule\":\"P3\",\"name\":\"size\",\"segment\":0,\"cause\":\"TooLong\",\"why\":\"\"},{\"message\":3,\"rule\":\"P4\",\"name\":\"kinds\",\"segment\":0,\"cause\":\"TooManyKinds\",\"why\":\"x\"}],\"notes\":[]}\n"
        )?
    );
    Ok(())
}
