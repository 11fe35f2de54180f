//! Rules that are broken, in the answers of `judge`, `audit`, `check`, `explain` and `certify`.
use crate::making::{as_whole, at_segment, name, note, prints};
use fints_check_findings::Reached;
use fints_cli_json::{
    FindingPlace, JsonAudit, JsonCertificate, JsonFinding, JsonVerdict, MessageSize, RunsReport,
    StepFigures,
};
use fints_rules::{Broken, Cause, Rule};
use fints_script_cases::Case;
use std::alloc::Global;
use std::test::Fail;

const ACCOUNT: Broken = Broken {
    rule: Rule::Account,
    segment: 3,
};

const SIGNATURES: Broken = Broken {
    rule: Rule::Signatures,
    segment: 3,
};

#[test]
fn a_message(rt: HostRuntime) -> Result<(), Fail> {
    let alloc = rt.alloc();
    let permitted = JsonVerdict {
        founds: Vec::new(alloc),
    };
    assert!(rt;
        prints(
            alloc,
            &permitted,
            b"{\"fints\":1,\"command\":\"judge\",\"status\":0,\"verdict\":\"permitted\",\"findings\":[]}\n"
        )?
    );
    let mut founds = Vec::new(alloc);
    let words = "the account of number \"1234567\" is none of the 3 accounts of the capture";
    founds.push(at_segment(
        alloc,
        FindingPlace::Itself,
        ACCOUNT,
        "HKSAL",
        Cause::AccountLocked,
        words,
    )?)?;
    let broken = JsonVerdict { founds };
    assert!(rt; broken.status() == 1);
    assert!(rt;
        prints(
            alloc,
            &broken,
            b"{\"fints\":1,\"command\":\"judge\",\"status\":1,\"verdict\":\"broken\",\"findings\":[{\"rule\":\"P9\",\"name\":\"account\",\"segment\":3,\"kind\":\"HKSAL\",\"version\":7,\"cause\":\"AccountLocked\",\"why\":\"the account of number \\\"1234567\\\" is none of the 3 accounts of the capture\"}]}\n"
        )?
    );
    Ok(())
}

// A cause of another rule isn't named.
#[test]
fn another_cause(rt: HostRuntime) -> Result<(), Fail> {
    let alloc = rt.alloc();
    let mut founds = Vec::new(alloc);
    founds.push(at_segment(
        alloc,
        FindingPlace::Itself,
        SIGNATURES,
        "HKCCS",
        Cause::NoTan,
        "",
    )?)?;
    let broken = JsonVerdict { founds };
    assert!(rt;
        prints(
            alloc,
            &broken,
            b"{\"fints\":1,\"command\":\"judge\",\"status\":1,\"verdict\":\"broken\",\"findings\":[{\"rule\":\"P8\",\"name\":\"signatures\",\"segment\":3,\"kind\":\"HKCCS\",\"version\":7,\"cause\":\"OrderNeedsMore\",\"why\":\"\"}]}\n"
        )?
    );
    Ok(())
}

#[test]
fn a_recording(rt: HostRuntime) -> Result<(), Fail> {
    let alloc = rt.alloc();
    let mut messages = Vec::new(alloc);
    messages.push(MessageSize {
        message: 1,
        size: 209,
    })?;
    messages.push(MessageSize {
        message: 2,
        size: 187,
    })?;
    let mut founds = Vec::new(alloc);
    founds.push(as_whole(
        alloc,
        FindingPlace::Message(2),
        Rule::Release,
        "the order waits for its TAN",
    )?)?;
    let notes = note(alloc, "message 1: signed and not sealed")?;
    let audit = JsonAudit {
        messages,
        founds,
        notes,
    };
    assert!(rt;
        prints(
            alloc,
            &audit,
            b"{\"fints\":1,\"command\":\"audit\",\"status\":1,\"verdict\":\"broken\",\"messages\":[{\"message\":1,\"size\":209},{\"message\":2,\"size\":187}],\"findings\":[{\"message\":2,\"rule\":\"P11\",\"name\":\"release\",\"segment\":0,\"cause\":\"NotReleased\",\"why\":\"the order waits for its TAN\"}],\"notes\":[{\"note\":\"message 1: signed and not sealed\"}]}\n"
        )?
    );
    Ok(())
}

fn steps(alloc: Global) -> Result<Vec<StepFigures>, Fail> {
    let mut steps = Vec::new(alloc);
    let reached = Reached {
        number: 2,
        size: 10526,
    };
    steps.push(StepFigures {
        name: name(b"transfer")?,
        reached: Some(reached),
    })?;
    steps.push(StepFigures {
        name: name(b"end")?,
        reached: None,
    })?;
    Ok(steps)
}

fn explained(alloc: Global) -> Result<JsonFinding, Fail> {
    let place = FindingPlace::Step(name(b"transfer")?);
    let mut found = at_segment(
        alloc,
        place,
        SIGNATURES,
        "HKCCS",
        Cause::AccountNeedsMore,
        "sign twice",
    )?;
    found.case = Some(Case::read(
        alloc,
        b"fints-case 1\nfield dialog 41\nfield pain -\nanswer 3076\nanswer 0030 3920\n",
    )?);
    Ok(found)
}

#[test]
fn a_script(rt: HostRuntime) -> Result<(), Fail> {
    let alloc = rt.alloc();
    let mut founds = Vec::new(alloc);
    founds.push(explained(alloc)?)?;
    let report = RunsReport {
        command: "explain",
        steps: steps(alloc)?,
        founds,
        notes: Vec::new(alloc),
    };
    assert!(rt;
        prints(
            alloc,
            &report,
            b"{\"fints\":1,\"command\":\"explain\",\"status\":1,\"verdict\":\"broken\",\"steps\":[{\"step\":\"transfer\",\"number\":2,\"size\":10526},{\"step\":\"end\"}],\"findings\":[{\"step\":\"transfer\",\"rule\":\"P8\",\"name\":\"signatures\",\"segment\":3,\"kind\":\"HKCCS\",\"version\":7,\"cause\":\"AccountNeedsMore\",\"why\":\"sign twice\",\"case\":{\"fields\":[{\"name\":\"dialog\",\"hex\":\"41\"},{\"name\":\"pain\",\"hex\":\"\"}],\"answers\":[[\"3076\"],[\"0030\",\"3920\"]]}}],\"notes\":[]}\n"
        )?
    );
    Ok(())
}

#[test]
fn a_clean_script(rt: HostRuntime) -> Result<(), Fail> {
    let alloc = rt.alloc();
    let report = RunsReport {
        command: "check",
        steps: Vec::new(alloc),
        founds: Vec::new(alloc),
        notes: Vec::new(alloc),
    };
    assert!(rt; report.status() == 0);
    assert!(rt;
        prints(
            alloc,
            &report,
            b"{\"fints\":1,\"command\":\"check\",\"status\":0,\"verdict\":\"clean\",\"steps\":[],\"findings\":[],\"notes\":[]}\n"
        )?
    );
    let certificate: &[u8] = b"fints-cert 2\nstep init 1 784\n";
    let certified = JsonCertificate {
        certificate: certificate.to_vec(alloc)?,
        notes: Vec::new(alloc),
    };
    assert!(rt;
        prints(
            alloc,
            &certified,
            b"{\"fints\":1,\"command\":\"certify\",\"status\":0,\"verdict\":\"clean\",\"certificate\":\"fints-cert 2\\nstep init 1 784\\n\",\"notes\":[]}\n"
        )?
    );
    Ok(())
}
