//! What `verify` and `run` answer, and refusals.
use crate::making::{name, prints};
use fints_cli_json::{JsonRefusal, RunMessage, RunMessages, Verified};
use std::test::Fail;

#[test]
fn a_certificate_that_holds(rt: HostRuntime) -> Result<(), Fail> {
    let alloc = rt.alloc();
    let valid = Verified {
        holds: true,
        why: None,
    };
    assert!(rt; valid.status() == 0);
    assert!(rt;
        prints(
            alloc,
            &valid,
            b"{\"fints\":1,\"command\":\"verify\",\"status\":0,\"verdict\":\"valid\"}\n"
        )?
    );
    let invalid = Verified {
        holds: false,
        why: Some(String::from_str(alloc, "line 3 is of step \"init-tan\"")?),
    };
    assert!(rt; invalid.status() == 1);
    assert!(rt;
        prints(
            alloc,
            &invalid,
            b"{\"fints\":1,\"command\":\"verify\",\"status\":1,\"verdict\":\"invalid\",\"why\":\"line 3 is of step \\\"init-tan\\\"\"}\n"
        )?
    );
    Ok(())
}

#[test]
fn a_run(rt: HostRuntime) -> Result<(), Fail> {
    let alloc = rt.alloc();
    let mut messages = Vec::new(alloc);
    messages.push(RunMessage {
        message: 1,
        step: name(b"one")?,
        size: 55,
        base64: String::from_str(alloc, "SE5I")?,
    })?;
    let run = RunMessages { messages };
    assert!(rt;
        prints(
            alloc,
            &run,
            b"{\"fints\":1,\"command\":\"run\",\"status\":0,\"verdict\":\"sent\",\"messages\":[{\"message\":1,\"step\":\"one\",\"size\":55,\"base64\":\"SE5I\"}]}\n"
        )?
    );
    Ok(())
}

#[test]
fn refusals(rt: HostRuntime) -> Result<(), Fail> {
    let alloc = rt.alloc();
    let hinted = JsonRefusal {
        command: "judge",
        status: 3,
        error: String::from_str(alloc, "message NotAMessage at 0")?,
        hint: Some(String::from_str(alloc, "a\\b\u{1}\u{fc}")?),
    };
    assert!(rt;
        prints(
            alloc,
            &hinted,
            b"{\"fints\":1,\"command\":\"judge\",\"status\":3,\"verdict\":\"refused\",\"error\":\"message NotAMessage at 0\",\"hint\":\"a\\\\b\\u0001\xc3\xbc\"}\n"
        )?
    );
    let memory = JsonRefusal {
        command: "run",
        status: 4,
        error: String::from_str(alloc, "memory")?,
        hint: None,
    };
    assert!(rt;
        prints(
            alloc,
            &memory,
            b"{\"fints\":1,\"command\":\"run\",\"status\":4,\"verdict\":\"refused\",\"error\":\"memory\"}\n"
        )?
    );
    Ok(())
}
