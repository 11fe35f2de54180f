//! The calls that the commands make.
use fints_cli::{
    Asked, Command, Fault, Wanted, built_in, draw_script, judge_message, read_words, run_case,
    show, show_message, tell_script, verify_script,
};
use std::alloc::Global;
use std::test::Fail;

const CASE: &[u8] = b"fints-case 1\nfield dialog 44\n";

const MESSAGE: &[u8] = b"HNHBK:1:3+000000000055+300+0+1'HKEND:2:1+0'HNHBS:3:1+1'";

const SENT: &[u8] =
    b"message 1 step end size 55\nHNHBK:1:3+000000000055+300+0+1'HKEND:2:1+0'HNHBS:3:1+1'\n";

#[test]
fn shown(rt: HostRuntime) -> Result<(), Fail> {
    let text = show(rt.alloc(), built_in::CAPTURE)?;
    assert!(rt;
        text.as_slice()
            == b"bank 280 10020030 kinds 1 kilobytes 0 protocols 300\npin HKSAL N\npin HKKAZ N\npin HKCCS J\nusage 0\nskipped 0\n".as_slice()
    );
    Ok(())
}

// With a PIN and a TAN, sealed, and a byte that would break a line.
const SEALED: &[u8] =
    b"HNHBK:1:3+000000000122+300+0+1'HNVSK:998:3+\n'HNVSD:999:1+@48@HNSHK:2:4'HKEND:3:1+0'HNSHA:4:2+1++12345:123456''HNHBS:5:1+1'";

const SHOWN: &[u8] = b"HNHBK:1:3+000000000122+300+0+1'
HNVSK:998:3+?<0a>'
HNVSD:999:1+'
  HNSHK:2:4'
  HKEND:3:1+0'
  HNSHA:4:2+1++***:***'
HNHBS:5:1+1'
";

#[test]
fn masked(rt: HostRuntime) -> Result<(), Fail> {
    let text = show_message(rt.alloc(), SEALED)?;
    assert!(rt; text.as_slice() == SHOWN);
    Ok(())
}

#[test]
fn judged(rt: HostRuntime) -> Result<(), Fail> {
    let reply = judge_message(rt.alloc(), built_in::CAPTURE, built_in::ORDERS, MESSAGE)?;
    assert!(rt; (reply.status, reply.text.as_slice()) == (0, b"permitted\n".as_slice()));
    Ok(())
}

// What is printed of the run of the case: all messages, or the one of a number.
fn run_of(alloc: Global, number: Option<u32>) -> Result<Vec<u8>, Fault> {
    run_case(alloc, built_in::ORDERS, built_in::SCRIPT, CASE, number)
}

#[test]
fn sent(rt: HostRuntime) -> Result<(), Fail> {
    for (number, wanted) in [(None, SENT), (Some(1), MESSAGE)] {
        let text = run_of(rt.alloc(), number)?;
        assert!(rt; text.as_slice() == wanted);
    }
    for number in [0, 2, u32::MAX] {
        let fault = run_of(rt.alloc(), Some(number)).err();
        assert!(rt; fault == Some(Fault::NoMessage { number }));
    }
    Ok(())
}

const REPORT: &[u8] = b"step end number 1 size 55\nclean\n";

const CERTIFICATE: &[u8] = b"fints-cert 2\nstep end 1 55\n";

#[test]
fn reported(rt: HostRuntime) -> Result<(), Fail> {
    for (wanted, text) in [(Wanted::Report, REPORT), (Wanted::Certificate, CERTIFICATE)] {
        let (capture, orders) = (built_in::CAPTURE, built_in::ORDERS);
        let reply = tell_script(rt.alloc(), capture, orders, built_in::SCRIPT, wanted)?;
        assert!(rt; (reply.status, reply.text.as_slice()) == (0, text));
    }
    Ok(())
}

#[test]
fn verified(rt: HostRuntime) -> Result<(), Fail> {
    let rows: [(&[u8], u8, &[u8]); 2] = [
        (CERTIFICATE, 0, b"valid\n"),
        (b"fints-cert 2\nstep end 1 54\n", 1, b"invalid\n"),
    ];
    for (certificate, status, text) in rows {
        let (capture, orders) = (built_in::CAPTURE, built_in::ORDERS);
        let reply = verify_script(rt.alloc(), capture, orders, built_in::SCRIPT, certificate)?;
        assert!(rt; (reply.status, reply.text.as_slice()) == (status, text));
    }
    Ok(())
}

const PICTURE: &[u8] = b"digraph fints {
  node [shape=box];
  \"stop\" [shape=doublecircle];
  \"end\" [label=\"end\\nHKEND:1\\nnumber 1 size 55\"];
  \"end\" -> \"stop\" [label=\"default (0000)\", style=dashed];
}
";

#[test]
fn drawn(rt: HostRuntime) -> Result<(), Fail> {
    let text = draw_script(rt.alloc(), built_in::SCRIPT)?;
    assert!(rt; text.as_slice() == PICTURE);
    Ok(())
}

// Whether the words ask for the number of a command.
fn asks_for(alloc: Global, words: &[&str], command: Command, number: Option<u32>) -> bool {
    match read_words(alloc, words) {
        Asked::Run(request) => (request.command, request.number) == (command, number),
        _ => false,
    }
}

#[test]
fn words(rt: HostRuntime) {
    let words = [
        "explain",
        "--params",
        "p",
        "--orders",
        "o",
        "--script",
        "s",
        "--finding",
        "2",
    ];
    assert!(rt; asks_for(rt.alloc(), &words, Command::Explain, Some(2)));
    assert!(rt; asks_for(rt.alloc(), &[], Command::BuiltIn, None));
}
