//! Messages in any file.
use fints_rules_logs::{Form, Log, LogFault, Passed};
use std::alloc::Global;
use std::test::Fail;

// A message of 55 bytes.
const MESSAGE: &[u8] = b"HNHBK:1:3+000000000055+300+0+1'HKEND:2:1+0'HNHBS:3:1+1'";

// The same in base64 (RFC 4648), in two lines as JSON writes them, with a plus and a slash escaped.
const IN_BASE64: &[u8] =
    b"{\"text\": \"SE5IQks6MTozKzAwMDAwMDAwMDA1NSszMDArMCsxJ0hL\\nRU5EOjI6MSswJ0hOSEJTOjM6MSsxJw==\"}";

// A message with an a umlaut in its order: 56 bytes, and 57 in UTF-8.
const IN_UTF8: &[u8] = b"log: HNHBK:1:3+000000000056+300+0+1'HKEND:2:1+0\xc3\xa4'HNHBS:3:1+1'\n";

// The same, and an answer whose size is one too much.
const LOST: &[u8] =
    b"HNHBK:1:3+000000000055+300+0+1'HKEND:2:1+0'HNHBS:3:1+1'HNHBK:1:3+000000000058+300+7+1+7:1'HIRMG:2:2+0010::OK'";

// A message, and what a logger made of it: it says a size that isn't its own.
const CHANGED: &[u8] =
    b"HNHBK:1:3+000000000055+300+0+1'HKEND:2:1+0'HNHBS:3:1+1'HNHBK:1:3+000000000099+300+0+1'HKEND:2:1+0'HNHBS:3:1+1'";

// A message, unsealed and then sealed.
const TWINS: &[u8] =
    b"HNHBK:1:3+000000000055+300+0+1'HKEND:2:1+0'HNHBS:3:1+1'HNHBK:1:3+000000000090+300+0+1'HNVSK:998:3+PIN:1'HNVSD:999:1+@12@HKEND:2:1+0''HNHBS:3:1+1'";

// Whether the log has one message of this form, at this offset, with `len` bytes.
fn has_one(log: &Log<'_>, form: Form, start: usize, len: usize) -> bool {
    match log.messages() {
        [found] => { found.form() == form && found.start() == start && found.bytes().len() == len }
        _ => false,
    }
}

fn passed_as(twins: usize, changed: usize) -> Passed {
    Passed {
        copies: 0,
        twins,
        changed,
    }
}

#[test]
fn raw(rt: HostRuntime) -> Result<(), Fail> {
    let log = Log::of(rt.alloc(), MESSAGE)?;
    assert!(rt; has_one(&log, Form::Raw, 0, 55));
    assert_eq!(rt; log.passed(), passed_as(0, 0));
    Ok(())
}

#[test]
fn base64(rt: HostRuntime) -> Result<(), Fail> {
    let log = Log::of(rt.alloc(), IN_BASE64)?;
    assert!(rt; has_one(&log, Form::Base64, 10, 55));
    for found in log.messages() {
        assert_eq!(rt; found.bytes(), MESSAGE);
    }
    Ok(())
}

#[test]
fn utf8(rt: HostRuntime) -> Result<(), Fail> {
    let log = Log::of(rt.alloc(), IN_UTF8)?;
    assert!(rt; has_one(&log, Form::Utf8, 5, 56));
    Ok(())
}

#[test]
fn lost(rt: HostRuntime) {
    let fault = Log::of(rt.alloc(), LOST).err();
    assert_eq!(rt; fault, Some(LogFault::NotAMessage { offset: 55 }));
}

#[test]
fn none(rt: HostRuntime) {
    let fault = Log::of(rt.alloc(), b"HNHBK:1:4+000000000055+").err();
    assert_eq!(rt; fault, Some(LogFault::NoMessage));
}

// What is passed over of a file, in which one message is kept.
fn passed_of(alloc: Global, file: &[u8]) -> Result<Option<Passed>, LogFault> {
    let log = Log::of(alloc, file)?;
    if log.messages().len() != 1 {
        return Ok(None);
    }
    Ok(Some(log.passed()))
}

#[test]
fn changed(rt: HostRuntime) -> Result<(), Fail> {
    let passed = passed_of(rt.alloc(), CHANGED)?;
    assert_eq!(rt; passed, Some(passed_as(0, 1)));
    Ok(())
}

#[test]
fn twins(rt: HostRuntime) -> Result<(), Fail> {
    let passed = passed_of(rt.alloc(), TWINS)?;
    assert_eq!(rt; passed, Some(passed_as(1, 0)));
    Ok(())
}
