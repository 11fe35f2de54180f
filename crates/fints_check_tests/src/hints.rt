//! Hints of inputs that are refused for their length.
use fints_cli_hints::{Inputs, hint};
use fints_cli_texts::Fault;
use fints_params::ParamFault;
use fints_script::{FaultKind, Place, ScriptFault};
use fints_syntax::{SyntaxFault, SyntaxKind};
use std::alloc::{AllocError, Global};
use std::test::*;

const BANK: &[u8] = b"HIBPA:3:3+12+280:10020030+Bank+1+1+300+0'\n";

// A segment after the bank's, of as many of these bytes.
fn capture(alloc: Global, byte: u8, count: usize) -> Result<Vec<u8>, AllocError> {
    let mut text = BANK.to_vec(alloc)?;
    text.extend_from_slice(b"HISALS:4:5+")?;
    for _ in 0..count {
        text.push(byte)?;
    }
    text.push(b'\'')?;
    Ok(text)
}

// The hint for the refusal of a capture whose second segment has this many of these bytes.
fn hint_of(alloc: Global, fault: SyntaxFault, byte: u8, count: usize) -> Result<String, Fail> {
    let text = capture(alloc, byte, count)?;
    let mut inputs = Inputs::none();
    inputs.params = text.as_slice();
    let fault = Fault::Params(ParamFault::Syntax(fault));
    Ok(hint(alloc, &fault, &inputs)?.ok_or("a hint")?)
}

#[test]
fn long_captures(rt: HostRuntime) -> Result<(), Fail> {
    let rows: [(SyntaxKind, usize, u8, usize, &str); 3] = [
        (
            SyntaxKind::CaptureTooLong,
            4_194_304,
            b'A',
            4_194_304,
            "longer than 4194304 bytes: it has 4194358",
        ),
        (
            SyntaxKind::TooLong,
            BANK.len(),
            b':',
            20_000,
            "segment 4 (HISALS) in line 2 has 20000 items or more",
        ),
        (
            SyntaxKind::TooLong,
            BANK.len(),
            b'A',
            1_048_576,
            "segment 4 (HISALS) in line 2 has no end within 1048576 bytes",
        ),
    ];
    for (kind, offset, byte, count, wanted) in rows {
        let told = hint_of(rt.alloc(), SyntaxFault { kind, offset }, byte, count)?;
        assert!(rt; told.as_str() == wanted);
    }
    Ok(())
}

#[test]
fn a_long_script(rt: HostRuntime) -> Result<(), Fail> {
    let text = vec![in rt.alloc(); b'\n'; 1_048_577]?;
    let mut inputs = Inputs::none();
    inputs.script = text.as_slice();
    let (kind, place) = (FaultKind::Limit, Place::Top);
    let fault = Fault::Script(ScriptFault { kind, place });
    let told = hint(rt.alloc(), &fault, &inputs)?.ok_or("a hint")?;
    assert!(rt; told.as_str() == "longer than 1048576 bytes: it has 1048577");
    Ok(())
}
