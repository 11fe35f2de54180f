//! Inputs of the worked rows. They are not those of the crate of samples, since this crate lists only the seven
//! names of the surface.
use fints_script::Memory;
use std::alloc::Global;

/// Capture C1: a bank that says no more than it must.
pub const C1: &[u8] =
    b"HIBPA:3:3+12+280:10020030+Bank+1+1+300+0'\nHIPINS:9:1+1+1+0+5:38:6:::HKSAL:N:HKKAZ:N:HKCCS:J'\n";

/// Capture C: the same bank with its orders and two accounts.
pub const C: &[u8] = b"HIBPA:3:3+12+280:10020030+Bank+1+1+300+0'
HIPINS:9:1+1+1+0+5:38:6:::HKSAL:N:HKKAZ:N:HKCCS:J'
HISALS:4:5+2+1+0'
HISALS:5:7+2+1+0'
HIKAZS:6:5+20+1+90:N:N'
HICCSS:7:1+1+1+0'
HITANS:8:6+1+1+0+J:N:0'
HIUPA:10:4+user+3+0'
HIUPD:11:6+1234567::280:10020030+DE111+cust+1+EUR+Name++Giro++HKSAL:1+HKKAZ:1+HKCCS:1'
HIUPD:12:6+7654321::280:10020030+DE222+cust+1+EUR+Name++Giro++HKSAL:1+HKCCS:2'
";

/// The order table T of both.
pub const T: &[u8] =
    b"order = [{ kind = 'HKSAL', version = 5, account = 'national' }, { kind = 'HKKAZ', version = 5, account = 'national' }, { kind = 'HKSAL', version = 7, account = 'international' }, { kind = 'HKKAZ', version = 7, account = 'international' }, { kind = 'HKCCS', version = 1, account = 'international' }]";

/// Script `fork`: a step whose answer leads to the third one, and never to the second.
pub const FORK: &[u8] = br#"[[step]]
name = "one"
segments = [{kind = "HKEND", version = 1, elements = ["$dialog"]}]
branches = [{on = "0***", to = "done"}, {on = "0030", to = "bad"}]
[[step]]
name = "bad"
segments = [{kind = "HKKAZ", version = 99}]
[[step]]
name = "done"
segments = [{kind = "HKEND", version = 1, elements = ["$dialog"]}]
"#;

// The fields and the signer of a signed script.
const SIGNER: &[u8] = br#"[[field]]
name = "pin"
class = "digits"
min = 5
max = 6
[[field]]
name = "tan"
class = "digits"
min = 0
max = 6
[[signer]]
name = "me"
head = [["PIN","1"], "999", "1", "1", "1", ["1","","0"], "1",
  ["1","20260101","120000"], ["1","999","1"], ["6","10","16"],
  ["280","10020030","user","S","0","0"]]
end = ["1", "", ["$pin", "$tan"]]
"#;

/// The step of script `bal(..)` of row `second-account`, a signed transfer from one of two accounts, and its field.
pub const SECOND_ACCOUNT: &[u8] = br#"[[field]]
name = "acct"
class = "account"
values = [["DE111"], ["DE222"]]
[[step]]
name = "bal"
signers = ["me"]
segments = [{kind = "HKCCS", version = 1, elements = ["$acct"]}, {kind = "HKTAN", version = 6, elements = ["4", "HKCCS"]}]
"#;

/// The steps of the script of row `order-without-its-release`: a signed transfer, and after it a message that
/// doesn't send its TAN.
pub const UNRELEASED: &[u8] = br#"[[step]]
name = "pay"
signers = ["me"]
segments = [{kind = "HKCCS", version = 1, elements = [["DE111"]]}, {kind = "HKTAN", version = 6, elements = ["4", "HKCCS"]}]
default = "next"
[[step]]
name = "next"
segments = [{kind = "HKIDN", version = 2, elements = ["280"]}]
"#;

/// A signed script of these steps.
pub fn signed(alloc: Global, steps: &[u8]) -> Result<Vec<u8>, Memory> {
    let mut script = Vec::new(alloc);
    script.extend_from_slice(SIGNER)?;
    script.extend_from_slice(steps)?;
    Ok(script)
}
