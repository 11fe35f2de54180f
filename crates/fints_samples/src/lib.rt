//! Inputs of the tests of several crates: two banks, an order table and scripts.
#![tactic(auto)]

/// A bank that says no more than it must: 93 bytes, 42 of them its own segment.
pub const C1: &[u8] =
    b"HIBPA:3:3+12+280:10020030+Bank+1+1+300+0'\nHIPINS:9:1+1+1+0+5:38:6:::HKSAL:N:HKKAZ:N:HKCCS:J'\n";

/// The same bank with its orders and two accounts; HIKAZS has no security class.
pub const C: &[u8] = b"HIBPA:3:3+12+280:10020030+Bank+1+1+300+0'
HIPINS:9:1+1+1+0+5:38:6:::HKSAL:N:HKKAZ:N:HKCCS:J'
HISALS:4:5+2+1+0'
HISALS:5:7+2+1+0'
HIKAZS:6:5+20+1+90:N:N'
HICCSS:7:1+1+1+0'
HITANS:8:6+1+1+0+J:N:0'
HIUPA:10:4+user+3+0'
HIUPD:11:6+1234567::280:10020030+DE111+cust+1+EUR+Name++Giro++HKSAL:1+HKKAZ:1+HKCCS:1'
HIUPD:12:6+7654321::280:10020030+DE222+cust+1+EUR+Name++Giro++HKSAL:1+HKCCS:2'
";

/// The order table of both.
pub const T: &[u8] =
    b"order = [{ kind = 'HKSAL', version = 5, account = 'national' }, { kind = 'HKKAZ', version = 5, account = 'national' }, { kind = 'HKSAL', version = 7, account = 'international' }, { kind = 'HKKAZ', version = 7, account = 'international' }, { kind = 'HKCCS', version = 1, account = 'international' }]";

/// One step: the end of a dialogue.
pub const END: &[u8] = br#"[[step]]
name = "end"
segments = [{kind = "HKEND", version = 1, elements = ["$dialog"]}]
"#;

/// An end that is sealed.
pub const SEALED_END: &[u8] =
    br#"seal = [["PIN","1"], "998", "1", ["1","","0"], ["1","20260101","120000"], ["2","2","13","%3030303030303030","5","1"], ["280","10020030","user","V","0","0"], "0"]
[[step]]
name = "end"
sealed = true
segments = [{kind = "HKEND", version = 1, elements = ["$dialog"]}]
"#;

/// A step whose answer leads to the third one, and never to the second.
pub const FORK: &[u8] = br#"[[step]]
name = "one"
segments = [{kind = "HKEND", version = 1, elements = ["$dialog"]}]
branches = [{on = "0***", to = "done"}, {on = "0030", to = "bad"}]
[[step]]
name = "bad"
segments = [{kind = "HKKAZ", version = 99}]
[[step]]
name = "done"
segments = [{kind = "HKEND", version = 1, elements = ["$dialog"]}]
"#;

/// A signed balance.
pub const BALANCE: &[u8] = br#"[[field]]
name = "pin"
class = "digits"
min = 5
max = 6
[[field]]
name = "tan"
class = "digits"
min = 0
max = 6
[[signer]]
name = "me"
head = [["PIN","1"], "999", "1", "1", "1", ["1","","0"], "1",
  ["1","20260101","120000"], ["1","999","1"], ["6","10","16"],
  ["280","10020030","user","S","0","0"]]
end = ["1", "", ["$pin", "$tan"]]
[[step]]
name = "bal"
signers = ["me"]
segments = [{kind = "HKSAL", version = 5, elements = [["1234567","","280","10020030"], "N"]}]
"#;

/// A signed transfer from one of two accounts.
pub const SECOND_ACCOUNT: &[u8] = br#"[[field]]
name = "pin"
class = "digits"
min = 5
max = 6
[[field]]
name = "tan"
class = "digits"
min = 0
max = 6
[[field]]
name = "acct"
class = "account"
values = [["DE111"], ["DE222"]]
[[signer]]
name = "me"
head = [["PIN","1"], "999", "1", "1", "1", ["1","","0"], "1",
  ["1","20260101","120000"], ["1","999","1"], ["6","10","16"],
  ["280","10020030","user","S","0","0"]]
end = ["1", "", ["$pin", "$tan"]]
[[step]]
name = "bal"
signers = ["me"]
segments = [{kind = "HKCCS", version = 1, elements = ["$acct"]}, {kind = "HKTAN", version = 6, elements = ["4", "HKCCS"]}]
"#;
