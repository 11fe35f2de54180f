//! Several messages, each judged by itself.
use fints_cli_texts::{Fault, Reply, Unobserved};
use fints_cli_verdicts::judge_all_read;
use fints_params::Params;
use fints_rules_messages::JudgeFault;
use fints_samples::{C, T};
use std::alloc::Global;
use std::test::Fail;

// The end of a dialogue, 55 bytes, and after it the message of row `second-account`, 188 bytes.
const TWO: &[u8] =
    b"HNHBK:1:3+000000000055+300+0+1'HKEND:2:1+0'HNHBS:3:1+1'HNHBK:1:3+000000000188+300+0+1'HNSHK:2:4+PIN:1+999+1+1+1+1::0+1+1:20260101:120000+1:999:1+6:10:16+280:10020030:user:S:0:0'HKCCS:3:1+DE222'HKTAN:4:6+4+HKCCS'HNSHA:5:2+1++00000:'HNHBS:6:1+1'";

fn judged(alloc: Global, messages: &[u8], sizes: &[usize]) -> Result<Reply, Fault> {
    judge_all_read(
        alloc,
        Params::read(alloc, C),
        T,
        messages,
        sizes,
        &mut Unobserved,
    )
}

#[test]
fn a_permitted_and_a_broken_one(rt: HostRuntime) -> Result<(), Fail> {
    let text: &[u8] = b"message 1\npermitted\nmessage 2\nP8 signatures segment 3\nbroken 1\n";
    for sizes in [[55, 188].as_slice(), [55].as_slice()] {
        let reply = judged(rt.alloc(), TWO, sizes)?;
        assert!(rt; reply.status == 1 && reply.text.as_slice() == text);
    }
    Ok(())
}

#[test]
fn none_and_one(rt: HostRuntime) -> Result<(), Fail> {
    let none = judged(rt.alloc(), b"", &[])?;
    assert!(rt; none.status == 0 && none.text.is_empty());
    let (end, _) = TWO.split_at(55);
    let one = judged(rt.alloc(), end, &[])?;
    let text: &[u8] = b"message 1\npermitted\n";
    assert!(rt; one.status == 0 && one.text.as_slice() == text);
    Ok(())
}

// The second message is cut off after 45 bytes, and ceases where its HNSHK does.
#[test]
fn a_size_too_small(rt: HostRuntime) -> Result<(), Fail> {
    let at = match judged(rt.alloc(), TWO, &[55, 45]) {
        Err(Fault::Message(JudgeFault::NotAMessage { offset })) => Some(offset),
        judged => {
            judged?;
            None
        }
    };
    assert!(rt; at.is_some_and(|offset| offset >= 55 && offset <= 100));
    Ok(())
}
