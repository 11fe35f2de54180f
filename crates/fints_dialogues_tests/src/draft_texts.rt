//! The text of a draft's script.
use fints_cli_drafts_texts::{Notes, OrderNote, draft_text};
use fints_script::Script;
use std::alloc::{AllocError, Global};
use std::test::Fail;

// Accounts of orders in two fields, one that is no field, and how many are left out.
const ACCOUNTS: &[u8] =
    b"# The draft of a script, from a recorded dialogue: its run with the case that `fints draft --case` prints
# sends the recorded messages. What a client makes new for each message is a field, and a run sends one value
# of it in all messages: the control reference, the date and the time of a signature, the TAN, and the bank's
# reference of an order. Any other text may be made a field, which has a value of its own in each run: declare
# the field before the steps, and put its name in the place of the text, as in
#
#   [[field]]
#   name = \"purpose\"
#   class = \"text\"
#   min = 1
#   max = 35
#
# and \"$purpose\". The time of the seal is such a text.

[[field]]
name = \"account1\"
class = \"account\"
values = [
  [\"7654321\", \"\", \"280\", \"10020030\"],
  [\"1234567\", \"\", \"280\", \"10020030\"],
]

[[field]]
name = \"account2\"
class = \"account\"
values = [
  [\"DE111\", \"BIC\"],
  [\"DE222\", \"BIC\"],
]

[[step]]
name = \"m1-hkidn\"
segments = [
  {kind = \"HKIDN\", version = 2, elements = [[\"280\", \"10020030\"], \"cust\", \"0\", \"1\"]},
  {kind = \"HKVVB\", version = 3, elements = [\"0\", \"0\", \"0\", \"fints\", \"1\"]},
]
default = \"m2-hksal\"

[[step]]
name = \"m2-hksal\"
segments = [
  # Left out of its accounts: 1 for which the bank doesn't permit it (P8, P9).
  {kind = \"HKSAL\", version = 5, elements = [\"$account1\", \"N\"]},
  # Element 2 is an account: a field of class \"account\" lists those that it may be.
  {kind = \"HKSAL\", version = 5, elements = [[\"9999999\", \"\", \"280\", \"10020030\"], \"N\"]},
]
default = \"m3-hksal\"

[[step]]
name = \"m3-hksal\"
segments = [
  # Left out of its accounts: 1 for which the bank doesn't permit it (P8, P9).
  {kind = \"HKSAL\", version = 7, elements = [\"$account2\", \"N\"]},
  # Left out of its accounts: 1 for which the bank doesn't permit it (P8, P9).
  {kind = \"HKKAZ\", version = 7, elements = [\"$account2\", \"N\"]},
]
default = \"stop\"
";

// Signers, and branches on two codes.
const BRANCHES: &[u8] =
    b"# The draft of a script, from a recorded dialogue: its run with the case that `fints draft --case` prints
# sends the recorded messages. What a client makes new for each message is a field, and a run sends one value
# of it in all messages: the control reference, the date and the time of a signature, the TAN, and the bank's
# reference of an order. Any other text may be made a field, which has a value of its own in each run: declare
# the field before the steps, and put its name in the place of the text, as in
#
#   [[field]]
#   name = \"purpose\"
#   class = \"text\"
#   min = 1
#   max = 35
#
# and \"$purpose\". The time of the seal is such a text.

[[field]]
name = \"ref\"
class = \"text\"
min = 1
max = 14

[[field]]
name = \"date\"
class = \"digits\"
min = 8
max = 8

[[field]]
name = \"time\"
class = \"digits\"
min = 6
max = 6

[[field]]
name = \"pin1\"
class = \"text\"
min = 1
max = 99

[[field]]
name = \"orderref\"
class = \"text\"
min = 1
max = 35

[[signer]]
name = \"signer1\"
head = [[\"PIN\", \"2\"], \"921\", \"$ref\", \"1\", \"1\", [\"1\", \"\", \"7A2F09\"], \"1\", [\"1\", \"$date\", \"$time\"], [\"1\", \"999\", \"1\"], [\"6\", \"10\", \"16\"], [\"280\", \"10020030\", \"erika01\", \"S\", \"0\", \"0\"]]
end = [\"$ref\", \"\", \"$pin1\"]

[[step]]
name = \"m1-hksal\"
signers = [\"signer1\"]
segments = [
  {kind = \"HKSAL\", version = 7, elements = [[\"DE97100200300004711003\", \"BEISDEFFXXX\", \"4711003\", \"\", \"280\", \"10020030\"], \"N\"]},
  {kind = \"HKTAN\", version = 7, elements = [\"4\", \"HKSAL\"]},
]
branches = [{on = \"0030\", to = \"m2-hktan\"}, {on = \"3955\", to = \"m2-hktan\"}]
default = \"m3-hkend\"

[[step]]
name = \"m2-hktan\"
signers = [\"signer1\"]
segments = [
  {kind = \"HKTAN\", version = 7, elements = [\"S\", \"\", \"\", \"\", \"$orderref\", \"N\"]},
]
default = \"m3-hkend\"

[[step]]
name = \"m3-hkend\"
signers = [\"signer1\"]
segments = [
  {kind = \"HKEND\", version = 1, elements = [\"$dialog\"]},
]
default = \"stop\"
";

// One account is left out.
const LEFT_OUT: OrderNote = OrderNote::Listed {
    left_out: 1,
    further: 0,
};

fn two_notes(
    alloc: Global,
    one: OrderNote,
    other: OrderNote,
) -> Result<Vec<OrderNote>, AllocError> {
    let mut notes = Vec::new(alloc);
    notes.push(one)?;
    notes.push(other)?;
    Ok(notes)
}

// What is noted of the orders in ACCOUNTS, step by step.
fn account_notes(alloc: Global) -> Result<Notes, AllocError> {
    let mut orders = Vec::new(alloc);
    orders.push(Vec::new(alloc))?;
    orders.push(two_notes(alloc, LEFT_OUT, OrderNote::Account)?)?;
    orders.push(two_notes(alloc, LEFT_OUT, LEFT_OUT)?)?;
    Ok(Notes {
        seals: Vec::new(alloc),
        orders,
    })
}

// Whether the text of the script that a text denotes is that text.
fn is_kept(alloc: Global, text: &[u8], notes: &Notes) -> Result<bool, Fail> {
    let script = Script::read(alloc, text)?;
    Ok(draft_text(alloc, &script, notes)?.as_slice() == text)
}

#[test]
fn accounts(rt: HostRuntime) -> Result<(), Fail> {
    let notes = account_notes(rt.alloc())?;
    assert!(rt; is_kept(rt.alloc(), ACCOUNTS, &notes)?);
    Ok(())
}

#[test]
fn branches(rt: HostRuntime) -> Result<(), Fail> {
    let notes = Notes {
        seals: Vec::new(rt.alloc()),
        orders: Vec::new(rt.alloc()),
    };
    assert!(rt; is_kept(rt.alloc(), BRANCHES, &notes)?);
    Ok(())
}
