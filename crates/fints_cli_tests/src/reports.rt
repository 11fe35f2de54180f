//! Reports by `check_text` and `report_text`.
use fints_cli::{built_in, check_text, report_text};
use fints_params::Params;
use std::test::Fail;

// One order, which the bank's parameters don't know, and no signature.
const BARE: &[u8] = br#"[[step]]
name = "bal"
segments = [{kind = "HKSAL", version = 5, elements = [["1234567", "", "280", "10020030"], "N"]}]
"#;

#[test]
fn reports(rt: HostRuntime) -> Result<(), Fail> {
    let rows: [(&[u8], &str); 2] = [
        (built_in::SCRIPT, "step end number 1 size 55\nclean\n"),
        (
            BARE,
            "step bal number 1 size 77\nbroken bal P5 version segment 2\nbroken bal P9 account segment 2\nfindings 2\n",
        ),
    ];
    for (script, wanted) in rows {
        let text = check_text(rt.alloc(), built_in::CAPTURE, built_in::ORDERS, script)?;
        assert!(rt; text.as_slice() == wanted.as_bytes());
    }
    Ok(())
}

#[test]
fn report_by_parameters(rt: HostRuntime) -> Result<(), Fail> {
    let params = Params::read(rt.alloc(), built_in::CAPTURE)?;
    let text = report_text(rt.alloc(), &params, built_in::ORDERS, built_in::SCRIPT)?;
    assert!(rt; text.as_slice() == "step end number 1 size 55\nclean\n".as_bytes());
    Ok(())
}
