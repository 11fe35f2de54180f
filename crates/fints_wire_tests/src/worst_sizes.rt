//! How long messages can be, and by which values.
use crate::asking::{Said, untrue};
use fints_samples::{BALANCE, END, FORK};
use std::test::*;

const ESCAPED_PAD: &[u8] = br#"
field = [{name = "pad", class = "text", min = 500, max = 500}]
step = [{name = "end", segments = [{kind = "HKEND", version = 1, elements = ["$dialog", "$pad"]}]}]
"#;

const SEALED_PAD: &[u8] =
    br#"seal = [["PIN","1"], "998", "1", ["1","","0"], ["1","20260101","120000"], ["2","2","13","%3030303030303030","5","1"], ["280","10020030","user","V","0","0"], "0"]
field = [{name = "pad", class = "digits", min = 0, max = 986}, {name = "longer", class = "digits", min = 0, max = 987}]
step = [
  {name = "end", sealed = true, segments = [{kind = "HKEND", version = 1, elements = ["$dialog", "$pad"]}]},
  {name = "longer", sealed = true, segments = [{kind = "HKEND", version = 1, elements = ["$dialog", "$longer"]}]},
]
"#;

const SAID: [(&[u8], &[Said<'static>]); 5] = [
    (
        BALANCE,
        &[
            Said::Size(1, 1, 195),
            Said::Least(&[(b"dialog", b"A"), (b"pin", b"00000"), (b"tan", b"")]),
        ],
    ),
    (
        END,
        &[
            Said::Size(1, 2, 173),
            Said::Size(1, 9_999, 179),
            Said::Size(1, 10_000, 181),
        ],
    ),
    (
        ESCAPED_PAD,
        &[
            Said::Size(1, 1, 1056),
            Said::Worst(&[(b"dialog", &[b'?'; 30]), (b"pad", &[b'?'; 500])]),
        ],
    ),
    (
        SEALED_PAD,
        &[Said::Size(1, 1, 1156), Said::Size(2, 1, 1158)],
    ),
    (
        FORK,
        &[
            Said::Size(1, 1, 55),
            Said::Size(3, 2, 173),
            Said::Size(3, 9_999, 179),
            Said::Size(3, 10_000, 181),
        ],
    ),
];

#[test]
fn greatest_and_least(rt: HostRuntime) -> Result<(), Fail> {
    for (script, said) in SAID {
        assert!(rt; untrue(rt.alloc(), script, said)? == None);
    }
    Ok(())
}
