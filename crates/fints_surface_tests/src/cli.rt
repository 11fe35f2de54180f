//! Commands over files and outputs that say their bytes.
use crate::samples::C;
use crate::streams::{Kept, Same};
use fints_cli::execute;
use fints_syntax::Memory;
use std::alloc::Global;
use std::test::*;

// The report of the built-in texts.
const REPORT: &[u8] = b"step end number 1 size 55\nclean\n";

const SHOWN: &[u8] = b"bank 280 10020030 kinds 1 kilobytes 0 protocols 300
order HKSAL 5 orders 2 signatures 1
order HKSAL 7 orders 2 signatures 1
order HKKAZ 5 orders 20 signatures 1
order HKCCS 1 orders 1 signatures 1
order HKTAN 6 orders 1 signatures 1
pin HKSAL N
pin HKKAZ N
pin HKCCS J
tan 6 J N
usage 0
account 1234567::280:10020030 iban DE111
entry HKSAL 1
entry HKKAZ 1
entry HKCCS 1
account 7654321::280:10020030 iban DE222
entry HKSAL 1
entry HKCCS 2
skipped 0
";

// Whether the words have status 0 and this output. Status 4 says that memory ran out.
fn is_answered(alloc: Global, words: &[&str], text: &[u8]) -> Result<bool, Fail> {
    let mut files = Same::new(C);
    let mut out = Kept::new(alloc)?;
    let mut err = Kept::new(alloc)?;
    let status = execute(alloc, words, &mut files, &mut out, &mut err);
    if status == 4 {
        return Err(Fail::from(Memory));
    }
    Ok((status, out.bytes(), err.bytes()) == (0, text, b"".as_slice()))
}

// Without words the program reports on its built-in texts.
#[test]
fn commands(rt: HostRuntime) -> Result<(), Fail> {
    let rows: [(&[&str], &[u8]); 2] = [(&[], REPORT), (&["show", "--params", "c"], SHOWN)];
    for (words, text) in rows {
        assert!(rt; is_answered(rt.alloc(), words, text)?);
    }
    Ok(())
}
