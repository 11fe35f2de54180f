//! The program: the commands over the real files and the standard streams.
#![tactic(auto)]

mod disk;
mod stream;

use disk::Disk;
use fints_cli::{Out, emit, execute};
use std::alloc::{AllocError, Global};
use std::process::ExitCode;
use std::{env, io};
use stream::Stream;

// The words after the program's name.
fn words(rt: &HostRuntime) -> io::Result<Vec<String>> {
    let words = env::args(rt)?.skip(1).collect(rt.alloc())?;
    Ok(words)
}

fn texts<'a>(alloc: Global, words: &'a [String]) -> Result<Vec<&'a str>, AllocError> {
    words.iter().map(|word| word.as_str()).collect(alloc)
}

fn refuse_memory<E: Out>(err: &mut E) -> u8 {
    let _ = emit(b"error: memory\n", err);
    4
}

// Says why the words weren't got.
fn refuse_words<E: Out>(fault: &io::Error, err: &mut E) -> u8 {
    if fault.kind() == io::ErrorKind::OutOfMemory {
        return refuse_memory(err);
    }
    let _ = emit(b"error: an argument isn't UTF-8\n", err);
    2
}

fn main(rt: HostRuntime) -> ExitCode {
    let stdout = rt.stdout();
    let stderr = rt.stderr();
    let mut files = Disk::new(&rt);
    let mut out = Stream::new(&stdout);
    let mut err = Stream::new(&stderr);
    let words = match words(&rt) {
        Ok(words) => words,
        Err(fault) => return ExitCode::from(refuse_words(&fault, &mut err)),
    };
    let status = match texts(rt.alloc(), words.as_slice()) {
        Ok(texts) => execute(rt.alloc(), texts.as_slice(), &mut files, &mut out, &mut err),
        Err(_) => refuse_memory(&mut err),
    };
    ExitCode::from(status)
}
