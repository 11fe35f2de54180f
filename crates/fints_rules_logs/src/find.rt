//! What is found in a file.
ghost use Rattle.std.specs.Prelude.{◌≡◌, ◌+◌, ◌<◌, ◌^◌, length, take, drop};
ghost use Rattle.fints_rules_logs.specs.Finds.{head_text, stored_bytes, up_to_quote};

use crate::form::Form;
use std::marker::Model;

/// The bytes of a message: those of the file, or decoded ones.
#[derive(Drop)]
pub enum Stored<'a> {
    InFile(&'a [u8]),
    Decoded(Vec<u8>),
}

impl<'a> Stored<'a> {
    fn as_slice(&self) -> &[u8]
        ensures { result.now ≡ stored_bytes self.now }
    {
        match self {
            Stored::InFile(slice) => slice,
            Stored::Decoded(bytes) => bytes.as_slice(),
        }
    }
}

/// A message in a file, whose offset and length a machine's numbers count; a contract sees its values.
#[derive(Drop)]
pub struct Found<'a> {
    start: usize,
    form: Form,
    stored: Stored<'a>,
}

impl<'a> Model for Found<'a> {
    ghost use Rattle.std.specs.Prelude.{◌+◌, ◌<◌, ◌^◌, length};
    ghost use Rattle.fints_rules_logs.specs.Finds.{FoundValue, stored_bytes};

    ghost Value = { FoundValue };

    ghost view = { λ f. record { start = f.start; form = f.form; bytes = stored_bytes f.stored } };

    ghost invariant = { λ f. f.start + length (stored_bytes f.stored) < 2 ^ 64 };
}

impl<'a> Found<'a> {
    pub fn new(start: usize, form: Form, stored: Stored<'a>) -> Found<'a>
        requires { start + length (stored_bytes stored) < 2 ^ 64 }
        ensures { result ≡ record { start = start; form = form; bytes = stored_bytes stored.entry } }
    {
        Found {
            start,
            form,
            stored,
        }
    }

    /// The offset in the file at which it begins.
    pub fn start(&self) -> usize
        ensures { result ≡ self.now.start }
    {
        self.start
    }

    /// How the file holds it.
    pub fn form(&self) -> Form
        ensures { result ≡ self.now.form }
    {
        self.form
    }

    /// Its bytes, as they were sent.
    pub fn bytes(&self) -> &[u8]
        ensures bytes { result.now ≡ self.now.bytes }
        ensures below { self.now.start + length result.now < 2 ^ 64 }
    {
        self.stored.as_slice()
    }
}

/// A begin without a message; a contract sees its values.
#[derive(Drop)]
pub struct Unfit<'a> {
    start: usize,
    head: &'a [u8],
}

impl<'a> Model for Unfit<'a> {
    ghost use Rattle.fints_rules_logs.specs.Finds.{UnfitValue};

    ghost Value = { UnfitValue };

    ghost view = { λ x. record { start = x.start; head = x.head.now } };
}

impl<'a> Unfit<'a> {
    pub fn new(start: usize, head: &'a [u8]) -> Unfit<'a>
        ensures { result ≡ record { start = start; head = head.now } }
    {
        Unfit { start, head }
    }

    /// The offset in the file at which it begins.
    pub fn start(&self) -> usize
        ensures { result ≡ self.now.start }
    {
        self.start
    }

    /// Its HNHBK after the size, as the file has it.
    pub fn head(&self) -> &'a [u8]
        ensures { result.now ≡ self.now.head }
    {
        self.head
    }
}

/// What is found in a file.
#[derive(Drop)]
pub enum Find<'a> {
    Message(Found<'a>),
    Misfit(Unfit<'a>),
}

// The bytes before the first quote.
fn up_to_quote(text: &[u8]) -> &[u8]
    ensures { result.now ≡ up_to_quote text.now }
{
    for (i, b) in text.iter().enumerate() {
        if *b == b'\'' {
            return &text[..i];
        }
    }
    text
}

/// What comes after the first `len` bytes, if anything does.
pub fn after_first(text: &[u8], len: usize) -> &[u8]
    ensures { result.now ≡ drop len text.now }
{
    if text.len() < len {
        return &[];
    }
    let (_, rest) = text.split_at(len);
    rest
}

// The first `len` bytes, or all of them where there are fewer.
fn first_bytes(text: &[u8], len: usize) -> &[u8]
    ensures { result.now ≡ take len text.now }
{
    if text.len() < len {
        return text;
    }
    let (front, _) = text.split_at(len);
    front
}

/// HNHBK after its size, as the text has it at its front: of the first 128 bytes, up to the first quote.
pub fn head_text(text: &[u8]) -> &[u8]
    ensures { result.now ≡ head_text text.now }
{
    up_to_quote(first_bytes(after_first(text, 23), 105))
}
