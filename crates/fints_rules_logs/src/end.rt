//! The end of a message: HNHBS.
ghost use Rattle.std.specs.Prelude.{◌≡◌, ◌+◌, ◌≤◌, ℕ, true, false, length};
ghost use Rattle.std.specs.Str.{all_ascii_digits};
ghost use Rattle.fints_rules_logs.specs.Standing.{EndsAs, EndsWell, IsEnd};

use fints_syntax_texts::after;

fn all_digits(bytes: &[u8]) -> bool
    ensures { result ≡ all_ascii_digits bytes.now }
{
    for b in bytes {
        if !b.is_ascii_digit() {
            return false;
        }
    }
    true
}

// Whether the bytes are HNHBS 1, whose number and the message's number in it have these lengths.
fn is_end(end: &[u8], number_len: usize, message_len: usize) -> bool
    requires { length end.now ≡ 10 + number_len + message_len }
    ensures yes { result ≡ true → IsEnd end.now number_len message_len }
    ensures no { result ≡ false → IsEnd end.now number_len message_len → ⊥ }
{
    let Some(rest) = after(end, b"HNHBS:") else {
        return false;
    };
    let (number, rest) = rest.split_at(number_len);
    let Some(rest) = after(rest, b":1+") else {
        return false;
    };
    let (message, rest) = rest.split_at(message_len);
    if rest != b"'".as_slice() {
        return false;
    }
    if !all_digits(number) {
        return false;
    }
    all_digits(message)
}

// Whether the bytes end so.
fn ends_as(bytes: &[u8], number_len: usize, message_len: usize) -> bool
    requires number { number_len ≤ 3 }
    requires message { message_len ≤ 5 }
    ensures yes { result ≡ true → EndsAs bytes.now number_len message_len }
    ensures no { result ≡ false → EndsAs bytes.now number_len message_len → ⊥ }
{
    let len = 10 + number_len + message_len;
    if bytes.len() < len {
        return false;
    }
    let (_, end) = bytes.split_at(bytes.len() - len);
    is_end(end, number_len, message_len)
}

// The same for a number of 1 to 3 digits.
fn ends_with_message(bytes: &[u8], message_len: usize) -> bool
    requires { message_len ≤ 5 }
    ensures yes { result ≡ true → (n : ℕ) × (1 ≤ n) × (n ≤ 3) × EndsAs bytes.now n message_len }
    ensures no { result ≡ false → (n : ℕ) → 1 ≤ n → n ≤ 3 → EndsAs bytes.now n message_len → ⊥ }
{
    for number_len in 1..4 {
        if ends_as(bytes, number_len, message_len) {
            return true;
        }
    }
    false
}

/// Whether the bytes end with HNHBS 1, whose number has 1 to 3 digits, and the message's number 1 to 5.
pub fn ends_well(bytes: &[u8]) -> bool
    ensures yes { result ≡ true → EndsWell bytes.now }
    ensures no { result ≡ false → EndsWell bytes.now → ⊥ }
{
    for message_len in 1..6 {
        if ends_with_message(bytes, message_len) {
            return true;
        }
    }
    false
}
