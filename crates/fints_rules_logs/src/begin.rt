//! The begin of a message: HNHBK with the size.
ghost use Rattle.std.specs.Prelude.{◌≡◌, ◌<◌, ◌^◌, ℕ, length, IfSome, IfNone};
ghost use Rattle.fints_syntax_segments.specs.Number.{number_in};
ghost use Rattle.fints_rules_logs.specs.Standing.{SaysSize};

// The number that 12 digits spell.
fn number_of_twelve(digits: &[u8]) -> Option<u64>
    requires { length digits.now ≡ 12 }
    ensures value { result ≡ number_in 12 12 digits.now }
    ensures below { IfSome result (λ n. n < 10 ^ 12) }
{
    let mut number: u64 = 0;
    for digit in digits {
        if !digit.is_ascii_digit() {
            return None;
        }
        number = number * 10 + u64::from(*digit - b'0');
    }
    Some(number)
}

/// The size that HNHBK says at the front of the bytes.
pub fn said_size(bytes: &[u8]) -> Option<u64>
    ensures some { IfSome result (λ n. SaysSize bytes.now n) }
    ensures below { IfSome result (λ n. n < 10 ^ 12) }
    ensures none { IfNone result ((n : ℕ) → SaysSize bytes.now n → ⊥) }
{
    if bytes.len() < 23 {
        return None;
    }
    if !bytes.starts_with(b"HNHBK:1:3+") {
        return None;
    }
    let (_, behind) = bytes.split_at(10);
    let (digits, more) = behind.split_at(12);
    if more[0] != b'+' {
        return None;
    }
    number_of_twelve(digits)
}
