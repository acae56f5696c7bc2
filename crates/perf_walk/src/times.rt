//! Times as texts.

ghost use Rattle.std.specs.Prelude.{◌≡◌, ◌≤◌, ◌==◌, ◌∷◌, [], replicate};
ghost use Rattle.std.specs.List.{before_first};
ghost use Rattle.perf_walk.specs.Times as times;

/// A time in nanoseconds, by its text in seconds: digits, and after a point at most nine more. `None`
/// for another text, and for 2^64 nanoseconds or more.
#[tactic(auto, using(crate::proofs::Digits::too_long, crate::proofs::Digits::no_seconds, crate::proofs::Digits::no_fraction, crate::proofs::Digits::all_digits))]
pub fn nanoseconds(text: &str) -> Option<u64>
    ensures { result ≡ times.nanoseconds text.now }
{
    let (seconds, fraction) = parts(text);
    let len = fraction.len();
    if len > 9 {
        return None;
    }
    let whole = with_digits(0, seconds.as_bytes())?;
    let time = with_digits(whole, fraction.as_bytes())?;
    with_zeros(time, 9 - len)
}

// A number with zeros after it.
fn with_zeros(number: u64, count: usize) -> Option<u64>
    requires { count ≤ 9 }
    ensures { result ≡ times.with_digits number (replicate count 48) }
{
    with_digits(number, &[b'0'; 9][..count])
}

// What is before the point of a text, and what is after it.
fn parts(text: &str) -> (&str, &str)
    ensures seconds { result.0.now ≡ before_first (λ b. b == 46) text.now }
    ensures fraction { result.1.now ≡ times.fraction text.now }
{
    match text.split_once('.') {
        Some(parts) => parts,
        None => (text, ""),
    }
}

// A number with digits after it. `None` if they are none, or it is 2^64 or more.
#[tactic(auto, using(crate::proofs::Digits::stops))]
fn with_digits(number: u64, digits: &[u8]) -> Option<u64>
    ensures { result ≡ times.with_digits number digits.now }
{
    let mut number = number;
    for digit in digits {
        number = with_digit(number, *digit)?;
    }
    Some(number)
}

// A number with a digit after it.
fn with_digit(number: u64, digit: u8) -> Option<u64>
    ensures { result ≡ times.with_digits number (digit ∷ []) }
{
    if !digit.is_ascii_digit() {
        return None;
    }
    number.checked_mul(10)?.checked_add(u64::from(digit - b'0'))
}
