// The numbers of a line.
ghost use Rattle.std.specs.Prelude.{◌≡◌, ◌<◌, IfSome};
ghost use Rattle.wm_cert_lines.specs.Numbers.{is_digit, grown, small, digits_from, nought_alone, natural, as_whole, as_negative, whole, placed, ordinal};

fn is_digit(byte: u8) -> bool
    ensures { result ≡ is_digit byte }
{
    if byte < 48 {
        return false;
    }
    byte <= 57
}

/// A number with one more digit.
fn grown(value: u64, digit: u8) -> u64
    ensures { result ≡ grown value digit }
{
    let next = u128::from(value) * 10 + u128::from(digit.saturating_sub(48));
    if next < 1_000_000_000_000 {
        return next as u64;
    }
    1_000_000_000_000
}

fn small(value: u64) -> Option<u64>
    ensures number { result ≡ small value }
    ensures bounded { IfSome result (λ n. n < 1000000000000) }
{
    if value < 1_000_000_000_000 {
        return Some(value);
    }
    None
}

fn digits(word: &[u8]) -> Option<u64>
    ensures number { result ≡ digits_from 0 word.now }
    ensures bounded { IfSome result (λ n. n < 1000000000000) }
{
    let mut value = 0;
    for digit in word {
        if !is_digit(*digit) {
            return None;
        }
        value = grown(value, *digit);
    }
    small(value)
}

fn nought_alone(behind: &[u8]) -> Option<u64>
    ensures number { result ≡ nought_alone behind.now }
    ensures bounded { IfSome result (λ n. n < 1000000000000) }
{
    if behind.is_empty() {
        return Some(0);
    }
    None
}

/// A number from 0 on.
fn natural(word: &[u8]) -> Option<u64>
    ensures number { result ≡ natural word.now }
    ensures bounded { IfSome result (λ n. n < 1000000000000) }
{
    match word.split_first() {
        None => None,
        Some((first, behind)) => {
            if *first == b'0' {
                return nought_alone(behind);
            }
            digits(word)
        }
    }
}

fn as_whole(number: Option<u64>) -> Option<i64>
    requires { IfSome number (λ n. n < 1000000000000) }
    ensures { result ≡ as_whole number }
{
    match number {
        None => None,
        Some(n) => Some(n as i64),
    }
}

fn as_negative(number: Option<u64>) -> Option<i64>
    requires { IfSome number (λ n. n < 1000000000000) }
    ensures { result ≡ as_negative number }
{
    match number {
        None => None,
        Some(n) => {
            if n == 0 {
                return None;
            }
            Some(-(n as i64))
        }
    }
}

/// A number with its sign.
pub fn whole(word: &[u8]) -> Option<i64>
    ensures { result ≡ whole word.now }
{
    match word.split_first() {
        None => None,
        Some((first, behind)) => {
            if *first == b'-' {
                return as_negative(natural(behind));
            }
            as_whole(natural(word))
        }
    }
}

fn placed(number: Option<u64>) -> Option<u32>
    ensures { result ≡ placed number }
{
    match number {
        None => None,
        Some(n) => {
            if n < 1 {
                return None;
            }
            if n > 4_294_967_295 {
                return None;
            }
            Some((n - 1) as u32)
        }
    }
}

/// A number from 1 to 4294967295, counted from 0.
pub fn ordinal(word: &[u8]) -> Option<u32>
    ensures { result ≡ ordinal word.now }
{
    placed(natural(word))
}
