// The value of a number by its spelling (C99 6.4.4.1 in the profile).
ghost use Rattle.std.specs.Prelude.{◌≡◌, ◌≤◌};
ghost use Rattle.wm_lex.specs.Numbers.{digit_value, wrapped, in_base, without_suffix, is_hexadecimal, value_of, number_of};

const DECIMAL_LIMIT: u64 = 2_147_483_647;

const LIMIT: u64 = 4_294_967_295;

/// The value of a digit, 16 where the byte is no digit of any base.
fn digit_value(byte: u8) -> u64
    ensures { result ≡ digit_value byte }
{
    match byte {
        b'0'..=b'9' => (byte - b'0') as u64,
        b'a'..=b'f' => (byte - b'a' + 10) as u64,
        b'A'..=b'F' => (byte - b'A' + 10) as u64,
        _ => 16,
    }
}

/// The number that 32 bits of this value stand for.
fn wrapped(value: u64) -> i64
    requires { value ≤ 4294967295 }
    ensures { result ≡ wrapped value }
{
    if value >= 2_147_483_648 {
        value as i64 - 4_294_967_296
    } else {
        value as i64
    }
}

/// The number that the digits stand for; None where there is none, one is no digit of the base, or the value is above the limit.
fn in_base(base: u64, limit: u64, digits: &[u8]) -> Option<i64>
    requires base { base ≤ 16 }
    requires limit { limit ≤ 4294967295 }
    ensures { result ≡ in_base base limit digits.now }
{
    if digits.is_empty() {
        return None;
    }
    let mut value = 0u64;
    for byte in digits {
        let digit = digit_value(*byte);
        if digit >= base {
            return None;
        }
        value = value * base + digit;
        if value > limit {
            return None;
        }
    }
    Some(wrapped(value))
}

/// The spelling without its last byte where that is a suffix.
fn without_suffix(spelling: &[u8]) -> &[u8]
    ensures { result.now ≡ without_suffix spelling.now }
{
    let length = spelling.len();
    if length > 0 && (spelling[length - 1] == b'L' || spelling[length - 1] == b'l') {
        return &spelling[..length - 1];
    }
    spelling
}

/// Whether the digits begin as those of a hexadecimal number do.
fn is_hexadecimal(digits: &[u8]) -> bool
    ensures { result ≡ is_hexadecimal digits.now }
{
    digits.len() > 1 && digits[0] == b'0' && (digits[1] == b'x' || digits[1] == b'X')
}

/// The number of a spelling, from -2,147,483,648 to 2,147,483,647; None where no number is spelled so.
pub fn number_of(spelling: &[u8]) -> Option<i64>
    ensures { result ≡ number_of spelling.now }
{
    let digits = without_suffix(spelling);
    if is_hexadecimal(digits) {
        return in_base(16, LIMIT, &digits[2..]);
    }
    if !digits.is_empty() && digits[0] == b'0' {
        return in_base(8, LIMIT, digits);
    }
    in_base(10, DECIMAL_LIMIT, digits)
}
