// Single values of a specification: file names, names, numbers in a range.
ghost use Rattle.std.specs.Prelude.{◌≡◌, ◌≤ℤ◌, IfSome, option_map};
ghost use Rattle.std.specs.List.{list_all};
ghost use Rattle.toml.specs.View.{view};
ghost use Rattle.wm_spec.specs.Values.{is_file_name, is_name, is_file_byte, is_name_start, is_name_byte, text_in, number_in};
ghost use Rattle.wm_spec.specs.Kinds.{test_of};

use toml::Value;

/// What a text of a specification stands for.
#[derive(Clone, Copy, Debug, PartialEq, Eq)]
pub(crate) enum Kind {
    /// A file: 1 to 4,096 bytes, none of them below 32 and none 127.
    File,
    /// A name of the source: a letter or underscore, and then letters, digits and underscores.
    Name,
}

impl Kind {
    /// Whether a text may stand for it.
    pub(crate) fn takes(self, text: &[u8]) -> bool
        ensures { result ≡ test_of self text.now }
    {
        match self {
            Kind::File => is_file_name(text),
            Kind::Name => is_name(text),
        }
    }
}

const LONGEST_FILE_NAME: usize = 4096;

fn is_file_name(text: &[u8]) -> bool
    ensures { result ≡ is_file_name text.now }
{
    if text.is_empty() {
        return false;
    }
    if text.len() > LONGEST_FILE_NAME {
        return false;
    }
    are_file_bytes(text)
}

fn are_file_bytes(text: &[u8]) -> bool
    ensures { result ≡ list_all is_file_byte text.now }
{
    for byte in text {
        if !is_file_byte(*byte) {
            return false;
        }
    }
    true
}

fn is_file_byte(byte: u8) -> bool
    ensures { result ≡ is_file_byte byte }
{
    byte >= 32 && byte != 127
}

fn is_name(text: &[u8]) -> bool
    ensures { result ≡ is_name text.now }
{
    match text.split_first() {
        Some((first, rest)) => {
            if !is_name_start(*first) {
                return false;
            }
            are_name_bytes(rest)
        }
        None => false,
    }
}

fn is_name_start(byte: u8) -> bool
    ensures { result ≡ is_name_start byte }
{
    byte.is_ascii_alphabetic() || byte == b'_'
}

fn are_name_bytes(text: &[u8]) -> bool
    ensures { result ≡ list_all is_name_byte text.now }
{
    for byte in text {
        if !is_name_byte(*byte) {
            return false;
        }
    }
    true
}

fn is_name_byte(byte: u8) -> bool
    ensures { result ≡ is_name_byte byte }
{
    byte.is_ascii_alphanumeric() || byte == b'_'
}

/// The text of a value, where it may stand for this.
pub(crate) fn text_in(kind: Kind, value: &Value) -> Option<&[u8]>
    ensures { option_map (λ text. text.now) result ≡ text_in (test_of kind) (view value.now) }
{
    let Value::String(text) = value else {
        return None;
    };
    let text = text.as_str().as_bytes();
    if kind.takes(text) { Some(text) } else { None }
}

/// The number of a value, where it lies from `low` to `high`.
pub(crate) fn number_in(low: i64, high: i64, value: &Value) -> Option<i64>
    ensures value { result ≡ number_in low high (view value.now) }
    ensures within { IfSome result (λ number. (low ≤ℤ number) × (number ≤ℤ high)) }
{
    match value {
        Value::Integer(number) if low <= *number && *number <= high => Some(*number),
        _ => None,
    }
}
