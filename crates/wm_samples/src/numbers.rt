// The numbers of a sample file: two's complement, the least byte first.
ghost use Rattle.std.specs.Prelude.{◌≡◌, drop, slice_index};
ghost use Rattle.wm_samples.specs.Numbers.{bytes_of, number_in};

use wm_ops::Width;

/// How many bytes a number takes.
pub(crate) fn bytes_of(width: Width) -> usize
    ensures { result ≡ bytes_of width }
{
    match width {
        Width::W16 => 2,
        Width::W32 => 4,
    }
}

/// The number at the front of the bytes.
pub(crate) fn number_in(width: Width, bytes: &[u8]) -> i64
    ensures { result ≡ number_in width bytes.now }
{
    let low = [byte_at(bytes, 0), byte_at(bytes, 1)];
    match width {
        Width::W16 => i16::from_le_bytes(low) as i64,
        Width::W32 => {
            let all = [low[0], low[1], byte_at(bytes, 2), byte_at(bytes, 3)];
            i32::from_le_bytes(all) as i64
        }
    }
}

/// The byte at a place, or 0 past the end, where a whole frame has none.
fn byte_at(bytes: &[u8], place: usize) -> u8
    ensures { result ≡ slice_index bytes.now place }
{
    match bytes.get(place) {
        Some(byte) => *byte,
        None => 0,
    }
}

/// The bytes behind the first `count`.
pub(crate) fn behind(bytes: &[u8], count: usize) -> &[u8]
    ensures { result.now ≡ drop count bytes.now }
{
    if count <= bytes.len() {
        &bytes[count..]
    } else {
        &[]
    }
}
