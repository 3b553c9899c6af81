// Look-ups in a slice of rows that is handed in.
ghost use Rattle.std.specs.Prelude.{◌≡◌, slice_get};
ghost use Rattle.std.specs.Option.{option_copied};
ghost use Rattle.wm_ops.specs.Names.{first_named, first_word};

use crate::operators::{Op, name};
use crate::words::{Counted, counted_name};

/// The item at this place; None exactly past the end.
pub(crate) fn item_at<T>(items: &[T], place: usize) -> Option<&T>
    ensures item { option_copied result ≡ slice_get items.now place }
{
    items.get(place)
}

/// The first of these operators that has this name.
pub(crate) fn operator_in(operators: &[Op], bytes: &[u8]) -> Option<Op>
    ensures first { result ≡ first_named operators.now bytes.now }
{
    for operator in operators {
        if name(*operator) == bytes {
            return Some(*operator);
        }
    }
    None
}

/// The first of these counted words that has this name.
pub(crate) fn word_in(words: &[Counted], bytes: &[u8]) -> Option<Counted>
    ensures first { result ≡ first_word words.now bytes.now }
{
    for word in words {
        if counted_name(*word) == bytes {
            return Some(*word);
        }
    }
    None
}
