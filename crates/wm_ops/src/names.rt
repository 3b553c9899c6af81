// From the bytes of a name to the operator or counted word of that name.
ghost use Rattle.std.specs.Prelude.{◌≡◌, ◌↔◌, Some};
ghost use Rattle.wm_ops.specs.declared.operators.Op as one;
ghost use Rattle.wm_ops.specs.declared.words.Counted as other;
ghost use Rattle.wm_ops.specs.Names.{op_named, word_named, Names, NamesWord};

use crate::operators::{ALL, Op};
use crate::search::{operator_in, word_in};
use crate::words::{Counted, OTHERS};

/// The operator of this C name, where `round_fx` names `round`; None exactly where the bytes are no such name.
pub fn by_name(name: &[u8]) -> Option<Op>
    ensures operator { result ≡ op_named name.now }
    ensures exact { (op : one.Op) → (result ≡ Some op) ↔ Names op name.now }
{
    if name == b"round_fx".as_slice() {
        return Some(Op::Round);
    }
    operator_in(&ALL, name)
}

/// The counted word of this name, where `round_fx` names `round`; None exactly where the bytes are no such name.
pub fn counted_by_name(name: &[u8]) -> Option<Counted>
    ensures word { result ≡ word_named name.now }
    ensures exact { (word : other.Counted) → (result ≡ Some word) ↔ NamesWord word name.now }
{
    match by_name(name) {
        Some(op) => Some(Counted::Operator(op)),
        None => word_in(&OTHERS, name),
    }
}
