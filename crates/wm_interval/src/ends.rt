//! The lesser and the greater of two numbers, and of four.

ghost use Rattle.std.specs.Prelude.{◌≡◌};
ghost use Rattle.std.specs.Int.{int_max, int_min};

pub fn lesser(a: i64, b: i64) -> i64
    ensures { result ≡ int_min a b }
{
    if a < b { a } else { b }
}

pub fn greater(a: i64, b: i64) -> i64
    ensures { result ≡ int_max a b }
{
    if a < b { b } else { a }
}

pub fn least_of_four(a: i64, b: i64, c: i64, d: i64) -> i64
    ensures { result ≡ int_min (int_min a b) (int_min c d) }
{
    lesser(lesser(a, b), lesser(c, d))
}

pub fn greatest_of_four(a: i64, b: i64, c: i64, d: i64) -> i64
    ensures { result ≡ int_max (int_max a b) (int_max c d) }
{
    greater(greater(a, b), greater(c, d))
}
