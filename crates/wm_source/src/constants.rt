// The values of constant expressions (C99 6.6): exact, and each value on the way lies in 32 bits.
ghost use Rattle.std.specs.Prelude.{◌≡◌, ℤ, Option, Some, None, IfSome};
ghost use Rattle.wm_numbers.specs.Within.{IsWord32};
ghost use Rattle.wm_source.specs.Constants.{width_of, wrapped, within32, and_also, operated, signed, value_on, constant_of};
ghost use Rattle.wm_source.specs.Reading.{parts_of, sum_mark, product_mark, source_of};
ghost use Rattle.wm_source.specs.Written.{sum_parts, product_parts};
ghost use Rattle.wm_source.specs.Source.{Plus, Minus, Times, Divide};

use sqlite_items::Items;
use wm_lang::{BaseType, Expr, Part, ProductMark, SumMark, UnaryMark};
use wm_numbers::floor_shift;
use wm_ops::Width;

/// The width of a type. `Flag` and `int` have 32 bits.
pub fn width(base: BaseType) -> Width
    ensures width { result ≡ width_of base }
{
    match base {
        BaseType::Word16 => Width::W16,
        BaseType::Word32 => Width::W32,
        BaseType::Flag => Width::W32,
        BaseType::Int => Width::W32,
    }
}

/// What a number of 32 bits becomes by a cast to this width: to 16 bits its low half.
pub fn wrap(width: Width, z: i64) -> i64
    requires { IsWord32 z }
    ensures wrapped { result ≡ wrapped width z }
    ensures fits { IsWord32 result }
{
    match width {
        Width::W16 => z - floor_shift(z + 32768, 16) * 65536,
        Width::W32 => z,
    }
}

fn within(z: i64) -> Option<i64>
    ensures value { result ≡ within32 z }
    ensures fits { IfSome result (λ z. IsWord32 z) }
{
    if z < -2147483648 || 2147483647 < z {
        return None;
    }
    Some(z)
}

fn added(mark: SumMark, a: i64, b: i64) -> Option<i64>
    requires first { IsWord32 a }
    requires second { IsWord32 b }
    ensures value { result ≡ operated (sum_mark mark) a b }
    ensures fits { IfSome result (λ z. IsWord32 z) }
{
    match mark {
        SumMark::Plus => within(a + b),
        SumMark::Minus => within(a - b),
    }
}

fn multiplied(mark: ProductMark, a: i64, b: i64) -> Option<i64>
    requires first { IsWord32 a }
    requires second { IsWord32 b }
    ensures value { result ≡ operated (product_mark mark) a b }
    ensures fits { IfSome result (λ z. IsWord32 z) }
{
    match mark {
        ProductMark::Times => within(a * b),
        ProductMark::Divide => {
            if b == 0 {
                return None;
            }
            within(a / b)
        }
    }
}

fn with_sign(mark: UnaryMark, z: i64) -> Option<i64>
    requires { IsWord32 z }
    ensures value { result ≡ signed mark z }
    ensures fits { IfSome result (λ z. IsWord32 z) }
{
    match mark {
        UnaryMark::Minus => within(-z),
        UnaryMark::Plus => Some(z),
        UnaryMark::Not => None,
    }
}

#[cycle(constant)]
fn sums(rest: &Items<Part<SumMark, Expr>>, first: i64) -> Option<i64>
    requires { IsWord32 first }
    ensures value { result ≡ value_on first (sum_parts rest.now) }
    ensures fits { IfSome result (λ z. IsWord32 z) }
{
    let mut value = first;
    for part in rest.as_slice() {
        value = added(part.mark, value, constant(&part.operand)?)?;
    }
    Some(value)
}

#[cycle(constant)]
fn products(rest: &Items<Part<ProductMark, Expr>>, first: i64) -> Option<i64>
    requires { IsWord32 first }
    ensures value { result ≡ value_on first (product_parts rest.now) }
    ensures fits { IfSome result (λ z. IsWord32 z) }
{
    let mut value = first;
    for part in rest.as_slice() {
        value = multiplied(part.mark, value, constant(&part.operand)?)?;
    }
    Some(value)
}

/// The value of a constant expression: numbers, signs, `+ - * /`, casts and parentheses. None where it is none, as where
/// a value on the way leaves 32 bits or a divisor is 0.
#[cycle(constant)]
pub fn constant(expression: &Expr) -> Option<i64>
    ensures value { result ≡ constant_of expression.now }
    ensures fits { IfSome result (λ z. IsWord32 z) }
{
    match expression {
        Expr::Sum(chain) => sums(&chain.rest, constant(chain.first.get())?),
        Expr::Product(chain) => products(&chain.rest, constant(chain.first.get())?),
        Expr::Unary { mark, operand, .. } => with_sign(*mark, constant(operand.get())?),
        Expr::Cast { to, operand, .. } => Some(wrap(width(*to), constant(operand.get())?)),
        Expr::Number { value, .. } => within(*value),
        Expr::Parenthesis { inner, .. } => constant(inner.get()),
        Expr::Or(_)
        | Expr::And(_)
        | Expr::Equality(_)
        | Expr::Relation(_)
        | Expr::Spot(_)
        | Expr::Call(_)
        | Expr::Address { .. } => None,
    }
}

#[cfg(test)]
mod tests {
    use super::{constant, wrap};
    use std::process::Abort;
    use std::test::Fail;
    use wm_lang::{Expr, Place, Position};
    use wm_ops::Width;

    #[test]
    fn casts_to_16_bits(rt: HostRuntime) {
        for (z, low) in [
            (0, 0),
            (32767, 32767),
            (32768, -32768),
            (65535, -1),
            (65536, 0),
            (-32769, 32767),
            (2147483647, -1),
            (-2147483648, 0),
        ] {
            assert_eq!(rt; wrap(Width::W16, z), low);
            assert_eq!(rt; wrap(Width::W32, z), z);
        }
    }

    #[test]
    fn numbers_of_32_bits(rt: HostRuntime) -> Result<(), Fail> {
        let place = Place {
            file: 0,
            line: 1,
            column: 1,
        };
        let at = Position { token: 0, place };
        for (value, expected) in [
            (2147483647, Some(2147483647)),
            (-2147483648, Some(-2147483648)),
            (2147483648, None),
        ] {
            assert_eq!(rt; constant(&Expr::Number { at, value }), expected);
        }
        Ok(())
    }
}
