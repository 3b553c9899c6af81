// The least and the greatest cell of an array that begins with some values.
ghost use Rattle.std.specs.Prelude.{◌≡◌};
ghost use Rattle.wm_flow.specs.Seats as seats;

fn least_of(z: i64, values: &[i64]) -> i64
    ensures { result ≡ seats.least_of z values.now }
{
    let mut least = z;
    for value in values {
        if *value < least {
            least = *value;
        }
    }
    least
}

fn greatest_of(z: i64, values: &[i64]) -> i64
    ensures { result ≡ seats.greatest_of z values.now }
{
    let mut greatest = z;
    for value in values {
        if *value > greatest {
            greatest = *value;
        }
    }
    greatest
}

/// A number that is among the cells.
fn some_value(count: u32, values: &[i64]) -> i64
    ensures { result ≡ seats.some_value count values.now }
{
    match values.split_first() {
        None => 0,
        Some((first, rest)) => {
            if rest.len() + 1 < count as usize {
                return 0;
            }
            *first
        }
    }
}

/// The least cell of an array of this length; the cells behind the values are 0.
pub fn low_of(count: u32, values: &[i64]) -> i64
    ensures { result ≡ seats.low_of count values.now }
{
    least_of(some_value(count, values), values)
}

/// The greatest cell of an array of this length; the cells behind the values are 0.
pub fn high_of(count: u32, values: &[i64]) -> i64
    ensures { result ≡ seats.high_of count values.now }
{
    greatest_of(some_value(count, values), values)
}
