// The neighbours of a number in a sorted list.
ghost use Rattle.std.specs.Prelude.{◌≡◌, ◌↔◌, IsTrue, ◌≤◌, ◌<◌, ℕ, ℤ, pos, ◌≤ℤ◌, ◌<ℤ◌, MatchOption, slice_index_or, length};
ghost use Rattle.wm_numbers.specs.Extremes.{LeastOf, GreatestOf};
ghost use Rattle.wm_grid.specs.Grid.{IsAtOrAbove, IsAtOrBelow, Ascends};

/// The number at a place.
fn number_at(numbers: &[i64], place: usize) -> i64
    requires { place < length numbers.now }
    ensures { result ≡ slice_index_or numbers.now place (pos 0) }
{
    numbers[place]
}

/// Whether the number at a place is below `z`.
fn is_below(numbers: &[i64], place: usize, z: i64) -> bool
    requires { place < length numbers.now }
    ensures { IsTrue result ↔ (slice_index_or numbers.now place (pos 0) <ℤ z) }
{
    number_at(numbers, place) < z
}

/// Whether the number at a place is at most `z`.
fn is_at_most(numbers: &[i64], place: usize, z: i64) -> bool
    requires { place < length numbers.now }
    ensures { IsTrue result ↔ (slice_index_or numbers.now place (pos 0) ≤ℤ z) }
{
    number_at(numbers, place) <= z
}

/// How many numbers of the list are below `z`.
fn count_below(numbers: &[i64], z: i64) -> usize
    requires { Ascends numbers.now }
    ensures within { result ≤ length numbers.now }
    ensures below { (k : ℕ) (d : ℤ) → k < result → slice_index_or numbers.now k d <ℤ z }
    ensures above { (k : ℕ) (d : ℤ) → result ≤ k → k < length numbers.now → z ≤ℤ slice_index_or numbers.now k d }
{
    let mut low = 0;
    let mut high = numbers.len();
    while low < high {
        let middle = low + (high - low) / 2;
        if is_below(numbers, middle, z) {
            low = middle + 1;
        } else {
            high = middle;
        }
    }
    low
}

/// How many numbers of the list are at most `z`.
fn count_to(numbers: &[i64], z: i64) -> usize
    requires { Ascends numbers.now }
    ensures within { result ≤ length numbers.now }
    ensures below { (k : ℕ) (d : ℤ) → k < result → slice_index_or numbers.now k d ≤ℤ z }
    ensures above { (k : ℕ) (d : ℤ) → result ≤ k → k < length numbers.now → z <ℤ slice_index_or numbers.now k d }
{
    let mut low = 0;
    let mut high = numbers.len();
    while low < high {
        let middle = low + (high - low) / 2;
        if is_at_most(numbers, middle, z) {
            low = middle + 1;
        } else {
            high = middle;
        }
    }
    low
}

/// The least number of the list at or above `z`.
pub fn first_at_or_above(numbers: &[i64], z: i64) -> Option<i64>
    requires { Ascends numbers.now }
    ensures { MatchOption result ((y : ℤ) → IsAtOrAbove numbers.now z y → ⊥) (λ y. LeastOf (IsAtOrAbove numbers.now z) y) }
{
    let place = count_below(numbers, z);
    if place >= numbers.len() {
        return None;
    }
    Some(number_at(numbers, place))
}

/// The greatest number of the list at or below `z`.
pub fn last_at_or_below(numbers: &[i64], z: i64) -> Option<i64>
    requires { Ascends numbers.now }
    ensures { MatchOption result ((y : ℤ) → IsAtOrBelow numbers.now z y → ⊥) (λ y. GreatestOf (IsAtOrBelow numbers.now z) y) }
{
    let place = count_to(numbers, z);
    if place == 0 {
        return None;
    }
    Some(number_at(numbers, place - 1))
}
