//! Where the bound of two sides lies in the list of a half table, and one pass over all bounds of the list.

ghost use Rattle.std.specs.Prelude.{◌≡◌, ℕ, ◌+◌, ◌*◌, ◌<◌, ◌≤◌, ℤ, pos, length, slice_index_or};
ghost use Rattle.wm_octagon.specs.HalfTable.{IsSmall};
ghost use Rattle.wm_octagon.specs.Layout.{opposite, row_len, row_start, place, entry, table, IsBeside};

/// The greatest number of sides: two for each variable.
pub(crate) const MOST_SIDES: usize = 64;

/// The side of the same variable with the other sign.
#[inline(always)]
pub(crate) fn opposite(k: usize) -> usize
    requires { k < 64 }
    ensures { result ≡ opposite k }
{
    k + 1 - 2 * (k % 2)
}

/// How many columns row `k` has.
#[inline(always)]
pub(crate) fn row_len(k: usize) -> usize
    requires { k < 64 }
    ensures { result ≡ row_len k }
{
    k + 2 - k % 2
}

/// Where row `k` begins.
#[inline(always)]
pub(crate) fn row_start(k: usize) -> usize
    requires { k < 65 }
    ensures { result ≡ row_start k }
{
    (k + 1) * (k + 1) / 2
}

/// Where the bound of side `l` less side `k` stands in the list.
#[inline(always)]
#[tactic(auto, using(crate::proofs::Rows::place_below), unfolding(crate::specs::Layout::place))]
pub(crate) fn place(k: usize, l: usize) -> usize
    requires row { k < 64 }
    requires column { l < 64 }
    ensures at { result ≡ place k l }
    ensures low { result < 2112 }
{
    if l < row_len(k) {
        l + row_start(k)
    } else {
        opposite(k) + row_start(opposite(l))
    }
}

/// A new bound for each place of the list, told by the place and the bound that stands there.
pub(crate) trait Change {
    // how many sides it knows of
    ghost sides: { Self → ℕ };

    ghost value: { Self → ℕ → ℕ → ℤ → ℤ };

    // the columns of a row that it may change: the first, and how many there are
    ghost begin: { Self → ℕ → ℕ };

    ghost columns: { Self → ℕ → ℕ };

    fn changed(&self, k: usize, l: usize, bound: i64) -> i64
        requires row { k < sides self.now }
        requires column { l < sides self.now }
        requires small { IsSmall bound }
        ensures { result ≡ value self.now k l bound };

    fn first_column(&self, k: usize) -> usize
        requires row { k < sides self.now }
        ensures { result ≡ begin self.now k };

    fn column_count(&self, k: usize) -> usize
        requires row { k < sides self.now }
        ensures { result ≡ columns self.now k };
}

/// Changes the bounds of row `k` from the column `first` on.
#[inline(always)]
pub(crate) fn change_row<C: Change>(change: &C, k: usize, first: usize, row: &mut [i64])
    requires known { k < C.sides change.now }
    requires columns { first + length row.old ≤ C.sides change.now }
    requires few { first + length row.old ≤ 66 }
    requires small { (l : ℕ) → IsSmall (slice_index_or row.old l (pos 0)) }
    ensures { (l : ℕ) → l < length row.old → slice_index_or row.new l (pos 0) ≡ C.value change.now k (first + l) (slice_index_or row.old l (pos 0)) }
{
    for (l, bound) in row.iter_mut().enumerate() {
        *bound = change.changed(k, first + l, *bound);
    }
}

/// Changes the bounds of the list, row by row, at the columns that the change may change.
#[inline(always)]
pub(crate) fn change_all<C: Change>(change: &C, variables: usize, bounds: &mut [i64])
    requires few { variables ≤ 32 }
    requires known { 2 * variables ≤ C.sides change.now }
    requires whole { length bounds.old ≡ row_start (2 * variables) }
    requires small { (i : ℕ) → IsSmall (slice_index_or bounds.old i (pos 0)) }
    requires beside { IsBeside (2 * variables) (C.value change.now) (C.begin change.now) (C.columns change.now) bounds.old }
    ensures { bounds.new ≡ table (2 * variables) (λ k l. C.value change.now k l (entry bounds.old k l)) }
{
    let mut start = 0;
    for k in 0..2 * variables {
        let first = change.first_column(k);
        let begin = start + first;
        change_row(
            change,
            k,
            first,
            &mut bounds[begin..begin + change.column_count(k)],
        );
        start += row_len(k);
    }
}
