// The times of the words by their weights.
ghost use Rattle.wm_worst_laws.specs.Sums.{MakesTheBound, TimesAddUp};

/// It does nothing: its contract tells that the times of the words that are printed, each by its weight, add up to the weight of
/// the choice and so to the bound, and that no number of times that is printed is cut.
pub fn sum_laws()
    ensures times_add_up { TimesAddUp }
    ensures makes_the_bound { MakesTheBound }
{}
