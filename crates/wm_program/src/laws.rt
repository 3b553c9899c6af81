// Facts about the definitions of what programs do, by which a reader can check them.
ghost use Rattle.wm_program.specs.Laws.{GoesOn, GetsOn, RunsOn, ChoosesOn, StepsOn, GoesNowhere};
ghost use Rattle.wm_program.specs.Examples.{QuotientStops, SizeSaturates, ShiftingRunsOut, UnsetStops, RatesCount, RatesBegin, HalvingStops, NarrowStops, EndlessCounts, FilledSaturates, QuotientFails, HalvingFails};

/// It does nothing: its contract is a list of laws on what joins two executions.
pub fn execution_laws()
    ensures goes_on { GoesOn }
    ensures gets_on { GetsOn }
    ensures runs_on { RunsOn }
    ensures chooses_on { ChoosesOn }
    ensures steps_on { StepsOn }
    ensures goes_nowhere { GoesNowhere }
{}

/// It does nothing: its contract tells what small programs do.
#[tactic(auto, using(crate::proofs::Worked::quotient_stops, crate::proofs::Worked::size_saturates, crate::proofs::Worked::shifting_runs_out, crate::proofs::Worked::unset_stops, crate::proofs::Worked::rates_count, crate::proofs::Worked::rates_begin, crate::proofs::Worked::halving_stops, crate::proofs::Worked::narrow_stops, crate::proofs::Worked::endless_counts, crate::proofs::Worked::filled_saturates, crate::proofs::Worked::quotient_fails, crate::proofs::Worked::halving_fails))]
pub fn execution_examples()
    ensures quotient_stops { QuotientStops }
    ensures size_saturates { SizeSaturates }
    ensures shifting_runs_out { ShiftingRunsOut }
    ensures unset_stops { UnsetStops }
    ensures rates_count { RatesCount }
    ensures rates_begin { RatesBegin }
    ensures halving_stops { HalvingStops }
    ensures narrow_stops { NarrowStops }
    ensures endless_counts { EndlessCounts }
    ensures filled_saturates { FilledSaturates }
    ensures quotient_fails { QuotientFails }
    ensures halving_fails { HalvingFails }
{}
