// Laws on what a faultless reading of assignments, steps and calls gives.
ghost use Rattle.wm_fitting_acts.specs.Laws.{NumbersFit, ConditionsFit, SimplesFit};

/// It does nothing: its contract is a list of laws on the reading of numbers, conditions, assignments, steps and calls.
pub fn act_laws()
    ensures numbers { NumbersFit }
    ensures conditions { ConditionsFit }
    ensures simples { SimplesFit }
{}
