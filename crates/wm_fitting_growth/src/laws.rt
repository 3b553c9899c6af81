// Laws on what the reading of expressions and acts collects.
ghost use Rattle.wm_fitting_growth.specs.Laws.{ExpressionsGrow, NumbersGrow, ConditionsGrow, CallsGrow};

/// It does nothing: its contract is a list of laws on what the reading of expressions collects.
pub fn growth_laws()
    ensures expressions { ExpressionsGrow }
    ensures numbers { NumbersGrow }
    ensures conditions { ConditionsGrow }
    ensures calls { CallsGrow }
{}
