// Laws on the number of objects that a reading makes.
ghost use Rattle.wm_fitting_statics.specs.Laws.{BlocksCount, FunctionsCount};

/// It does nothing: its contract is a list of laws on the number of objects that are made.
pub fn static_laws()
    ensures blocks { BlocksCount }
    ensures functions { FunctionsCount }
{}
