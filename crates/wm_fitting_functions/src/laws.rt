// Laws on what a reading of a function gives.
ghost use Rattle.wm_fitting_functions.specs.Laws.{FunctionsFit};

/// It does nothing: its contract is a list of laws on the reading of functions.
pub fn function_laws()
    ensures functions { FunctionsFit }
{}
