// Laws on what a reading of a unit gives.
ghost use Rattle.wm_fitting_units.specs.Laws.{UnitsFit};

/// It does nothing: its contract is a list of laws on the reading of units.
pub fn unit_laws()
    ensures units { UnitsFit }
{}
