// Laws on what the reading of acts and of the parts of statements collects.
ghost use Rattle.wm_fitting_growth_acts.specs.Laws.{ActsGrow, TestsGrow, ReturnsGrow, LengthsGrow, ConstantsGrow, ConversionsGrow};

/// It does nothing: its contract is a list of laws on what the reading of acts and of the parts of statements collects.
pub fn growth_laws()
    ensures acts { ActsGrow }
    ensures tests { TestsGrow }
    ensures returns { ReturnsGrow }
    ensures lengths { LengthsGrow }
    ensures constants { ConstantsGrow }
    ensures conversions { ConversionsGrow }
{}
