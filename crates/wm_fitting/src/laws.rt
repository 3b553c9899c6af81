// Laws on what a faultless reading of expressions gives.
ghost use Rattle.wm_fitting.specs.Laws.{SitesFit, ExpressionsFit};

/// It does nothing: its contract is a list of laws on the reading of expressions.
pub fn value_laws()
    ensures sites { SitesFit }
    ensures expressions { ExpressionsFit }
{}
