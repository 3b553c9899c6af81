// Laws on what a reading of statements gives.
ghost use Rattle.wm_fitting_statements.specs.Laws.{StatementsFit, BlocksFit, StepsFit};

/// It does nothing: its contract is a list of laws on the reading of statements.
pub fn statement_laws()
    ensures statements { StatementsFit }
    ensures blocks { BlocksFit }
    ensures steps { StepsFit }
{}
