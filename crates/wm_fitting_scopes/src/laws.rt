// Laws on the names in force at a place.
ghost use Rattle.wm_fitting_scopes.specs.Laws.{DeclaredFit, OpenedFit, LeftAsEntered, LocalsFit, ObjectsFit, ParametersFit};

/// It does nothing: its contract is a list of laws on the names in force at a place.
pub fn scope_laws()
    ensures declared { DeclaredFit }
    ensures opened { OpenedFit }
    ensures left { LeftAsEntered }
    ensures locals { LocalsFit }
    ensures objects { ObjectsFit }
    ensures parameters { ParametersFit }
{}
