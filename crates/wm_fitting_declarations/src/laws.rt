// Laws on what a reading of declarations gives.
ghost use Rattle.wm_fitting_declarations.specs.Laws.{DeclarationsFit, FileObjectsFit};

/// It does nothing: its contract is a list of laws on the reading of declarations.
pub fn declaration_laws()
    ensures declarations { DeclarationsFit }
    ensures objects { FileObjectsFit }
{}
