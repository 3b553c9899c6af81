// Laws on the instances of a program.
ghost use Rattle.wm_laid_instances.specs.Laws.{RootsCount, FrameStands, InitStands, FunctionsThere, LaidWhereThere};

/// It does nothing: its contract is a list of laws on the instances of init and of the frame function.
pub fn laid_laws()
    ensures roots { RootsCount }
    ensures frame { FrameStands }
    ensures init { InitStands }
    ensures functions { FunctionsThere }
    ensures laid { LaidWhereThere }
{}
