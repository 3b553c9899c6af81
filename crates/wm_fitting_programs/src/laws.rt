// Laws on the program that is made of two ways through a unit.
ghost use Rattle.wm_fitting_programs.specs.Laws.{ProgramsFit, OffsetsCount, ChoosersFit, FramesFit};

/// It does nothing: its contract is a list of laws on the program that is made.
pub fn program_laws()
    ensures programs { ProgramsFit }
    ensures offsets { OffsetsCount }
    ensures choosers { ChoosersFit }
    ensures frames { FramesFit }
{}
