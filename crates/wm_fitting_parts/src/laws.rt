// Laws on what a faultless reading of the parts of statements and declarations gives.
ghost use Rattle.wm_fitting_parts.specs.Laws.{ActsFit, TestsFit, ReturnsFit, LengthsFit, ConstantsFit, ConversionsFit, ObjectsFit};

/// It does nothing: its contract is a list of laws on the reading of what stands in statements and declarations.
pub fn part_laws()
    ensures acts { ActsFit }
    ensures tests { TestsFit }
    ensures returns { ReturnsFit }
    ensures lengths { LengthsFit }
    ensures constants { ConstantsFit }
    ensures conversions { ConversionsFit }
    ensures objects { ObjectsFit }
{}
