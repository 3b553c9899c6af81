// A law on paths, by which a reader can check the definition of the greatest weight.
ghost use Rattle.wm_ways.specs.Paths.{NoPathWeighsMore};

/// It does nothing: its contract tells that no path weighs more than what is known once the edges are taken.
pub fn path_laws()
    ensures no_path_weighs_more { NoPathWeighsMore }
{}
