// The shapes of the nodes of a graph.
ghost use Rattle.wm_shaped.specs.Laws.{FormedAreShaped};

/// It does nothing: its contract tells of each well-formed program, whose loops stand once each in the bodies and are numbered
/// in the order of the source, that each node of its graph has the shape of its instance with the counters of the loops that
/// are open there, the sum counters of the innermost one, and its temporaries.
pub fn shape_laws()
    ensures shaped { FormedAreShaped }
{}
