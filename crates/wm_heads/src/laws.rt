// The heads of the graph of a well-formed program.
ghost use Rattle.wm_heads.specs.Laws.{FormedHeadsStand, FormedGraphsAreOrderly, FormedGraphsAreHeaded};

/// It does nothing: its contract tells of each well-formed program, whose loops stand once each in the bodies and are numbered
/// in the order of the source, that each head of its graph is begun once; so each has its one entry and its one back edge.
/// Its edges are in order in any case.
pub fn head_laws()
    ensures begun { FormedHeadsStand }
    ensures orderly { FormedGraphsAreOrderly }
    ensures headed { FormedGraphsAreHeaded }
{}
