// The graphs that are laid out.
ghost use Rattle.wm_laid.specs.Laws.{HeadedAreLaidOut, FormedAreLaidOut};

/// It does nothing: its contract tells that a graph whose edges are in order, and whose heads have their one entry and their one
/// back edge each, is laid out as the laws on paths and choices ask; and so is that of each well-formed program whose loops
/// stand once each.
pub fn laid_laws()
    ensures headed { HeadedAreLaidOut }
    ensures formed { FormedAreLaidOut }
{}
