// The first of the paths of greatest weight, the worst of all choices, and the bound of a frame.
ghost use Rattle.wm_path_laws.specs.Bound.{TellsTheBound};
ghost use Rattle.wm_path_laws.specs.Paths.{PicksTheFirst};
ghost use Rattle.wm_path_laws.specs.Worst.{EachListIsChosen, GivesTheWorst, OneIsWorst};

/// It does nothing: its contract tells that the edges which are picked are a path to an end, that it weighs what is known at
/// its beginning, that no path to an end weighs more, and that none of the same weight comes before it in the order of lists.
pub fn pick_laws()
    ensures picks_the_first { PicksTheFirst }
{}

/// It does nothing: its contract tells that the choice which `worst_path` gives is the worst choice of a frame, that no other is,
/// and that each list of edges is that of a choice.
pub fn choice_laws()
    ensures gives_the_worst { GivesTheWorst }
    ensures one_is_worst { OneIsWorst }
    ensures each_list_is_chosen { EachListIsChosen }
{}

/// It does nothing: its contract tells that the bound of a frame is the greatest weight of all choices, that some choice weighs more
/// than 10^15 where it is too large, and that else it names the first loop without a bound on its turns.
pub fn bound_laws()
    ensures tells_the_bound { TellsTheBound }
{}
