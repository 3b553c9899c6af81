// Where the statements of a loop, of a block and of a body lead.
ghost use Rattle.std.specs.Prelude.{◌≡◌, [], IfOk};
ghost use Rattle.wm_flow.specs.Parts.{at_exit};
ghost use Rattle.wm_control.specs.Seen.{around_of};
ghost use Rattle.wm_trees.specs.Laws.{leading};
ghost use Rattle.wm_statements.specs.Moves.{within_block};

use wm_control::Around;

/// Inside a loop, whose blocks are inside others.
#[tactic(auto, unfolding(wm_control::specs::Seen::around_of))]
pub(crate) fn leading<'a>(stop: u32, again: u32, exit: u32, far: &'a [u32]) -> Around<'a>
    ensures { around_of result ≡ leading stop again exit [] far.now }
{
    Around {
        stop,
        again,
        exit,
        near: &[],
        far,
    }
}

/// In a body, outside of its loops.
#[tactic(auto, unfolding(wm_control::specs::Seen::around_of))]
pub(crate) fn at_exit<'a>(exit: u32) -> Around<'a>
    ensures { around_of result ≡ at_exit exit }
{
    Around {
        stop: exit,
        again: exit,
        exit,
        near: &[],
        far: &[],
    }
}

/// In a block, whose scalars stand before those of the blocks around it.
#[tactic(auto, unfolding(wm_control::specs::Seen::around_of))]
pub(crate) fn in_block<'a>(near: &'a [u32], around: Around<'a>) -> Around<'a>
    ensures { around_of result ≡ within_block near.now (around_of around.entry) }
{
    Around {
        stop: around.stop,
        again: around.again,
        exit: around.exit,
        near,
        far: around.far,
    }
}
