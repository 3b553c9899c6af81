//! What a command and the files come to.

ghost use Rattle.std.specs.Prelude.{◌≡◌, ◌≤◌, map, string_bytes, IfErr, IfOk};
ghost use Rattle.wm_words.specs.Seen.{seen};
ghost use Rattle.wm_run.specs.Leads.{FromForm, LeadsTo};
ghost use Rattle.wm_run.specs.Outcome.{IsOwn, decided};
ghost use Rattle.wm_run.specs.World.{world_of};

use crate::checking::check;
use crate::demo::demo;
use crate::outcome::Outcome;
use crate::proving::{headroom, prove, worst};
use crate::sampling::{observe, replay};
use std::alloc::Global;
use wm_files::Files;
use wm_ops::NoMemory;
use wm_report::RunFault;
use wm_words::{Command, read_words};

/// What a command and the files come to.
fn commanded<F: Files>(
    alloc: Global,
    command: Command<'_>,
    files: &mut F,
) -> Result<Outcome, NoMemory>
    ensures leads { IfOk result (λ o. FromForm (world_of (F.held files.old) (F.held files.new) (F.faults files.old) (F.faults files.new)) (seen command.entry) (decided o)) }
    ensures own { IfOk result (λ o. IsOwn (decided o)) }
    ensures kept { IfErr result (λ e. F.held files.new ≡ F.held files.old) }
    ensures count { F.faults files.old ≤ F.faults files.new }
{
    match command {
        Command::Prove { spec } => prove(alloc, spec.as_bytes(), files),
        Command::Check { spec } => check(alloc, spec.as_bytes(), files),
        Command::Replay { spec, samples } => {
            replay(alloc, spec.as_bytes(), samples.as_bytes(), files)
        }
        Command::Demo { stages } => demo(alloc, stages),
        Command::Worst { spec } => worst(alloc, spec.as_bytes(), files),
        Command::Headroom { spec } => headroom(alloc, spec.as_bytes(), files),
        Command::Observe { spec, samples } => {
            observe(alloc, spec.as_bytes(), samples.as_bytes(), files)
        }
        Command::BadWords => Ok(Outcome::Fault {
            fault: RunFault::Words,
        }),
    }
}

/// What the words and the files come to.
pub(crate) fn outcome_of<F: Files>(
    alloc: Global,
    words: &[String],
    files: &mut F,
) -> Result<Outcome, NoMemory>
    ensures leads { IfOk result (λ o. LeadsTo (map string_bytes words.now) (world_of (F.held files.old) (F.held files.new) (F.faults files.old) (F.faults files.new)) (decided o)) }
    ensures own { IfOk result (λ o. IsOwn (decided o)) }
    ensures kept { IfErr result (λ e. F.held files.new ≡ F.held files.old) }
    ensures count { F.faults files.old ≤ F.faults files.new }
{
    commanded(alloc, read_words(words), files)
}
