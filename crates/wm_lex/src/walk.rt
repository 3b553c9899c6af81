// Whether a macro reaches itself: a walk through the lists of the macros, which goes into each macro once.
ghost use Rattle.std.specs.Prelude.{◌≡◌, ◌<◌, length, IfSome, IfOk, true, unwrap_or, [], ℕ, false};
ghost use Rattle.std.specs.Bool.{MatchBool};
ghost use Rattle.std.specs.List.{list_all};
ghost use Rattle.wm_lex.specs.Replacing.{loops, ends, sizes_of};
ghost use Rattle.wm_lex.specs.Stages.{IsStage};
ghost use Rattle.wm_lex.specs.Walks.{list_at, place_of};

use crate::definitions::{Definitions, Macro};
use crate::lexeme::Lexeme;
use std::alloc::Global;
use wm_ops::NoMemory;

/// The list of a macro; an empty one where it is not in force.
fn list_of_macro(found: &Macro) -> &[Lexeme]
    ensures { result.now ≡ unwrap_or found.now.lexemes [] }
{
    match &found.lexemes {
        None => &[],
        Some(list) => list.items(),
    }
}

/// The list of the macro at a place.
fn list_at(definitions: &Definitions, place: usize) -> &[Lexeme]
    requires { place < length definitions.now }
    ensures { result.now ≡ list_at definitions.now place }
{
    list_of_macro(definitions.macro_at(place))
}

/// The place of a macro in force that a lexeme is.
fn place_of(definitions: &Definitions, lexeme: &Lexeme) -> Option<usize>
    ensures place { result ≡ place_of definitions.now lexeme.now }
    ensures within { IfSome result (λ place. place < length definitions.now) }
{
    match lexeme {
        Lexeme::Word(name) => definitions.place_in_force(name.bytes()),
        Lexeme::Number(_) => None,
        Lexeme::Mark(_) => None,
    }
}

/// How far a walk has come with a macro.
#[derive(Clone, Copy)]
pub enum Stage {
    /// It has not come to it.
    Fresh,
    /// It is in its list.
    OnPath,
    /// All that its list reaches ends.
    Done,
}

/// How far the walk has come with the macro at a place. It has seen 0 of a fresh macro, one more than the lexemes of its list that
/// are done while it is on the path, and two more than the length of its list once it is done.
fn stage_of(definitions: &Definitions, seen: &[usize], place: usize) -> Stage
    requires place { place < length definitions.now }
    requires sized { length seen.now ≡ length definitions.now }
    ensures { IsStage definitions.now seen.now place result }
{
    if seen[place] == 0 {
        return Stage::Fresh;
    }
    if seen[place] < list_at(definitions, place).len() + 2 {
        return Stage::OnPath;
    }
    Stage::Done
}

/// Whether the macro at this place reaches itself, or reaches one that does.
pub fn reaches_itself(
    alloc: Global,
    definitions: &Definitions,
    start: usize,
) -> Result<bool, NoMemory>
    requires { start < length definitions.now }
    ensures { IfOk result (λ looped. MatchBool looped
        ((words : ℕ) → list_all (ends definitions.now words) (list_at definitions.now start) ≡ false)
        (list_all (ends definitions.now (sizes_of definitions.now)) (list_at definitions.now start) ≡ true)) }
{
    let mut seen = vec![in alloc; 0usize; definitions.len()]?;
    let mut path = Vec::new(alloc);
    seen[start] = 1;
    path.push(start)?;
    'path: while let Some(at) = path.last().copied() {
        let list = list_at(definitions, at);
        let done = seen[at].saturating_sub(1);
        if done >= list.len() {
            seen[at] = list.len() + 2;
            let _ = path.pop();
            continue;
        }
        let Some(inner) = place_of(definitions, &list[done]) else {
            seen[at] = done + 2;
            continue;
        };
        match stage_of(definitions, seen.as_slice(), inner) {
            Stage::Fresh => {
                seen[inner] = 1;
                path.push(inner)?;
                continue;
            }
            Stage::OnPath => return Ok(true),
            Stage::Done => {
                seen[at] = done + 2;
                continue;
            }
        }
    }
    Ok(false)
}

/// Whether a lexeme is a macro that reaches itself, or reaches one that does.
pub fn loops(alloc: Global, definitions: &Definitions, lexeme: &Lexeme) -> Result<bool, NoMemory>
    ensures { IfOk result (λ looped. looped ≡ loops definitions.now lexeme.now) }
{
    match place_of(definitions, lexeme) {
        None => Ok(false),
        Some(start) => reaches_itself(alloc, definitions, start),
    }
}
