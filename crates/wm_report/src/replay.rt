// The text of a replay.
ghost use Rattle.std.specs.Prelude.{◌≡◌, ◌++◌, OnOk, IfOk};
ghost use Rattle.wm_report.specs.Replay.{part_words, site_words, event_line, event_lines, end_words, end_line, result_lines, frame_lines, init_lines, replay_text};

use crate::words::cause_word;
use std::alloc::{AllocError, Global};
use wm_digits::{push_number, push_signed, push_wide};
use wm_ops::NoMemory;
use wm_program::{Cause, End, Event, FrameResult, Program};

/// Whose lines they are.
#[derive(Clone, Copy)]
enum Part {
    Init,
    /// A frame, from 1.
    Frame(u64),
}

fn push_part(text: &mut Vec<u8>, part: Part) -> Result<(), AllocError>
    ensures { OnOk result (text.new.items ≡ text.old.items ++ part_words part) }
{
    match part {
        Part::Init => text.extend_from_slice(b"init"),
        Part::Frame(k) => {
            text.extend_from_slice(b"frame ")?;
            push_number(text, k)
        }
    }
}

/// A site, which counts from 1 in a text, and a cause.
#[tactic(auto, unfolding(crate::specs::Replay::site_words))]
fn push_site(text: &mut Vec<u8>, site: u32, cause: Cause) -> Result<(), AllocError>
    ensures { OnOk result (text.new.items ≡ text.old.items ++ site_words site cause) }
{
    text.extend_from_slice(b"site ")?;
    push_number(text, u64::from(site) + 1)?;
    text.extend_from_slice(b" ")?;
    text.extend_from_slice(cause_word(cause))
}

#[tactic(auto, unfolding(crate::specs::Replay::event_line))]
fn push_event(text: &mut Vec<u8>, part: Part, event: Event) -> Result<(), AllocError>
    ensures { OnOk result (text.new.items ≡ text.old.items ++ event_line part event) }
{
    push_part(text, part)?;
    text.extend_from_slice(b" ")?;
    push_site(text, event.site, event.cause)?;
    text.extend_from_slice(b" ")?;
    push_wide(text, event.times)?;
    text.extend_from_slice(b"\n")
}

fn push_end(text: &mut Vec<u8>, end: End) -> Result<(), AllocError>
    ensures { OnOk result (text.new.items ≡ text.old.items ++ end_words end) }
{
    match end {
        End::Ended => text.extend_from_slice(b"ended"),
        End::Stopped { site, cause } => {
            text.extend_from_slice(b"stopped ")?;
            push_site(text, site, cause)
        }
        End::StepLimit => text.extend_from_slice(b"steps"),
    }
}

#[tactic(auto, unfolding(crate::specs::Replay::end_line))]
fn push_end_line(text: &mut Vec<u8>, part: Part, found: &FrameResult) -> Result<(), AllocError>
    ensures { OnOk result (text.new.items ≡ text.old.items ++ end_line part found.now) }
{
    push_part(text, part)?;
    text.extend_from_slice(b" count ")?;
    push_wide(text, found.count)?;
    text.extend_from_slice(b" overflow ")?;
    push_signed(text, found.overflow)?;
    text.extend_from_slice(b" ")?;
    push_end(text, found.end)?;
    text.extend_from_slice(b"\n")
}

fn push_events(text: &mut Vec<u8>, part: Part, events: &[Event]) -> Result<(), AllocError>
    ensures { OnOk result (text.new.items ≡ text.old.items ++ event_lines part events.now) }
{
    for event in events {
        push_event(text, part, *event)?;
    }
    Ok(())
}

/// The failures and the end of a part.
#[tactic(auto, unfolding(crate::specs::Replay::result_lines))]
fn push_result(text: &mut Vec<u8>, part: Part, found: &FrameResult) -> Result<(), AllocError>
    ensures { OnOk result (text.new.items ≡ text.old.items ++ result_lines part found.now) }
{
    push_events(text, part, found.events.items())?;
    push_end_line(text, part, found)
}

fn push_frames(text: &mut Vec<u8>, frames: &[FrameResult]) -> Result<(), AllocError>
    ensures { OnOk result (text.new.items ≡ text.old.items ++ frame_lines 1 frames.now) }
{
    for (k, found) in frames.iter().enumerate() {
        push_result(text, Part::Frame(k as u64 + 1), found)?;
    }
    Ok(())
}

fn push_init(text: &mut Vec<u8>, init: Option<u32>, start: &FrameResult) -> Result<(), AllocError>
    ensures { OnOk result (text.new.items ≡ text.old.items ++ init_lines init start.now) }
{
    match init {
        None => Ok(()),
        Some(_) => push_result(text, Part::Init, start),
    }
}

/// The text of a replay: what came of the start, where the program has an init, and of each frame that was run. Frames
/// and sites count from 1.
#[tactic(auto, unfolding(crate::specs::Replay::replay_text))]
pub fn replay_text(
    alloc: Global,
    program: &Program,
    start: &FrameResult,
    frames: &[FrameResult],
) -> Result<Vec<u8>, NoMemory>
    ensures text { IfOk result (λ text. text.items ≡ replay_text program.now.init start.now frames.now) }
{
    let mut text = Vec::from_slice(alloc, b"wmops replay 1\n")?;
    push_init(&mut text, program.init, start)?;
    push_frames(&mut text, frames)?;
    Ok(text)
}
