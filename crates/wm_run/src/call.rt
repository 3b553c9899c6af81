//! The top call: it puts the one text of what the words and the files come to, and tells the status.

ghost use Rattle.std.specs.Prelude.{◌≡◌, ◌≤◌, ◌⊎◌, map, string_bytes};
ghost use Rattle.wm_words.specs.Words.{form_of};
ghost use Rattle.wm_run.specs.Outcome.{IsOwn, decided, status_of, text_of};
ghost use Rattle.wm_run.specs.World.{world_of};
ghost use Rattle.wm_run.specs.Ends.{call_of, Answered, Ends, EndsAsTold, HeldBy, OnlyMemory, PutAnswer, ReadFails, SinkFails, UnknownWords, WriteFails};
ghost use Rattle.wm_run.specs.Completeness.{CheckCompletes, CheckRefuses, DemoCompletes, HeadroomCompletes, ObserveCompletes, ProveCompletes, ReplayCompletes, TellsRefusal, WorstCompletes};

use crate::command::outcome_of;
use crate::outcome::Outcome;
use std::alloc::Global;
use wm_files::{Files, Sink, WriteFault};

/// Says that memory ran out, as far as the sink takes it.
fn put_memory<S: Sink>(out: &mut S) -> u8
    ensures end { OnlyMemory (S.written out.old) (S.written out.new) result }
    ensures count { S.faults out.old ≤ S.faults out.new }
{
    let _ = out.put(b"fault 7 memory\n");
    7
}

/// Puts a text, and tells its status where it is put whole.
fn put_text<S: Sink>(status: u8, text: &[u8], out: &mut S) -> u8
    ensures end { PutAnswer status text.now (S.written out.old) (S.written out.new) (S.faults out.old) (S.faults out.new) result }
    ensures count { S.faults out.old ≤ S.faults out.new }
{
    match out.put(text) {
        Ok(()) => status,
        Err(WriteFault::Failed) => 6,
        Err(WriteFault::NoMemory) => put_memory(out),
    }
}

/// Puts the text of an outcome.
fn put_outcome<S: Sink>(alloc: Global, outcome: Outcome, out: &mut S) -> u8
    ensures end { PutAnswer (status_of (decided outcome)) (text_of (decided outcome)) (S.written out.old) (S.written out.new) (S.faults out.old) (S.faults out.new) result }
    ensures count { S.faults out.old ≤ S.faults out.new }
{
    let status = outcome.status();
    match outcome.into_text(alloc) {
        Ok(text) => put_text(status, &text, out),
        Err(_) => put_memory(out),
    }
}

/// Does what the words ask for, and gives the exit status. The words are those after the program's name.
///
/// - `prove SPEC` reads the specification SPEC with the weights and the sources that it names, finds a certificate and checks it,
///   writes its text where the specification names a certificate, and prints the report.
/// - `check SPEC` reads the certificate that the specification names, checks it and prints the report.
/// - `replay SPEC SAMPLES` runs the samples and prints what came of each frame.
/// - `demo N` makes the example of N stages, proves it and prints a summary; it reads no file.
/// - `worst SPEC` finds a certificate, checks it and prints the words and the turns that make the bound.
/// - `headroom SPEC` finds a certificate, checks it and prints how far the operands of each open operator must be shifted down.
/// - `observe SPEC SAMPLES` finds a certificate, checks it, runs the samples, and prints what was seen beside what is proved.
///
/// 0: each site is safe or never reached and each bound is a number; or a replay, a demo or what was observed. 1: a site is
/// unproved, or a bound is no number. Else one line tells a fault: 2 what is wrong with the sources, 3 with specification, weights
/// or samples, 4 with a certificate, 5 a file that could not be read, 6 one that could not be written, 7 that memory ran out, 8
/// that the words are none of the seven forms. 6 too where the sink failed, and a prefix of the text was put.
pub fn run<F: Files, S: Sink>(alloc: Global, words: &[String], files: &mut F, out: &mut S) -> u8
    // The words, what the files hold and the count of their faults lead to a decision, which has the status and the text.
    ensures answers { Ends (call_of (map string_bytes words.now) (world_of (F.held files.old) (F.held files.new) (F.faults files.old) (F.faults files.new)) (S.written out.old) (S.written out.new) (S.faults out.old) (S.faults out.new)) result }
    // Over files that tell what they hold and do not fail, it is one to which what they hold leads.
    ensures told { EndsAsTold (call_of (map string_bytes words.now) (world_of (F.held files.old) (F.held files.new) (F.faults files.old) (F.faults files.new)) (S.written out.old) (S.written out.new) (S.faults out.old) (S.faults out.new)) result }
    // 0 and 1 come where a text that is no refusal was put whole: a report of an accepted certificate of the program that the files
    // give, a text beside one, or a replay of what they give.
    ensures answered { (result ≡ 0) ⊎ (result ≡ 1) → Answered (call_of (map string_bytes words.now) (world_of (F.held files.old) (F.held files.new) (F.faults files.old) (F.faults files.new)) (S.written out.old) (S.written out.new) (S.faults out.old) (S.faults out.new)) result }
    // 5 comes where the world outside failed in a read, or where the files tell what they hold and do not hold the name.
    ensures read_fails { result ≡ 5 → ReadFails (call_of (map string_bytes words.now) (world_of (F.held files.old) (F.held files.new) (F.faults files.old) (F.faults files.new)) (S.written out.old) (S.written out.new) (S.faults out.old) (S.faults out.new)) }
    // 6 comes where the sink failed, and then a prefix of the text was put; or where the certificate could not be written.
    ensures sink_fails { result ≡ 6 → SinkFails (call_of (map string_bytes words.now) (world_of (F.held files.old) (F.held files.new) (F.faults files.old) (F.faults files.new)) (S.written out.old) (S.written out.new) (S.faults out.old) (S.faults out.new)) ⊎ WriteFails (call_of (map string_bytes words.now) (world_of (F.held files.old) (F.held files.new) (F.faults files.old) (F.faults files.new)) (S.written out.old) (S.written out.new) (S.faults out.old) (S.faults out.new)) }
    // 7 comes for want of memory alone; then a prefix of its line was put.
    ensures memory { result ≡ 7 → OnlyMemory (S.written out.old) (S.written out.new) result }
    // 8 comes where the words are none of the seven forms.
    ensures unknown_words { result ≡ 8 → UnknownWords (call_of (map string_bytes words.now) (world_of (F.held files.old) (F.held files.new) (F.faults files.old) (F.faults files.new)) (S.written out.old) (S.written out.new) (S.faults out.old) (S.faults out.new)) }
    // Over files that tell what they hold and do not fail, the refusal that comes first puts its line, with its status.
    ensures refuses { TellsRefusal (call_of (map string_bytes words.now) (world_of (F.held files.old) (F.held files.new) (F.faults files.old) (F.faults files.new)) (S.written out.old) (S.written out.new) (S.faults out.old) (S.faults out.new)) result }
    // Where nothing refuses, prove puts the report of what it proved, with 0 or 1, and its certificate stands in its file.
    ensures prove_completes { ProveCompletes (call_of (map string_bytes words.now) (world_of (F.held files.old) (F.held files.new) (F.faults files.old) (F.faults files.new)) (S.written out.old) (S.written out.new) (S.faults out.old) (S.faults out.new)) result }
    // So do worst and headroom, with their texts.
    ensures worst_completes { WorstCompletes (call_of (map string_bytes words.now) (world_of (F.held files.old) (F.held files.new) (F.faults files.old) (F.faults files.new)) (S.written out.old) (S.written out.new) (S.faults out.old) (S.faults out.new)) result }
    ensures headroom_completes { HeadroomCompletes (call_of (map string_bytes words.now) (world_of (F.held files.old) (F.held files.new) (F.faults files.old) (F.faults files.new)) (S.written out.old) (S.written out.new) (S.faults out.old) (S.faults out.new)) result }
    // A demo puts the summary of its example, or the line of the first fault in it.
    ensures demo_completes { DemoCompletes (call_of (map string_bytes words.now) (world_of (F.held files.old) (F.held files.new) (F.faults files.old) (F.faults files.new)) (S.written out.old) (S.written out.new) (S.faults out.old) (S.faults out.new)) result }
    // The text of a certificate comes to the report, or to one of the two refusals of a text; other bytes to their first bad line.
    ensures check_completes { CheckCompletes (call_of (map string_bytes words.now) (world_of (F.held files.old) (F.held files.new) (F.faults files.old) (F.faults files.new)) (S.written out.old) (S.written out.new) (S.faults out.old) (S.faults out.new)) result }
    ensures check_refuses { CheckRefuses (call_of (map string_bytes words.now) (world_of (F.held files.old) (F.held files.new) (F.faults files.old) (F.faults files.new)) (S.written out.old) (S.written out.new) (S.faults out.old) (S.faults out.new)) result }
    // A replay without a fault puts its whole text, with 0, and observe what was seen.
    ensures replay_completes { ReplayCompletes (call_of (map string_bytes words.now) (world_of (F.held files.old) (F.held files.new) (F.faults files.old) (F.faults files.new)) (S.written out.old) (S.written out.new) (S.faults out.old) (S.faults out.new)) result }
    ensures observe_completes { ObserveCompletes (call_of (map string_bytes words.now) (world_of (F.held files.old) (F.held files.new) (F.faults files.old) (F.faults files.new)) (S.written out.old) (S.written out.new) (S.faults out.old) (S.faults out.new)) result }
    // All names keep what they held; but prove may write the certificate that it found under its name.
    ensures held { HeldBy (call_of (map string_bytes words.now) (world_of (F.held files.old) (F.held files.new) (F.faults files.old) (F.faults files.new)) (S.written out.old) (S.written out.new) (S.faults out.old) (S.faults out.new)) (form_of (map string_bytes words.now)) }
    ensures files_count { F.faults files.old ≤ F.faults files.new }
    ensures out_count { S.faults out.old ≤ S.faults out.new }
{
    match outcome_of(alloc, words, files) {
        Ok(outcome) => put_outcome(alloc, outcome, out),
        Err(_) => put_memory(out),
    }
}
