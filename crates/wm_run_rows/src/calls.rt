// A call of the command over memory.
use std::alloc::Global;
use std::process::Abort;
use std::test::Fail;
use wm_files::{Files, MemoryFiles, MemorySink};
use wm_run::run;

/// A file's name and its bytes.
pub(crate) type File<'a> = (&'a str, &'a [u8]);

/// The most bytes that are looked at of a file after a call.
const MOST: u64 = 4096;

/// What a call answered and wrote.
#[derive(Drop)]
pub(crate) struct Answer {
    pub(crate) status: u8,
    pub(crate) text: Vec<u8>,
    /// What `c.txt` holds afterwards; nothing where it is not held.
    pub(crate) certificate: Vec<u8>,
}

/// Compares an answer with what is wanted.
pub(crate) fn expect(rt: &impl Abort, answer: &Answer, status: u8, text: &str) {
    assert_eq!(rt; answer.text.as_slice(), text.as_bytes());
    assert_eq!(rt; answer.status, status, "{text}");
}

/// The words of a call.
fn words_of(alloc: Global, words: &[&str]) -> Result<Vec<String>, Fail> {
    let mut owned = Vec::new(alloc);
    for word in words {
        owned.push(String::from_str(alloc, word)?)?;
    }
    Ok(owned)
}

/// What the name `c.txt` holds.
fn certificate_in(alloc: Global, files: &mut MemoryFiles) -> Vec<u8> {
    match files.read(alloc, b"c.txt", MOST) {
        Ok(bytes) => bytes,
        Err(_) => Vec::new(alloc),
    }
}

/// Runs the words over these files, where the listed calls of files and sink fail.
pub(crate) fn call_failing(
    alloc: Global,
    words: &[&str],
    held: &[File<'_>],
    failing_files: &[u64],
    failing_puts: &[u64],
) -> Result<Answer, Fail> {
    let mut files = MemoryFiles::new(alloc, failing_files.to_vec(alloc)?);
    for (name, bytes) in held {
        files.hold(name.as_bytes(), bytes)?;
    }
    let mut out = MemorySink::new(alloc, failing_puts.to_vec(alloc)?);
    let owned = words_of(alloc, words)?;
    let status = run(alloc, &owned, &mut files, &mut out);
    Ok(Answer {
        status,
        text: out.written().to_vec(alloc)?,
        certificate: certificate_in(alloc, &mut files),
    })
}

/// Runs the words over these files, where nothing fails.
pub(crate) fn call(alloc: Global, words: &[&str], held: &[File<'_>]) -> Result<Answer, Fail> {
    call_failing(alloc, words, held, &[], &[])
}

/// Runs a command over a specification `s.toml` and a source `a.c`.
pub(crate) fn call_on(
    alloc: Global,
    command: &str,
    specification: &str,
    source: &str,
) -> Result<Answer, Fail> {
    let held = [
        ("s.toml", specification.as_bytes()),
        ("a.c", source.as_bytes()),
    ];
    call(alloc, &[command, "s.toml"], &held)
}
