//! The sources whose tokens are timed: one of a million tokens in 4 MiB, and a chain of macros that would make far too many.

use crate::draws::Draws;
use std::alloc::Global;
use std::io;

// The bytes of the large source, and its tokens.
const SIZE: usize = 4_194_304;

const TOKENS: u32 = 1_000_000;

// The spellings that are drawn from.
const SPELLINGS: [&[u8]; 16] = [
    b"i", b"add", b"buf", b"12", b"0x7F", b"+", b"=", b";", b"(", b")", b"L_mac", b"signal",
    b"Word16", b"if", b"[", b"move16",
];

// How many macros the chain has.
const LINKS: u32 = 60;

/// A source of drawn tokens with a space behind each, or a line feed behind each 16th, and spaces at the end.
pub(crate) fn large(alloc: Global) -> io::Result<Vec<u8>> {
    let mut draws = Draws::new();
    let mut text = Vec::with_capacity(alloc, SIZE)?;
    for token in 0..TOKENS {
        let spelling = SPELLINGS[draws.below(16) as usize];
        text.extend_from_slice(spelling)?;
        text.push(if token % 16 == 15 { b'\n' } else { b' ' })?;
    }
    for _ in text.len()..SIZE {
        text.push(b' ')?;
    }
    Ok(text)
}

/// Macros each of which is the one before it twice, and the last one's name.
pub(crate) fn chain(alloc: Global) -> io::Result<Vec<u8>> {
    let mut text = String::new(alloc);
    text.push_str("#define A0 1\n")?;
    for link in 1..LINKS {
        let before = link - 1;
        let line = format!(in alloc; "#define A{link} A{before} A{before}\n")?;
        text.push_str(line.as_str())?;
    }
    let last = LINKS - 1;
    text.push_str(format!(in alloc; "A{last}\n")?.as_str())?;
    Ok(Vec::from_slice(alloc, text.as_bytes())?)
}
