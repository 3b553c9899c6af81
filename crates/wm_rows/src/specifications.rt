// Specifications: what they say, and the first thing that is wrong with others.
use std::alloc::Global;
use std::test::Fail;
use wm_lang::Name;
use wm_program::Spec;
use wm_spec::{SpecFault, read_spec};

fn text_of(bytes: &[u8]) -> &str {
    std::str::from_utf8(bytes).unwrap_or("?")
}

/// The names, each behind a space.
fn names(alloc: Global, names: &[Name]) -> Result<String, Fail> {
    let mut text = String::new(alloc);
    for name in names {
        text.push(' ')?;
        text.push_str(text_of(name.bytes()))?;
    }
    Ok(text)
}

/// What a specification says, as one line.
fn line_of(alloc: Global, spec: &Spec) -> Result<String, Fail> {
    let mut line = names(alloc, spec.sources.items())?;
    for name in [&spec.weights, &spec.certificate, &spec.init] {
        match name {
            Some(name) => line.push_str(format!(in alloc; " {}", text_of(name.bytes()))?.as_str())?,
            None => line.push_str(" -")?,
        }
    }
    line.push_str(names(alloc, spec.frames.items())?.as_str())?;
    line.push_str(format!(in alloc; " {:?} {}", spec.frame_us, spec.steps)?.as_str())?;
    if let Some(pack) = &spec.pack {
        line.push_str(" pack")?;
        line.push_str(names(alloc, pack.items())?.as_str())?;
    }
    for range in spec.ranges.items() {
        let name = text_of(range.name.bytes());
        let (low, high) = (range.range.low, range.range.high);
        line.push_str(format!(in alloc; " {name} {low}..{high}")?.as_str())?;
    }
    Ok(line)
}

/// What a file says, or its fault.
fn told(alloc: Global, file: &[u8]) -> Result<String, Fail> {
    Ok(match read_spec(alloc, file) {
        Ok(spec) => line_of(alloc, &spec)?,
        Err(SpecFault::NotToml) => String::from_str(alloc, "NotToml")?,
        Err(SpecFault::MissingKey { key }) => {
            format!(in alloc; "MissingKey {}", text_of(key.bytes()))?
        }
        Err(SpecFault::UnknownKey { key }) => {
            format!(in alloc; "UnknownKey {}", text_of(key.bytes()))?
        }
        Err(SpecFault::BadValue { key }) => {
            format!(in alloc; "BadValue {}", text_of(key.bytes()))?
        }
        Err(SpecFault::NoMemory) => String::from_str(alloc, "NoMemory")?,
    })
}

#[test]
fn reads_specifications(rt: HostRuntime) -> Result<(), Fail> {
    let files = [
        (
            b"source = \"a.c\"".as_slice(),
            " a.c - - - frame None 1000000",
        ),
        (
            b"source = \"pre.c\"\nweights = \"w.toml\"\ninit = \"init\"\nframe_us = 10000\n[range]\nspeech = [-32768, 32767]\n",
            " pre.c w.toml - init frame Some(10000) 1000000 speech -32768..32767",
        ),
        (
            b"source = \"a.c\"\nframe = [\"low\", \"high\"]",
            " a.c - - - low high None 1000000",
        ),
        (
            b"source = [\"a\", \"a\"]\ncertificate = \"c\"",
            " a a - c - frame None 1000000",
        ),
        (b"source = \"a\"\nsteps = 1", " a - - - frame None 1"),
        (
            b"source = \"a\"\nsteps = 1000000000\nframe_us = 1000000",
            " a - - - frame Some(1000000) 1000000000",
        ),
        (
            b"source = \"a\"\nframe_us = 1\nframe = \"_x9\"",
            " a - - - _x9 Some(1) 1000000",
        ),
        (
            b"source = \"a\"\npack = []",
            " a - - - frame None 1000000 pack",
        ),
        (
            b"source = \"a\"\npack = [\"y\", \"x\"]\nrange.y = [-1, -1]\nrange.x = [0, 1]",
            " a - - - frame None 1000000 pack y x x 0..1 y -1..-1",
        ),
        (
            b"source = \"a\"\n[range]\nif = [-2147483648, 2147483647]",
            " a - - - frame None 1000000 if -2147483648..2147483647",
        ),
    ];
    for (file, want) in files {
        let got = told(rt.alloc(), file)?;
        assert_eq!(rt; got.as_str(), want);
    }
    Ok(())
}

#[test]
fn refuses_other_files(rt: HostRuntime) -> Result<(), Fail> {
    let files = [
        (b"".as_slice(), "MissingKey source"),
        (b"sorce = \"a.c\"", "MissingKey source"),
        (b"source = ", "NotToml"),
        (b"source = \"a\"\nsource = \"b\"", "NotToml"),
        (b"source = \"\xff\"", "NotToml"),
        (
            b"source = \"a.c\"\nsteps = \"x\"\nzoom = 1",
            "UnknownKey zoom",
        ),
        (b"source = 1\nzoom = 1\nZoom = 1", "UnknownKey Zoom"),
        (b"source.x = 1", "BadValue source"),
        (b"source = 1", "BadValue source"),
        (b"source = []", "BadValue source"),
        (b"source = [\"a\", 1]", "BadValue source"),
        (b"source = [\"a\", \"\"]", "BadValue source"),
        (b"source = \"\"", "BadValue source"),
        (b"source = \"a\\tb\"", "BadValue source"),
        (b"source = \"a\\u007f\"", "BadValue source"),
        (b"source = \"a\"\nweights = 1", "BadValue weights"),
        (
            b"source = \"a\"\ncertificate = [\"c\"]",
            "BadValue certificate",
        ),
        (
            b"source = \"a\"\ncertificate = \"\"",
            "BadValue certificate",
        ),
        (b"source = \"a\"\ninit = \"1x\"", "BadValue init"),
        (b"source = \"a\"\ninit = \"\"", "BadValue init"),
        (b"source = \"a\"\ninit = true", "BadValue init"),
        (b"source = \"a\"\nframe = \"\"", "BadValue frame"),
        (b"source = \"a\"\nframe = \"a b\"", "BadValue frame"),
        (b"source = \"a\"\nframe = []", "BadValue frame"),
        (b"source = \"a\"\nframe = [\"a\"]", "BadValue frame"),
        (b"source = \"a\"\nframe = [\"a\", \"a\"]", "BadValue frame"),
        (
            b"source = \"a\"\nframe = [\"a\", \"b\", \"a\"]",
            "BadValue frame",
        ),
        (b"source = \"a\"\nframe = [\"a\", 1]", "BadValue frame"),
        (
            b"source = \"a\"\nframe = [\"a\", \"b-c\"]",
            "BadValue frame",
        ),
        (b"source = \"a\"\nframe_us = 0", "BadValue frame_us"),
        (b"source = \"a\"\nframe_us = 1000001", "BadValue frame_us"),
        (b"source = \"a\"\nframe_us = 1.0", "BadValue frame_us"),
        (b"source = \"a\"\nsteps = 0", "BadValue steps"),
        (b"source = \"a\"\nsteps = -1", "BadValue steps"),
        (b"source = \"a\"\nsteps = 1000000001", "BadValue steps"),
        (
            b"source = \"a\"\nsteps = 0\nframe_us = 0",
            "BadValue frame_us",
        ),
        (
            b"source = \"a\"\npack = \"x\"\n[range]\nx = [0, 1]",
            "BadValue pack",
        ),
        (b"source = \"a\"\npack = [\"x\"]", "BadValue pack"),
        (
            b"source = \"a\"\npack = [\"x\"]\nrange = 1",
            "BadValue pack",
        ),
        (b"source = \"a\"\npack = []\nrange = 1", "BadValue range"),
        (
            b"source = \"a\"\npack = []\n[range]\nx = [0, 1]",
            "BadValue pack",
        ),
        (
            b"source = \"a\"\npack = [\"x\", \"x\"]\n[range]\nx = [0, 1]",
            "BadValue pack",
        ),
        (
            b"source = \"a\"\npack = [\"x\", \"z\"]\n[range]\nx = [0, 1]\ny = [0, 1]",
            "BadValue pack",
        ),
        (
            b"source = \"a\"\npack = [\"x\", \"y\"]\n[range]\nx = [0, 1]",
            "BadValue pack",
        ),
        (b"source = \"a\"\n[range]\nx = [1, 0]", "BadValue range"),
        (
            b"source = \"a\"\n[range]\nx = [0, 2147483648]",
            "BadValue range",
        ),
        (
            b"source = \"a\"\n[range]\nx = [-2147483649, 0]",
            "BadValue range",
        ),
        (b"source = \"a\"\n[range]\nx = [0]", "BadValue range"),
        (b"source = \"a\"\n[range]\nx = [0, 1, 2]", "BadValue range"),
        (b"source = \"a\"\n[range]\nx = 0", "BadValue range"),
        (
            b"source = \"a\"\n[range]\n\"x y\" = [0, 1]",
            "BadValue range",
        ),
        (b"source = \"a\"\n[range.x]\nlow = 0", "BadValue range"),
        (b"source = \"a\"\n[[range]]\nx = [0, 1]", "BadValue range"),
    ];
    for (file, want) in files {
        let got = told(rt.alloc(), file)?;
        assert_eq!(rt; got.as_str(), want);
    }
    Ok(())
}

/// A specification with a list of this many names at a key.
fn with_names(alloc: Global, key: &str, count: usize) -> Result<String, Fail> {
    let mut text = format!(in alloc; "{key} = [")?;
    for name in 0..count {
        text.push_str(format!(in alloc; "\"f{name}\",")?.as_str())?;
    }
    text.push(']')?;
    Ok(text)
}

/// A specification whose source has a name of this many bytes.
fn with_length(alloc: Global, length: usize) -> Result<String, Fail> {
    let mut text = String::from_str(alloc, "source = \"")?;
    for _ in 0..length {
        text.push('a')?;
    }
    text.push('"')?;
    Ok(text)
}

#[test]
fn counts_names_and_bytes(rt: HostRuntime) -> Result<(), Fail> {
    let alloc = rt.alloc();
    for (count, read) in [(1, true), (64, true), (65, false)] {
        let file = with_names(alloc, "source", count)?;
        assert_eq!(rt; read_spec(alloc, file.as_bytes()).is_ok(), read);
    }
    for (count, read) in [(2, true), (16, true), (17, false)] {
        let mut file = with_names(alloc, "frame", count)?;
        file.push_str("\nsource = \"a\"")?;
        assert_eq!(rt; read_spec(alloc, file.as_bytes()).is_ok(), read);
    }
    for (length, read) in [(1, true), (4096, true), (4097, false)] {
        let file = with_length(alloc, length)?;
        assert_eq!(rt; read_spec(alloc, file.as_bytes()).is_ok(), read);
    }
    Ok(())
}
