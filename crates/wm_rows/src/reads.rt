// What the files of a call come to: each refusal once, as its line, and what is read where there is none.
use std::alloc::Global;
use std::test::Fail;
use wm_files::MemoryFiles;
use wm_read::read_texts;
use wm_report::fault_text;

/// The files of a call that is not refused.
const GOOD: [(&str, &str); 4] = [
    (
        "s.toml",
        "source = [\"a.c\", \"b.c\"]\nweights = \"w.toml\"\n",
    ),
    ("w.toml", "add = 2\n"),
    ("a.c", "Word16 x;\n"),
    ("b.c", "void frame(void) { }\n"),
];

/// The line of the refusal, or the numbers of bytes of the sources.
fn answer(alloc: Global, files: &mut MemoryFiles) -> Result<String, Fail> {
    match read_texts(alloc, b"s.toml", files) {
        Ok(texts) => {
            let mut told = String::from_str(alloc, "read")?;
            for source in &texts.sources {
                let size = format!(in alloc; " {}", source.len())?;
                told.push_str(size.as_str())?;
            }
            Ok(told)
        }
        Err(fault) => {
            let line = fault_text(alloc, &fault)?;
            Ok(String::from_utf8(line)?)
        }
    }
}

/// The good files, with these bytes under one of their names.
fn files_with(alloc: Global, name: &str, bytes: &[u8]) -> Result<MemoryFiles, Fail> {
    let mut files = MemoryFiles::new(alloc, Vec::new(alloc));
    for (name, bytes) in GOOD {
        files.hold(name.as_bytes(), bytes.as_bytes())?;
    }
    files.hold(name.as_bytes(), bytes)?;
    Ok(files)
}

#[test]
fn refusals(rt: HostRuntime) -> Result<(), Fail> {
    let alloc = rt.alloc();
    let cases = [
        ("s.toml", "source = [\"a.c\", \"b.c\"]\n", "read 10 21"),
        ("a.c", "", "read 0 21"),
        ("s.toml", "source = \"c.c\"\n", "fault 5 read c.c\n"),
        (
            "s.toml",
            "source = \"a.c\"\nweights = \"v\"\n",
            "fault 5 read v\n",
        ),
        ("s.toml", "source", "fault 3 NotToml s.toml\n"),
        ("s.toml", "sorce = \"a.c\"\n", "fault 3 MissingKey source\n"),
        (
            "s.toml",
            "source = \"a.c\"\n\"zo om\" = 1\n",
            "fault 3 UnknownKey zo?om\n",
        ),
        (
            "s.toml",
            "source = \"a.c\"\nsteps = 0\n",
            "fault 3 BadValue steps\n",
        ),
        ("w.toml", "add", "fault 3 NotToml w.toml\n"),
        ("w.toml", "mod = 1\n", "fault 3 BadKey mod\n"),
        ("w.toml", "add = 10001\n", "fault 3 BadNumber add\n"),
    ];
    for (name, bytes, told) in cases {
        let mut files = files_with(alloc, name, bytes.as_bytes())?;
        assert_eq!(rt; answer(alloc, &mut files)?.as_str(), told, "{name} {bytes}");
    }
    Ok(())
}

#[test]
fn failing_reads(rt: HostRuntime) -> Result<(), Fail> {
    let alloc = rt.alloc();
    let lines = [
        "fault 5 read s.toml\n",
        "fault 5 read w.toml\n",
        "fault 5 read a.c\n",
        "fault 5 read b.c\n",
        "read 10 21",
    ];
    for (number, told) in lines.iter().enumerate() {
        let mut files = MemoryFiles::new(alloc, [number as u64 + 1].to_vec(alloc)?);
        for (name, bytes) in GOOD {
            files.hold(name.as_bytes(), bytes.as_bytes())?;
        }
        assert_eq!(rt; answer(alloc, &mut files)?.as_str(), *told, "{number}");
    }
    Ok(())
}

/// Each file may have as many bytes as its limit; the sources have one limit together.
#[test]
fn limits(rt: HostRuntime) -> Result<(), Fail> {
    let alloc = rt.alloc();
    let cases = [
        ("s.toml", 1048576, "fault 3 MissingKey source\n"),
        ("s.toml", 1048577, "fault 3 TooLong s.toml\n"),
        ("w.toml", 1048576, "read 10 21"),
        ("w.toml", 1048577, "fault 3 TooLong w.toml\n"),
        ("a.c", 4194283, "read 4194283 21"),
        ("a.c", 4194284, "fault 2 TooLong\n"),
        ("b.c", 4194294, "read 10 4194294"),
        ("b.c", 4194295, "fault 2 TooLong\n"),
    ];
    for (name, size, told) in cases {
        let spaces = vec![in alloc; b' '; size]?;
        let mut files = files_with(alloc, name, &spaces)?;
        assert_eq!(rt; answer(alloc, &mut files)?.as_str(), told, "{name} {size}");
    }
    Ok(())
}
