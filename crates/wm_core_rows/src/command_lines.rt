// Each form of the words, and words that are none.
use std::alloc::Global;
use std::test::Fail;
use wm_words::{Command, read_words};

fn words_of(alloc: Global, line: &str) -> Result<Vec<String>, Fail> {
    let mut words = Vec::new(alloc);
    for word in line.split_whitespace() {
        words.push(String::from_str(alloc, word)?)?;
    }
    Ok(words)
}

#[test]
fn reads_the_seven_forms(rt: HostRuntime) -> Result<(), Fail> {
    let forms = [
        ("prove s.toml", Command::Prove { spec: "s.toml" }),
        ("check s.toml", Command::Check { spec: "s.toml" }),
        (
            "replay s.toml in",
            Command::Replay {
                spec: "s.toml",
                samples: "in",
            },
        ),
        ("demo 1", Command::Demo { stages: 1 }),
        ("demo 90", Command::Demo { stages: 90 }),
        ("demo 500", Command::Demo { stages: 500 }),
        ("worst s.toml", Command::Worst { spec: "s.toml" }),
        ("headroom s.toml", Command::Headroom { spec: "s.toml" }),
        (
            "observe s.toml in",
            Command::Observe {
                spec: "s.toml",
                samples: "in",
            },
        ),
    ];
    for (line, want) in forms {
        let words = words_of(rt.alloc(), line)?;
        assert_eq!(rt; read_words(&words), want, "{line}");
    }
    Ok(())
}

#[test]
fn refuses_other_words(rt: HostRuntime) -> Result<(), Fail> {
    let lines = [
        "",
        "prove",
        "prove a b",
        "Prove a",
        "check",
        "replay a",
        "replay a b c",
        "demo",
        "demo 0",
        "demo 007",
        "demo 501",
        "demo 4294967297",
        "demo +1",
        "demo 1x",
        "demo x",
        "demo 1 2",
        "worst",
        "worst a b",
        "headroom",
        "headroom a b",
        "observe a",
        "observe a b c",
        "spec a",
    ];
    for line in lines {
        let words = words_of(rt.alloc(), line)?;
        assert_eq!(rt; read_words(&words), Command::BadWords, "{line}");
    }
    Ok(())
}
