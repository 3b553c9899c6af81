// Weights files: what they give, and the first thing that is wrong with each.
use std::alloc::Global;
use std::test::Fail;
use wm_ops::{ControlWord, CountCall, Counted, Op};
use wm_weights::{WeightFault, Weights, all_ones, read_weights};

/// The weight of a word in a file, or the fault with its key, as text.
fn told(alloc: Global, file: &[u8], word: Counted) -> Result<String, Fail> {
    let text = match read_weights(alloc, file) {
        Ok(weights) => return Ok(format!(in alloc; "{:?}", weights.weight(word))?),
        Err(WeightFault::BadKey { key }) => format!(in alloc; "BadKey {}", text_of(key.bytes()))?,
        Err(WeightFault::BadNumber { key }) => {
            format!(in alloc; "BadNumber {}", text_of(key.bytes()))?
        }
        Err(WeightFault::NotToml) => String::from_str(alloc, "NotToml")?,
        Err(WeightFault::NoMemory) => String::from_str(alloc, "NoMemory")?,
    };
    Ok(text)
}

fn text_of(bytes: &[u8]) -> &str {
    std::str::from_utf8(bytes).unwrap_or("?")
}

#[test]
fn reads_files(rt: HostRuntime) -> Result<(), Fail> {
    let round = Counted::Operator(Op::Round);
    let files = [
        (b"".as_slice(), round, "None"),
        (b"round = 7", round, "Some(7)"),
        (b"round_fx = 7", round, "Some(7)"),
        (b"round_fx = 7", Counted::Operator(Op::Add), "None"),
        (b"add = 0", Counted::Operator(Op::Add), "Some(0)"),
        (b"add = 10000", Counted::Operator(Op::Add), "Some(10000)"),
        (
            b"IF = 4\nmove16 = 1",
            Counted::Word(ControlWord::If),
            "Some(4)",
        ),
        (
            b"IF = 4\nmove16 = 1",
            Counted::Call(CountCall::Move16),
            "Some(1)",
        ),
        (b"L_msu0 = 0x10", Counted::Operator(Op::LMsu0), "Some(16)"),
        (b"add = 10001", round, "BadNumber add"),
        (b"add = -1", round, "BadNumber add"),
        (b"add = 1.0", round, "BadNumber add"),
        (b"add = \"1\"", round, "BadNumber add"),
        (b"add.sub = 1", round, "BadNumber add"),
        (b"mod = 1", round, "BadKey mod"),
        (b"if = 1", round, "BadKey if"),
        (b"[add]\nx = 1", round, "BadNumber add"),
        (b"round = 1\nround_fx = 1", round, "BadKey round_fx"),
        (b"round = -1\nround_fx = 1", round, "BadNumber round"),
        (b"zoom = 1\nadd = x", round, "NotToml"),
        (b"zoom = 1\nsub = -1\nadd = 1", round, "BadNumber sub"),
        (b"sub = -1\nmod = 1", round, "BadKey mod"),
        (b"mod = \"x\"", round, "BadKey mod"),
        (b"add = 1\nadd = 1", round, "NotToml"),
        (b"add = ", round, "NotToml"),
        (b"# \xff", round, "NotToml"),
    ];
    for (file, word, want) in files {
        let got = told(rt.alloc(), file, word)?;
        assert_eq!(rt; got.as_str(), want);
    }
    Ok(())
}

#[test]
fn ones_for_all(rt: HostRuntime) {
    let weights: Weights = all_ones();
    assert_eq!(rt; weights.weight(Counted::Operator(Op::Add)), Some(1));
    assert_eq!(rt;
        weights.weight(Counted::Word(ControlWord::Continue)),
        Some(1)
    );
}
