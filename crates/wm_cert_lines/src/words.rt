// The words of a line.
ghost use Rattle.std.specs.Prelude.{◌≡◌, ◌≤◌, length};
ghost use Rattle.wm_cert_lines.specs.Words.{word_length, word, rest};

/// How many bytes stand before the first space.
fn word_length(line: &[u8]) -> usize
    ensures count { result ≡ word_length line.now }
    ensures within { result ≤ length line.now }
{
    for (index, byte) in line.iter().enumerate() {
        if *byte == b' ' {
            return index;
        }
    }
    line.len()
}

#[tactic(auto, unfolding(crate::specs::Words::word))]
pub fn word(line: &[u8]) -> &[u8]
    ensures { result.now ≡ word line.now }
{
    &line[..word_length(line)]
}

/// What stands behind the first space.
#[tactic(auto, unfolding(crate::specs::Words::rest))]
pub fn rest(line: &[u8]) -> &[u8]
    ensures { result.now ≡ rest line.now }
{
    let end = word_length(line);
    if end < line.len() {
        return &line[end + 1..];
    }
    &[]
}
