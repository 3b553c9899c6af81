// A codec as files.
use wm_ops::List;

/// A codec as its two files.
#[derive(Debug, Drop)]
pub struct Example {
    /// The specification, which names the source file `demo.c`.
    pub spec: List<u8>,
    /// The source file.
    pub source: List<u8>,
}
