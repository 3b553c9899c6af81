// What a specification says about a codec: its files, its functions, its inputs.
use wm_interval::Interval;
use wm_lang::Name;
use wm_ops::List;

/// A specification that was read.
#[derive(Drop)]
pub struct Spec {
    /// The names of the source files, 1 to 64, in their order.
    pub sources: List<Name>,
    /// The name of the weights file.
    pub weights: Option<Name>,
    /// The name of the certificate file.
    pub certificate: Option<Name>,
    /// The function that runs once before all frames.
    pub init: Option<Name>,
    /// The function of each frame: one, or 2 to 16 different ones, from which each frame chooses.
    pub frames: List<Name>,
    /// The length of a frame, in microseconds.
    pub frame_us: Option<u32>,
    /// The order of the inputs in a sample file, where it is not that of declaration.
    pub pack: Option<List<Name>>,
    /// The greatest number of elementary steps of a frame.
    pub steps: u64,
    /// The ranges of the inputs, in the byte order of their names.
    pub ranges: List<RangeOf>,
}

/// The range of an input.
#[derive(Drop)]
pub struct RangeOf {
    pub name: Name,
    pub range: Interval,
}
