// What has been read of a text.
use wm_cert_text::{Cells, Ends, Head, HeadName, Pair, SumStep};
use wm_ops::List;

/// The heads that are complete, and what has been read of the one behind them.
#[derive(Drop)]
pub struct Reading {
    /// Whether pairs and sum counters are read.
    pub pairs_allowed: bool,
    /// Whether the text is of the version with sum counters.
    pub second: bool,
    /// The number of the last head.
    pub last: u32,
    /// Whether some head has a sum counter so far.
    pub has_sums: bool,
    pub heads: List<Head>,
    pub name: HeadName,
    pub sums: List<SumStep>,
    /// Whether the state has no point.
    pub empty: bool,
    pub bounds: List<Ends>,
    pub pairs: List<Pair>,
    pub arrays: List<Cells>,
}

/// What one more line makes of it.
#[derive(Drop)]
pub enum Step {
    /// The text is read whole.
    Done(List<Head>),
    /// The lines through this one begin no text.
    Fault(u64),
    Next(Reading),
}
