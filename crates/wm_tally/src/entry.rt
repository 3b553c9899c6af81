// What is known of a site so far.
ghost use Rattle.std.specs.Prelude.{◌≡◌};
ghost use Rattle.wm_tally.specs.Entries.{first_entry, standing_failing, standing_fine, entry_after};

use crate::seen::{Failure, Seen};

/// What the trials of a site showed.
#[derive(Clone, Copy)]
pub enum Standing {
    /// No run came to it.
    Never,
    /// It did not fail.
    Safe,
    /// It may fail; the instance is the first in which it may.
    Unproved { failure: Failure, instance: u32 },
}

/// What is known of a site.
#[derive(Clone, Copy)]
pub struct Entry {
    pub standing: Standing,
    /// Whether a cell that no one set may be read.
    pub unset: bool,
}

/// Nothing has been seen.
pub fn first_entry() -> Entry
    ensures { result ≡ first_entry }
{
    Entry {
        standing: Standing::Never,
        unset: false,
    }
}

/// The failure of the lesser instance; of two in one instance the one that was seen first.
fn standing_failing(standing: Standing, failure: Failure, instance: u32) -> Standing
    ensures { result ≡ standing_failing standing failure instance }
{
    match standing {
        Standing::Never => Standing::Unproved { failure, instance },
        Standing::Safe => Standing::Unproved { failure, instance },
        Standing::Unproved {
            failure: before,
            instance: first,
        } => {
            if instance < first {
                return Standing::Unproved { failure, instance };
            }
            Standing::Unproved {
                failure: before,
                instance: first,
            }
        }
    }
}

fn standing_fine(standing: Standing) -> Standing
    ensures { result ≡ standing_fine standing }
{
    match standing {
        Standing::Never => Standing::Safe,
        Standing::Safe => Standing::Safe,
        Standing::Unproved { failure, instance } => Standing::Unproved { failure, instance },
    }
}

/// What is known of a site after one more of its edges, which belongs to an instance.
pub fn entry_after(entry: Entry, instance: u32, seen: Seen) -> Entry
    ensures after { result ≡ entry_after entry instance seen }
{
    match seen {
        Seen::Away => entry,
        Seen::Fine => Entry {
            standing: standing_fine(entry.standing),
            unset: entry.unset,
        },
        Seen::Failing(failure) => Entry {
            standing: standing_failing(entry.standing, failure, instance),
            unset: entry.unset,
        },
        Seen::Unset => Entry {
            standing: entry.standing,
            unset: true,
        },
    }
}
