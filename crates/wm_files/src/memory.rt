// Files and a sink in memory, which tell what they hold and fail at the calls that a list names.
ghost use Rattle.std.specs.Prelude.{◌≡◌, ◌≤◌, [], Some, OnOk, OnErr};
ghost use Rattle.std.specs.FinMap.{get, insert, empty};
ghost use Rattle.wm_files.specs.Outside.{Reads, Writes, Puts};
ghost use Rattle.wm_files.specs.Plan.{fresh, after_call};
ghost use Rattle.wm_files.specs.Memory.{read_of, Gives, counted, holding, WritesPair, PutsBytes, found};
ghost use Rattle.wm_files.specs.Pairs.{held_of};

use crate::plan::FaultPlan;
use crate::{Files, ReadFault, Sink, WriteFault};
use std::alloc::Global;
use std::collections::BTreeMap;
use std::marker::Model;
use wm_ops::NoMemory;

/// Files in memory. They tell what they hold.
#[derive(Drop)]
pub struct MemoryFiles {
    alloc: Global,
    pairs: BTreeMap<Vec<u8>, Vec<u8>>,
    plan: FaultPlan,
}

impl Model for MemoryFiles {
    ghost use Rattle.wm_files.specs.Memory.{Memory, memory_code};
    ghost use Rattle.wm_files.specs.Pairs.{held_of};

    ghost Value = { Memory };

    ghost coded = { memory_code };

    ghost view = { λ m. record { held = held_of m.pairs; plan = m.plan } };
}

impl MemoryFiles {
    /// Holds no name. Call number k fails exactly where k is in the list; calls are counted from 1 over
    /// reads and writes, and the number stays at 2^64 - 1 once it is there.
    pub fn new(alloc: Global, failing: Vec<u64>) -> MemoryFiles
        ensures { result ≡ record { held = empty; plan = fresh failing.items } }
    {
        MemoryFiles {
            alloc,
            pairs: BTreeMap::new(alloc),
            plan: FaultPlan::new(failing),
        }
    }

    /// Makes the name hold these bytes. It counts no call, and changes nothing on `NoMemory`.
    pub fn hold(&mut self, name: &[u8], bytes: &[u8]) -> Result<(), NoMemory>
        ensures ok { OnOk result (self.new ≡ holding self.old name.now bytes.now) }
        ensures err { OnErr result (self.new ≡ self.old) }
    {
        set_pair(self.alloc, &mut self.pairs, name, bytes)
    }
}

impl Files for MemoryFiles {
    ghost held = { λ m. Some m.held };

    ghost faults = { λ m. m.plan.failed };

    fn read(&mut self, alloc: Global, name: &[u8], limit: u64) -> Result<Vec<u8>, ReadFault>
        ensures answer { Reads (Some self.old.held) name.now limit self.old.plan.failed self.new.plan.failed result }
        ensures held { Some self.new.held ≡ Some self.old.held }
        ensures count { self.old.plan.failed ≤ self.new.plan.failed }
        ensures exact { Gives result (read_of self.old name.now limit) }
        ensures after { self.new ≡ counted self.old }
    {
        if self.plan.next_call_fails() {
            return Err(ReadFault::Failed);
        }
        copy_of(alloc, &self.pairs, name, limit)
    }

    fn write(&mut self, name: &[u8], bytes: &[u8]) -> Result<(), WriteFault>
        ensures answer { Writes (Some self.old.held) (Some self.new.held) name.now bytes.now self.old.plan.failed self.new.plan.failed result }
        ensures count { self.old.plan.failed ≤ self.new.plan.failed }
        ensures exact { WritesPair self.old self.new name.now bytes.now result }
    {
        if self.plan.next_call_fails() {
            return Err(WriteFault::Failed);
        }
        match self.hold(name, bytes) {
            Ok(()) => Ok(()),
            Err(NoMemory) => Err(WriteFault::NoMemory),
        }
    }
}

/// A copy of the bytes under a name, or why there is none.
fn copy_of(
    alloc: Global,
    pairs: &BTreeMap<Vec<u8>, Vec<u8>>,
    name: &[u8],
    limit: u64,
) -> Result<Vec<u8>, ReadFault>
    ensures { Gives result (found (get (held_of pairs.now) name.now) limit) }
{
    let Some(bytes) = pairs.get(name) else {
        return Err(ReadFault::NotHeld);
    };
    if bytes.len() as u64 > limit {
        return Err(ReadFault::TooLong);
    }
    match Vec::from_slice(alloc, bytes.as_slice()) {
        Ok(copy) => Ok(copy),
        Err(_) => Err(ReadFault::NoMemory),
    }
}

/// Makes a name hold these bytes.
fn set_pair(
    alloc: Global,
    pairs: &mut BTreeMap<Vec<u8>, Vec<u8>>,
    name: &[u8],
    bytes: &[u8],
) -> Result<(), NoMemory>
    ensures ok { OnOk result (held_of pairs.new ≡ insert (held_of pairs.old) name.now bytes.now) }
    ensures err { OnErr result (held_of pairs.new ≡ held_of pairs.old) }
{
    let name = Vec::from_slice(alloc, name)?;
    let bytes = Vec::from_slice(alloc, bytes)?;
    pairs.insert(name, bytes)?;
    Ok(())
}

/// A sink in memory. It tells what was written.
#[derive(Drop)]
pub struct MemorySink {
    bytes: Vec<u8>,
    plan: FaultPlan,
}

impl Model for MemorySink {
    ghost use Rattle.wm_files.specs.Memory.{Shelf, shelf_code};

    ghost Value = { Shelf };

    ghost coded = { shelf_code };

    ghost view = { λ s. record { written = s.bytes.items; plan = s.plan } };
}

impl MemorySink {
    /// Nothing is written yet. Call number k of `put` fails exactly where k is in the list; calls are
    /// counted from 1, and the number stays at 2^64 - 1 once it is there.
    pub fn new(alloc: Global, failing: Vec<u64>) -> MemorySink
        ensures { result ≡ record { written = []; plan = fresh failing.items } }
    {
        MemorySink {
            bytes: Vec::new(alloc),
            plan: FaultPlan::new(failing),
        }
    }

    /// All that was written.
    pub fn written(&self) -> &[u8]
        ensures { result.now ≡ self.now.written }
    {
        self.bytes.as_slice()
    }
}

impl Sink for MemorySink {
    ghost written = { λ s. Some s.written };

    ghost faults = { λ s. s.plan.failed };

    fn put(&mut self, bytes: &[u8]) -> Result<(), WriteFault>
        ensures answer { Puts (Some self.old.written) (Some self.new.written) bytes.now self.old.plan.failed self.new.plan.failed result }
        ensures count { self.old.plan.failed ≤ self.new.plan.failed }
        ensures exact { PutsBytes self.old self.new bytes.now result }
    {
        if self.plan.next_call_fails() {
            return Err(WriteFault::Failed);
        }
        match self.bytes.extend_from_slice(bytes) {
            Ok(()) => Ok(()),
            Err(_) => Err(WriteFault::NoMemory),
        }
    }
}
