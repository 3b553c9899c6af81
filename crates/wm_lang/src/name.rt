// A name of a source, a specification or a weights file, as an owned list of bytes.
ghost use Rattle.std.specs.Prelude.{◌≡◌, ℕ, List, IfOk};

use std::alloc::Global;
use std::marker::Model;
use wm_ops::NoMemory;

/// The bytes of a name, which contracts see as a list.
#[derive(Drop)]
pub struct Name {
    bytes: Vec<u8>,
}

impl Model for Name {
    ghost Value = { List ℕ };

    ghost view = { λ name. name.bytes.items };
}

impl Name {
    /// A name of these bytes.
    pub fn new(alloc: Global, bytes: &[u8]) -> Result<Name, NoMemory>
        ensures bytes { IfOk result (λ name. name ≡ bytes.now) }
    {
        let bytes = Vec::from_slice(alloc, bytes)?;
        Ok(Name { bytes })
    }

    /// The bytes, without memory.
    pub fn bytes(&self) -> &[u8]
        ensures bytes { result.now ≡ self.now }
    {
        self.bytes.as_slice()
    }
}
