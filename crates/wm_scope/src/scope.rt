// The names in force at a place of a unit.
ghost use Rattle.std.specs.Prelude.{◌≡◌, [], ◌∷◌, ◌++◌, length, OnOk, OnErr};
ghost use Rattle.std.specs.Option.{option_copied};
ghost use Rattle.wm_scope.specs.Names.{outermost, latest};
ghost use Rattle.wm_scope.specs.Scopes.{meaning_of, is_here, with_name, opened, closed, offset_of, slots_of, result_of};

use crate::meaning::{Meaning, Named, outermost};
use crate::names::Names;
use std::alloc::Global;
use wm_lang::Name;
use wm_ops::{List, NoMemory, Width};

/// What a function takes at a place.
#[derive(Clone, Copy, Debug, PartialEq, Eq)]
pub struct Slot {
    /// The width of the number, or of the elements of the view.
    pub width: Width,
    /// Whether it takes a view.
    pub is_view: bool,
    pub is_const: bool,
}

/// How a function is called.
#[derive(Drop)]
pub struct Signature {
    /// None for `void`.
    pub result: Option<Width>,
    pub slots: List<Slot>,
}

/// The names in force.
#[derive(Drop)]
pub struct Scope {
    /// Those of file scope, from the whole unit.
    pub file: Names,
    /// How each function is called, by its number.
    pub signatures: List<Signature>,
    /// What is added to the instance of the function at work at each of its calls.
    pub offsets: List<u32>,
    /// Those of the blocks around the place, the outermost first. The last of one name hides the others.
    pub locals: Names,
    /// How many of them stand outside of the innermost block.
    pub outer: usize,
}

impl Scope {
    /// What a name stands for outside of blocks.
    fn meaning_outside(&self, word: &[u8]) -> Meaning
        ensures { result ≡ latest word.now self.now.file (outermost word.now) }
    {
        match self.file.latest(word) {
            Some(meaning) => meaning,
            None => outermost(word),
        }
    }

    /// What a name stands for.
    pub fn meaning(&self, word: &[u8]) -> Meaning
        ensures meaning { result ≡ meaning_of word.now self.now }
    {
        match self.locals.latest(word) {
            Some(meaning) => meaning,
            None => self.meaning_outside(word),
        }
    }

    /// Whether a name is declared in the innermost block.
    pub fn is_here(&self, word: &[u8]) -> bool
        ensures here { result ≡ is_here word.now self.now }
    {
        self.locals.has_behind(self.outer, word)
    }

    /// What is added at this call of the function at work; 0 where nothing is said.
    pub fn offset(&self, call: usize) -> u32
        ensures offset { result ≡ offset_of call self.now }
    {
        match self.offsets.items().get(call) {
            None => 0,
            Some(offset) => *offset,
        }
    }

    /// What a function takes; nothing where there is none of this number.
    pub fn slots(&self, function: u32) -> &[Slot]
        ensures slots { result.now ≡ slots_of function self.now }
    {
        match self.signatures.items().get(function as usize) {
            None => &[],
            Some(signature) => signature.slots.items(),
        }
    }

    /// The width of a function's result.
    pub fn result(&self, function: u32) -> Option<Width>
        ensures width { result ≡ result_of function self.now }
    {
        match self.signatures.items().get(function as usize) {
            None => None,
            Some(signature) => signature.result,
        }
    }

    /// Declares a name in the innermost block.
    pub fn declare(&mut self, alloc: Global, word: &[u8], meaning: Meaning) -> Result<(), NoMemory>
        ensures declared { OnOk result (self.new ≡ with_name word.now meaning self.old) }
    {
        let name = Name::new(alloc, word)?;
        self.locals.push(Named { name, meaning })
    }

    /// Opens a block, and gives how many names stood outside of the block around it.
    pub fn open(&mut self) -> usize
        ensures outer { result ≡ self.old.outer }
        ensures opened { self.new ≡ opened self.old }
    {
        let outer = self.outer;
        self.outer = self.locals.len();
        outer
    }

    /// Leaves a block, where this many names stand outside of the one around it.
    pub fn close(&mut self, outer: usize)
        ensures closed { self.new ≡ closed outer self.old }
    {
        self.locals.keep(self.outer);
        self.outer = outer;
    }
}

#[cfg(test)]
mod tests {
    use super::{Scope, Signature, Slot};
    use crate::meaning::Meaning;
    use crate::names::Names;
    use std::process::Abort;
    use std::test::Fail;
    use wm_ops::{CountCall, List, Op, Width};
    use wm_program::Scalar;

    fn local(number: u32) -> Meaning {
        Meaning::Scalar {
            scalar: Scalar::Local(number),
            width: Width::W16,
            is_const: false,
        }
    }

    fn empty(rt: HostRuntime) -> Scope {
        Scope {
            file: Names::new(rt.alloc()),
            signatures: List::new(rt.alloc()),
            offsets: List::new(rt.alloc()),
            locals: Names::new(rt.alloc()),
            outer: 0,
        }
    }

    #[test]
    fn an_inner_name_hides_an_outer_one(rt: HostRuntime) -> Result<(), Fail> {
        let mut scope = empty(rt);
        let v = b"v".as_slice();
        assert_eq!(rt;
            scope.meaning(b"add".as_slice()),
            Meaning::Operator(Op::Add)
        );
        assert_eq!(rt;
            scope.meaning(b"round_fx".as_slice()),
            Meaning::Operator(Op::Round)
        );
        assert_eq!(rt;
            scope.meaning(b"test".as_slice()),
            Meaning::Counting(CountCall::Test)
        );
        assert_eq!(rt; scope.meaning(v), Meaning::Nothing);
        scope.declare(rt.alloc(), v, local(0))?;
        let outer = scope.open();
        assert!(rt; !scope.is_here(v));
        assert_eq!(rt; scope.meaning(v), local(0));
        scope.declare(rt.alloc(), v, local(1))?;
        scope.declare(rt.alloc(), b"add".as_slice(), local(2))?;
        assert!(rt; scope.is_here(v));
        assert_eq!(rt; scope.meaning(v), local(1));
        assert_eq!(rt; scope.meaning(b"add".as_slice()), local(2));
        scope.close(outer);
        assert!(rt; scope.is_here(v));
        assert_eq!(rt; scope.meaning(v), local(0));
        assert_eq!(rt;
            scope.meaning(b"add".as_slice()),
            Meaning::Operator(Op::Add)
        );
        Ok(())
    }

    #[test]
    fn functions_are_told_by_their_numbers(rt: HostRuntime) -> Result<(), Fail> {
        let mut scope = empty(rt);
        let mut slots = List::new(rt.alloc());
        slots.push(Slot {
            width: Width::W32,
            is_view: true,
            is_const: false,
        })?;
        scope.signatures.push(Signature {
            result: Some(Width::W16),
            slots,
        })?;
        scope.offsets.push(7)?;
        assert_eq!(rt; scope.result(0), Some(Width::W16));
        assert_eq!(rt; scope.result(1), None);
        assert_eq!(rt; scope.slots(0).len(), 1);
        assert_eq!(rt; scope.slots(1).len(), 0);
        assert_eq!(rt; scope.offset(0), 7);
        assert_eq!(rt; scope.offset(1), 0);
        Ok(())
    }
}
