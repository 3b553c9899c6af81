// What stands while a unit is read, and the steps that change it.
ghost use Rattle.std.specs.Prelude.{◌≡◌, ◌∷◌, ◌++◌, [], length, IfOk};
ghost use Rattle.wm_marks.specs.Marking.{Gives};
ghost use Rattle.wm_body.specs.Works as works;

use std::alloc::Global;
use wm_lang::{Identifier, Name, Position};
use wm_marks::{Marks, number_of};
use wm_ops::{List, NoMemory, Width};
use wm_program::{LocalInfo, LoopInfo, ObjectInfo, What};
use wm_scope::{Meaning, Names, Scope, TokenFault};

/// What stands while a unit is read.
#[derive(Drop)]
pub struct Work {
    pub scope: Scope,
    pub marks: Marks,
    /// The objects of the unit so far. Of none it is told whether its address is taken.
    pub objects: List<ObjectInfo>,
    /// The locals of the function at work so far. Of none it is told whether its address is taken.
    pub locals: List<LocalInfo>,
    /// The number of the function at work.
    pub function: u32,
    /// Its name.
    pub name: Name,
    /// The width of its result.
    pub result: Option<Width>,
}

impl Work {
    #[tactic(auto, unfolding(crate::specs::Works::checked))]
    /// A name that is declared in the innermost block is told where the block has it already.
    pub fn check(&mut self, name: &Identifier)
        ensures checked { self.new ≡ works.checked name.now self.old }
    {
        if self.scope.is_here(name.name.bytes()) {
            self.marks.note(TokenFault::Redefined, name.at);
        }
    }

    #[tactic(auto, unfolding(crate::specs::Works::declare))]
    /// Declares a name in the innermost block.
    pub fn declare(
        &mut self,
        alloc: Global,
        name: &Identifier,
        meaning: Meaning,
    ) -> Result<(), NoMemory>
        ensures declared { Gives (works.declare name.now meaning self.old) result self.new }
    {
        self.scope.declare(alloc, name.name.bytes(), meaning)
    }

    fn note_local(&mut self, at: Position)
        ensures { self.new ≡ works.noted_local at self.old }
    {
        if self.locals.items().len() < 256 {
            return;
        }
        self.marks.note(TokenFault::TooMany(What::Locals), at);
    }

    #[tactic(auto, unfolding(crate::specs::Works::make_local))]
    /// Makes a local and gives its number.
    pub fn make_local(
        &mut self,
        alloc: Global,
        name: &Identifier,
        width: Width,
        array: Option<u32>,
        view: bool,
    ) -> Result<u32, NoMemory>
        ensures local { Gives (works.make_local name.now width array view self.old) result self.new }
    {
        self.note_local(name.at);
        let number = number_of(self.locals.items().len())?;
        let name = Name::new(alloc, name.name.bytes())?;
        self.locals.push(LocalInfo {
            name,
            width,
            array,
            view,
            addressed: false,
        })?;
        Ok(number)
    }

    fn note_object(&mut self, at: Position)
        ensures { self.new ≡ works.noted_object at self.old }
    {
        if self.objects.items().len() < 512 {
            return;
        }
        self.marks.note(TokenFault::TooMany(What::Objects), at);
    }

    #[tactic(auto, unfolding(crate::specs::Works::make_object))]
    /// Makes an object and gives its number.
    pub fn make_object(&mut self, at: Position, object: ObjectInfo) -> Result<u32, NoMemory>
        ensures object { Gives (works.make_object at object self.old) result self.new }
    {
        self.note_object(at);
        let number = number_of(self.objects.items().len())?;
        self.objects.push(object)?;
        Ok(number)
    }

    fn note_loop(&mut self, at: Position, depth: u32)
        ensures { self.new ≡ works.noted_loop at depth self.old }
    {
        if depth < 8 {
            return;
        }
        self.marks.note(TokenFault::TooMany(What::LoopNest), at);
    }

    #[tactic(auto, unfolding(crate::specs::Works::make_loop))]
    /// Makes a loop with this many around it, and gives its number.
    pub fn make_loop(&mut self, at: Position, step: u32, depth: u32) -> Result<u32, NoMemory>
        ensures made { Gives (works.make_loop at step depth self.old) result self.new }
    {
        self.note_loop(at, depth);
        self.marks.begin_loop(LoopInfo {
            function: self.function,
            token: at.token,
            place: at.place,
            step,
            depth,
        })
    }

    #[tactic(auto, unfolding(crate::specs::Works::entered))]
    /// Enters a block.
    pub fn enter(&mut self)
        ensures entered { self.new ≡ works.entered self.old }
    {
        self.scope.open();
    }

    #[tactic(auto, unfolding(crate::specs::Works::quit))]
    /// Leaves a block, where this many names stand outside of the one around it.
    pub fn leave(&mut self, outer: usize)
        ensures quit { self.new ≡ works.quit outer self.old }
    {
        self.scope.close(outer);
    }

    #[tactic(auto, unfolding(crate::specs::Works::leapt))]
    /// Tells a break or continue outside of loops.
    pub fn leap(&mut self, at: Position, depth: u32)
        ensures leapt { self.new ≡ works.leapt at depth self.old }
    {
        if depth == 0 {
            self.marks.note(TokenFault::BreakOutside, at);
        }
    }
}

/// How many loops stand around what a loop holds, where this many stand around it. More than 8 are told, and counted as 8.
pub fn deeper(depth: u32) -> u32
    ensures deeper { result ≡ works.deeper depth }
{
    if depth < 8 {
        return depth + 1;
    }
    depth
}

/// The name of an object of a block: that of the function, a point, and its own.
pub fn static_name(alloc: Global, function: &[u8], name: &[u8]) -> Result<Name, NoMemory>
    ensures name { IfOk result (λ it. it ≡ works.static_name function.now name.now) }
{
    let mut bytes = Vec::from_slice(alloc, function)?;
    bytes.push(b'.')?;
    bytes.extend_from_slice(name)?;
    Name::new(alloc, bytes.as_slice())
}
