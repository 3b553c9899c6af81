// What is collected while a unit is read, and the steps by which it grows.
ghost use Rattle.std.specs.Prelude.{◌≡◌, length, List, [], Option, Some, None};
ghost use Rattle.wm_marks.specs.Marking as marking;

use crate::numbers::number_of;
use crate::taken::Taken;
use std::alloc::Global;
use std::mem;
use wm_lang::Position;
use wm_ops::{List, NoMemory};
use wm_program::{LoopInfo, SiteInfo, SiteKind};
use wm_scope::{CallPlace, Found, TokenFault};

/// What was collected so far.
#[derive(Drop)]
pub struct Marks {
    /// The sites of the unit.
    pub sites: List<SiteInfo>,
    /// Where a narrowing site stands that has its number behind the next site.
    pub waiting: Option<Position>,
    /// The calls of functions in the function at work.
    pub calls: List<CallPlace>,
    /// The loops of the unit.
    pub loops: List<LoopInfo>,
    /// The numbers of the objects whose address is taken.
    pub objects: Taken,
    /// The numbers of the locals of the function at work whose address is taken.
    pub locals: Taken,
    /// The least fault so far.
    pub least: Option<Found>,
}

impl Marks {
    /// Nothing, without memory.
    pub fn new(alloc: Global) -> Marks
        ensures nothing { result ≡ marking.nothing }
    {
        Marks {
            sites: List::new(alloc),
            waiting: None,
            calls: List::new(alloc),
            loops: List::new(alloc),
            objects: Taken::new(alloc),
            locals: Taken::new(alloc),
            least: None,
        }
    }

    /// Notes a fault at a token.
    pub fn note(&mut self, fault: TokenFault, at: Position)
        ensures noted { self.new ≡ marking.noted fault at self.old }
    {
        let found = Found {
            fault,
            token: at.token,
        };
        self.least = Some(found.or_earlier(self.least));
    }

    fn put(&mut self, kind: SiteKind, at: Position) -> Result<u32, NoMemory>
        ensures { marking.Gives (marking.put kind at self.old) result self.new }
    {
        let number = number_of(self.sites.items().len())?;
        self.sites.push(SiteInfo {
            kind,
            token: at.token,
            place: at.place,
        })?;
        Ok(number)
    }

    fn put_waiting(&mut self) -> Result<(), NoMemory>
        ensures { marking.Gives (marking.put_waiting self.old.waiting self.old) result self.new }
    {
        match self.waiting {
            None => Ok(()),
            Some(at) => {
                self.waiting = None;
                self.put(SiteKind::Narrowing, at)?;
                Ok(())
            }
        }
    }

    #[tactic(auto, unfolding(crate::specs::Marking::site))]
    /// Makes a site and gives its number. A narrowing site that waits has the next one.
    pub fn site(&mut self, kind: SiteKind, at: Position) -> Result<u32, NoMemory>
        ensures site { marking.Gives (marking.site kind at self.old) result self.new }
    {
        let number = self.put(kind, at)?;
        self.put_waiting()?;
        Ok(number)
    }

    #[tactic(auto, unfolding(crate::specs::Marking::site_behind))]
    /// Lets a narrowing site wait for the next site, which stands at the same token, and gives its number.
    pub fn site_behind(&mut self, at: Position) -> Result<u32, NoMemory>
        ensures waits { marking.Gives (marking.site_behind at self.old) result self.new }
    {
        self.waiting = Some(at);
        let number = number_of(self.sites.items().len() + 1)?;
        Ok(number)
    }

    /// Puts a call at the end.
    pub fn call(&mut self, place: CallPlace) -> Result<(), NoMemory>
        ensures call { marking.Gives (marking.called place self.old) result self.new }
    {
        self.calls.push(place)
    }

    /// Begins a loop and gives its number.
    pub fn begin_loop(&mut self, info: LoopInfo) -> Result<u32, NoMemory>
        ensures begun { marking.Gives (marking.looped info self.old) result self.new }
    {
        let number = number_of(self.loops.items().len())?;
        self.loops.push(info)?;
        Ok(number)
    }

    /// The address of an object is taken.
    pub fn take_object(&mut self, object: u32) -> Result<(), NoMemory>
        ensures taken { marking.Gives (marking.took_object object self.old) result self.new }
    {
        self.objects.add(object)
    }

    /// The address of a local is taken.
    pub fn take_local(&mut self, local: u32) -> Result<(), NoMemory>
        ensures taken { marking.Gives (marking.took_local local self.old) result self.new }
    {
        self.locals.add(local)
    }

    /// Begins a function: nothing is collected of it.
    pub fn begin_function(&mut self, alloc: Global)
        ensures begun { self.new ≡ marking.begun self.old }
    {
        self.calls = List::new(alloc);
        self.locals = Taken::new(alloc);
    }

    /// Gives the calls of the function at work away.
    pub fn give_calls(&mut self, alloc: Global) -> List<CallPlace>
        ensures calls { result ≡ self.old.calls }
        ensures rest { self.new ≡ marking.without_calls self.old }
    {
        mem::replace(&mut self.calls, List::new(alloc))
    }
}
