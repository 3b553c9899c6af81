// One way through a unit.
ghost use Rattle.std.specs.Prelude.{◌≡◌, [], IfOk};
ghost use Rattle.wm_marks.specs.Marking.{Gives};
ghost use Rattle.wm_reading.specs.Reading as spec;

use crate::finish::objects;
use crate::function::function;
use crate::outline::{Outline, makes};
use std::alloc::Global;
use wm_body::{Work, object};
use wm_lang::{Declaration, Declarator, Function, Item, Name, Unit};
use wm_marks::{Marks, number_of};
use wm_ops::{List, NoMemory, Width};
use wm_program::FunctionInfo;
use wm_scope::{CallPlace, Names, Reading, Scope};
use wm_source::width;

/// What was read of a unit so far.
#[derive(Drop)]
pub struct Pass {
    pub work: Work,
    pub functions: List<FunctionInfo>,
    pub calls: List<List<CallPlace>>,
}

fn offsets_at(offsets: &[List<u32>], number: usize) -> &[u32]
    ensures { result.now ≡ spec.offsets_at number offsets.now }
{
    match offsets.get(number) {
        None => &[],
        Some(list) => list.items(),
    }
}

#[tactic(auto, unfolding(crate::specs::Reading::declared))]
/// A declarator of file scope.
fn declared(
    is_extern: bool,
    declarator: &Declarator,
    width: Width,
    is_const: bool,
    alloc: Global,
    work: &mut Work,
) -> Result<(), NoMemory>
    ensures { Gives (spec.declared is_extern width is_const declarator.now work.old) result work.new }
{
    if makes(is_extern, declarator) {
        object(declarator, width, is_const, alloc, work)?;
        return Ok(());
    }
    Ok(())
}

#[tactic(auto, unfolding(crate::specs::Reading::declaration))]
fn declaration(declaration: &Declaration, alloc: Global, work: &mut Work) -> Result<(), NoMemory>
    ensures { Gives (spec.declaration declaration.now work.old) result work.new }
{
    let width = width(declaration.base);
    let is_const = declaration.words.is_const;
    let is_extern = declaration.words.is_extern;
    for declarator in declaration.declarators.as_slice() {
        declared(is_extern, declarator, width, is_const, alloc, work)?;
    }
    Ok(())
}

impl Pass {
    #[tactic(auto, unfolding(crate::specs::Reading::function))]
    fn function(
        &mut self,
        read: &Function,
        offsets: &[List<u32>],
        alloc: Global,
    ) -> Result<(), NoMemory>
        ensures { Gives (spec.function offsets.now read.now self.old) result self.new }
    {
        match &read.body {
            None => Ok(()),
            Some(block) => {
                let place = self.functions.items().len();
                let number = number_of(place)?;
                let its = offsets_at(offsets, place);
                let info = function(read, block, number, its, alloc, &mut self.work)?;
                self.functions.push(info)?;
                self.calls.push(self.work.marks.give_calls(alloc))
            }
        }
    }

    #[tactic(auto, unfolding(crate::specs::Reading::item))]
    fn item(&mut self, item: &Item, offsets: &[List<u32>], alloc: Global) -> Result<(), NoMemory>
        ensures { Gives (spec.item offsets.now item.now self.old) result self.new }
    {
        match item {
            Item::Objects(objects) => declaration(objects, alloc, &mut self.work),
            Item::Function(read) => self.function(read, offsets, alloc),
            Item::Struct(_) => Ok(()),
            Item::StructObjects(_) => Ok(()),
        }
    }

    fn items(
        &mut self,
        items: &[Item],
        offsets: &[List<u32>],
        alloc: Global,
    ) -> Result<(), NoMemory>
        ensures { Gives (spec.items offsets.now items.now self.old) result self.new }
    {
        for item in items {
            self.item(item, offsets, alloc)?;
        }
        Ok(())
    }
}

fn begin(alloc: Global) -> Result<Work, NoMemory>
    ensures { IfOk result (λ work. work ≡ spec.start) }
{
    let name = Name::new(alloc, &[])?;
    Ok(Work {
        scope: Scope {
            file: Names::new(alloc),
            signatures: List::new(alloc),
            offsets: List::new(alloc),
            locals: Names::new(alloc),
            outer: 0,
        },
        marks: Marks::new(alloc),
        objects: List::new(alloc),
        locals: List::new(alloc),
        function: 0,
        name,
        result: None,
    })
}

#[tactic(auto, unfolding(crate::specs::Reading::reading_of))]
fn finish(pass: Pass, alloc: Global) -> Result<Reading, NoMemory>
    ensures { IfOk result (λ reading. reading ≡ spec.reading_of pass) }
{
    let Pass {
        work,
        functions,
        calls,
    } = pass;
    let objects = objects(alloc, work.objects.items(), &work.marks.objects)?;
    let Work { marks, .. } = work;
    let Marks {
        sites,
        loops,
        least,
        ..
    } = marks;
    Ok(Reading {
        functions,
        objects,
        sites,
        loops,
        calls,
        least,
    })
}

#[tactic(auto, unfolding(crate::specs::Reading::read_unit))]
/// One way through a unit without struct forms. To the instance of a caller the numbers of `offsets`, by function and by call
/// in the order of the source, are added to give the called one; where a number is absent it is 0. The least fault at a token
/// is part of the result; where there is one the rest may be any stand-in but the calls. More than 2^32 of anything is want of
/// memory.
pub fn read_unit(alloc: Global, unit: &Unit, offsets: &[List<u32>]) -> Result<Reading, NoMemory>
    ensures reading { IfOk result (λ reading. reading ≡ spec.read_unit unit.now offsets.now) }
{
    let mut outline = Outline {
        work: begin(alloc)?,
        objects: 0,
    };
    outline.items(unit.items.items(), alloc)?;
    let Outline { work, .. } = outline;
    let mut pass = Pass {
        work,
        functions: List::new(alloc),
        calls: List::new(alloc),
    };
    pass.items(unit.items.items(), offsets, alloc)?;
    finish(pass, alloc)
}
