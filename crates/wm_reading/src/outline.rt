// What the items of a unit declare at file scope, before any body is read.
ghost use Rattle.std.specs.Prelude.{◌≡◌, if◌then◌else◌, [], IfOk};
ghost use Rattle.wm_marks.specs.Marking.{Gives};
ghost use Rattle.wm_source.specs.Pieces.{written_items};
ghost use Rattle.wm_reading.specs.Outlines as spec;

use crate::statics::count_statics;
use std::alloc::Global;
use wm_body::{Work, name_of, object_meaning};
use wm_lang::{
    BaseType, Declaration, Declarator, Function, Identifier, Item, Name, Parameter, ParameterKind,
    Position,
};
use wm_marks::number_of;
use wm_ops::{List, NoMemory, Width};
use wm_program::What;
use wm_scope::{Meaning, Named, Signature, Slot, TokenFault, outermost};
use wm_source::width;

/// What a unit declares so far, and how many objects.
#[derive(Drop)]
pub struct Outline {
    pub work: Work,
    pub objects: u32,
}

fn is_nothing(meaning: Meaning) -> bool
    ensures { result ≡ spec.is_nothing meaning }
{
    match meaning {
        Meaning::Operator(_) => false,
        Meaning::Counting(_) => false,
        Meaning::Function(_) => false,
        Meaning::Scalar { .. } => false,
        Meaning::Array { .. } => false,
        Meaning::Nothing => true,
    }
}

impl Outline {
    /// Tells a name that may not be declared again.
    fn tell_unless(&mut self, is_free: bool, at: Position)
        ensures { self.new ≡ (if is_free then self.old else spec.told TokenFault.Redefined at self.old) }
    {
        if !is_free {
            self.work.marks.note(TokenFault::Redefined, at);
        }
    }

    /// Tells a name from outside of the source.
    fn check(&mut self, name: &Identifier)
        ensures { self.new ≡ spec.told_outermost name.now self.old }
    {
        let is_free = is_nothing(outermost(name.name.bytes()));
        self.tell_unless(is_free, name.at);
    }

    #[tactic(auto, unfolding(crate::specs::Outlines::declare))]
    /// Declares a name at file scope. The first declaration of a name holds.
    fn declare(
        &mut self,
        alloc: Global,
        name: &Identifier,
        meaning: Meaning,
    ) -> Result<(), NoMemory>
        ensures { Gives (spec.declare name.now meaning self.old) result self.new }
    {
        self.check(name);
        if self.work.scope.file.has(name.name.bytes()) {
            self.work.marks.note(TokenFault::Redefined, name.at);
            return Ok(());
        }
        let name = Name::new(alloc, name.name.bytes())?;
        self.work.scope.file.push(Named { name, meaning })
    }

    #[tactic(auto, unfolding(crate::specs::Outlines::object))]
    /// An object of file scope.
    fn object(
        &mut self,
        declarator: &Declarator,
        width: Width,
        is_const: bool,
        alloc: Global,
    ) -> Result<(), NoMemory>
        ensures { Gives (spec.object width is_const declarator.now self.old) result self.new }
    {
        let meaning = object_meaning(self.objects, width, is_const, is_array(declarator));
        self.objects = number_of(self.objects as usize + 1)?;
        self.declare(alloc, name_of(declarator), meaning)
    }

    #[tactic(auto, unfolding(crate::specs::Outlines::object_where))]
    /// A declarator of file scope.
    fn declared(
        &mut self,
        is_extern: bool,
        declarator: &Declarator,
        width: Width,
        is_const: bool,
        alloc: Global,
    ) -> Result<(), NoMemory>
        ensures { Gives (spec.object_where (spec.makes is_extern declarator.now) width is_const declarator.now self.old) result self.new }
    {
        if makes(is_extern, declarator) {
            return self.object(declarator, width, is_const, alloc);
        }
        Ok(())
    }

    #[tactic(auto, unfolding(crate::specs::Outlines::noted_function))]
    fn note_function(&mut self, at: Position)
        ensures { self.new ≡ spec.noted_function at self.old }
    {
        if self.work.scope.signatures.items().len() < 1024 {
            return;
        }
        self.work
            .marks
            .note(TokenFault::TooMany(What::Functions), at);
    }

    #[tactic(auto, unfolding(crate::specs::Outlines::function))]
    /// A function with a block.
    fn function(&mut self, function: &Function, alloc: Global) -> Result<(), NoMemory>
        ensures { Gives (spec.function function.now self.old) result self.new }
    {
        match &function.body {
            None => Ok(()),
            Some(block) => {
                self.note_function(function.name.at);
                let number = number_of(self.work.scope.signatures.items().len())?;
                let slots = slots_of(alloc, function.parameters.as_slice())?;
                self.work.scope.signatures.push(Signature {
                    result: maybe_width(function.result),
                    slots,
                })?;
                count_statics(&block.items, &mut self.objects)?;
                self.declare(alloc, &function.name, Meaning::Function(number))
            }
        }
    }

    #[tactic(auto, unfolding(crate::specs::Outlines::objects_of))]
    fn objects_of(&mut self, declaration: &Declaration, alloc: Global) -> Result<(), NoMemory>
        ensures { Gives (spec.objects_of declaration.now self.old) result self.new }
    {
        let width = width(declaration.base);
        let is_const = declaration.words.is_const;
        let is_extern = declaration.words.is_extern;
        for declarator in declaration.declarators.as_slice() {
            self.declared(is_extern, declarator, width, is_const, alloc)?;
        }
        Ok(())
    }

    #[tactic(auto, unfolding(crate::specs::Outlines::item))]
    fn item(&mut self, item: &Item, alloc: Global) -> Result<(), NoMemory>
        ensures { Gives (spec.item item.now self.old) result self.new }
    {
        match item {
            Item::Objects(declaration) => self.objects_of(declaration, alloc),
            Item::Function(function) => self.function(function, alloc),
            Item::Struct(_) => Ok(()),
            Item::StructObjects(_) => Ok(()),
        }
    }

    /// What all items declare.
    pub fn items(&mut self, items: &[Item], alloc: Global) -> Result<(), NoMemory>
        ensures items { Gives (spec.items items.now self.old) result self.new }
    {
        for item in items {
            self.item(item, alloc)?;
        }
        Ok(())
    }
}

fn is_array(declarator: &Declarator) -> bool
    ensures { result ≡ spec.is_array declarator.now }
{
    match declarator {
        Declarator::Scalar { .. } => false,
        Declarator::Array { .. } => true,
    }
}

/// Whether a declarator of file scope makes an object: not one that is extern and has no initialiser.
pub fn makes(is_extern: bool, declarator: &Declarator) -> bool
    ensures makes { result ≡ spec.makes is_extern declarator.now }
{
    if is_extern {
        return match declarator {
            Declarator::Scalar { initial, .. } => initial.is_some(),
            Declarator::Array { initial, .. } => initial.is_some(),
        };
    }
    true
}

pub fn maybe_width(base: Option<BaseType>) -> Option<Width>
    ensures width { result ≡ spec.maybe_width base }
{
    match base {
        None => None,
        Some(base) => Some(width(base)),
    }
}

/// What a parameter takes.
pub fn slot_of(parameter: &Parameter) -> Slot
    ensures slot { result ≡ spec.slot_of parameter.now }
{
    let is_const = parameter.is_const;
    match &parameter.kind {
        ParameterKind::Scalar(base) => Slot {
            width: width(*base),
            is_view: false,
            is_const,
        },
        ParameterKind::Array { element, .. } => Slot {
            width: width(*element),
            is_view: true,
            is_const,
        },
        ParameterKind::Pointer(base) => Slot {
            width: width(*base),
            is_view: true,
            is_const,
        },
        ParameterKind::Struct(_) => Slot {
            width: Width::W32,
            is_view: true,
            is_const,
        },
    }
}

fn slots_of(alloc: Global, parameters: &[Parameter]) -> Result<List<Slot>, NoMemory>
    ensures { IfOk result (λ slots. slots ≡ spec.slots_of parameters.now) }
{
    let mut slots = List::new(alloc);
    for parameter in parameters {
        slots.push(slot_of(parameter))?;
    }
    Ok(slots)
}
