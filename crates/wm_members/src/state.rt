// What is known while a unit is rewritten: its structs, its functions, the names in scope, and the least fault so far.
ghost use Rattle.std.specs.Prelude.{◌≡◌, IfOk, OnOk, unwrap_or, slice_get};
ghost use Rattle.std.specs.Option.{option_copied};
ghost use Rattle.wm_members.specs.States.{at_start, noted, noted_where, meaning_or, meaning_from, meaning_of, is_struct, after_use, entered, left, is_twice, with_name, declared, structure_number, noted_unless, structure_of, members_at, member_of, function_of, slot_of, slot_at};
ghost use Rattle.wm_members.specs.Tables.{all_of};

use crate::fault::{Found, Kind};
use crate::member::Member;
use crate::table::Table;
use sqlite_items::Items;
use std::alloc::Global;
use std::mem;
use wm_lang::Identifier;
use wm_ops::NoMemory;

/// What a name stands for. A struct is given by its number, None where its name is unknown.
#[derive(Clone, Copy)]
pub enum Meaning {
    /// A struct object.
    Object(Option<usize>),
    /// A struct parameter.
    Parameter(Option<usize>),
    /// A function with a block, by its number.
    Function(usize),
    /// Any other name, and a name that is not declared.
    Other,
}

/// What stands at a place among the parameters of a function.
#[derive(Clone, Copy)]
pub enum Slot {
    /// No struct parameter, or no parameter at all.
    Plain,
    /// A parameter of the struct of this number, None where its name is unknown.
    Struct(Option<usize>),
}

/// The structs and functions of a unit, the names in scope, and the least fault so far.
#[derive(Drop)]
pub struct State<'u> {
    /// The number of each struct.
    pub numbers: Table<'u, usize>,
    /// The members of each struct, by number.
    pub structures: Items<Table<'u, Member<'u>>>,
    /// The places of each function with a block, by number.
    pub functions: Items<Items<Slot>>,
    /// The scopes around the innermost one, the outermost first.
    pub outer: Items<Table<'u, Meaning>>,
    pub innermost: Table<'u, Meaning>,
    pub least: Option<Found>,
}

impl Meaning {
    pub fn is_struct(self) -> bool
        ensures is { result ≡ is_struct self }
    {
        match self {
            Meaning::Object(_) => true,
            Meaning::Parameter(_) => true,
            Meaning::Function(_) => false,
            Meaning::Other => false,
        }
    }

    /// The function of this name.
    pub fn function(self) -> Option<usize>
        ensures function { result ≡ function_of self }
    {
        match self {
            Meaning::Object(_) => None,
            Meaning::Parameter(_) => None,
            Meaning::Function(number) => Some(number),
            Meaning::Other => None,
        }
    }
}

/// What a name stands for in a scope, or else outside of it.
fn meaning_in(scope: &Table<'_, Meaning>, name: &[u8], outside: Meaning) -> Meaning
    ensures meaning { result ≡ meaning_or scope.now name.now outside }
{
    match scope.get(name) {
        None => outside,
        Some(meaning) => *meaning,
    }
}

/// What a name stands for in scopes, each inside the one before.
fn meaning_within(scopes: &[Table<'_, Meaning>], name: &[u8]) -> Meaning
    ensures meaning { result ≡ meaning_from Meaning.Other name.now scopes.now }
{
    let mut meaning = Meaning::Other;
    for scope in scopes {
        meaning = meaning_in(scope, name, meaning);
    }
    meaning
}

/// Whether a name is declared twice, where it is in the scope already.
fn is_again(scope: &Table<'_, Meaning>, name: &[u8], meaning: Meaning) -> bool
    ensures twice { result ≡ is_twice scope.now name.now meaning }
{
    match scope.get(name) {
        None => false,
        Some(first) => {
            if first.is_struct() {
                return true;
            }
            meaning.is_struct()
        }
    }
}

fn slot_among(slots: &Items<Slot>, place: usize) -> Slot
    ensures slot { result ≡ unwrap_or (slice_get slots.now place) Slot.Plain }
{
    match slots.get(place) {
        None => Slot::Plain,
        Some(slot) => *slot,
    }
}

/// The same members.
fn copies<'u>(members: &[Member<'u>], alloc: Global) -> Result<Items<Member<'u>>, NoMemory>
    ensures same { IfOk result (λ copies. copies ≡ members.now) }
{
    let mut copies = Items::new(alloc);
    for member in members {
        copies.push(member.copied())?;
    }
    Ok(copies)
}

impl<'u> State<'u> {
    /// Nothing is declared.
    pub fn new(alloc: Global) -> State<'u>
        ensures start { result ≡ at_start }
    {
        State {
            numbers: Table::new(alloc),
            structures: Items::new(alloc),
            functions: Items::new(alloc),
            outer: Items::new(alloc),
            innermost: Table::new(alloc),
            least: None,
        }
    }

    /// Notes a fault.
    pub fn note(&mut self, kind: Kind, token: usize)
        ensures noted { self.new ≡ noted kind token self.old }
    {
        let found = Found { kind, token };
        self.least = Some(found.or_earlier(self.least));
    }

    /// Notes a fault, if there is one.
    pub fn note_where(&mut self, is_fault: bool, kind: Kind, token: usize)
        ensures noted { self.new ≡ noted_where is_fault kind token self.old }
    {
        if is_fault {
            self.note(kind, token);
        }
    }

    /// What a name stands for.
    pub fn meaning(&self, name: &[u8]) -> Meaning
        ensures meaning { result ≡ meaning_of name.now self.now }
    {
        meaning_in(
            &self.innermost,
            name,
            meaning_within(self.outer.as_slice(), name),
        )
    }

    /// Looks at a name where no struct object and no struct parameter may stand.
    pub fn see_use(&mut self, name: &Identifier)
        ensures seen { self.new ≡ after_use name.now self.old }
    {
        let is_struct = self.meaning(name.name.bytes()).is_struct();
        self.note_where(is_struct, Kind::StructKind, name.at.token);
    }

    /// Opens a scope.
    pub fn enter(&mut self, alloc: Global) -> Result<(), NoMemory>
        ensures entered { OnOk result (self.new ≡ entered self.old) }
    {
        let outside = mem::replace(&mut self.innermost, Table::new(alloc));
        self.outer.push(outside)?;
        Ok(())
    }

    /// Closes the innermost scope.
    pub fn leave(&mut self)
        ensures left { self.new ≡ left self.old }
    {
        match self.outer.pop() {
            None => {}
            Some(outside) => {
                let _closed = mem::replace(&mut self.innermost, outside);
            }
        }
    }

    /// Declares a name in the innermost scope.
    pub fn declare(&mut self, name: &'u Identifier, meaning: Meaning) -> Result<(), NoMemory>
        ensures declared { OnOk result (self.new ≡ declared name.now meaning self.old) }
    {
        let is_twice = is_again(&self.innermost, name.name.bytes(), meaning);
        self.note_where(is_twice, Kind::StructTwice, name.at.token);
        self.innermost.add(name.name.bytes(), meaning)
    }

    /// The number of a struct.
    pub fn number(&self, name: &[u8]) -> Option<usize>
        ensures number { result ≡ structure_number name.now self.now }
    {
        self.numbers.get(name).copied()
    }

    /// The number of a struct where its name is used, which is to be declared before.
    pub fn number_used(&mut self, name: &Identifier) -> Option<usize>
        ensures used { (result, self.new) ≡ structure_of name.now self.old }
    {
        match self.number(name.name.bytes()) {
            None => {
                self.note(Kind::NoStruct, name.at.token);
                None
            }
            Some(number) => Some(number),
        }
    }

    /// Copies of the members of a struct, in order.
    pub fn members(&self, number: usize, alloc: Global) -> Result<Items<Member<'u>>, NoMemory>
        ensures members { IfOk result (λ members. members ≡ all_of (members_at number self.now.structures)) }
    {
        match self.structures.get(number) {
            None => Ok(Items::new(alloc)),
            Some(members) => copies(members.values(), alloc),
        }
    }

    /// A member of a struct.
    pub fn member(&self, number: usize, name: &[u8]) -> Option<&Member<'u>>
        ensures member { option_copied result ≡ member_of number name.now self.now }
    {
        match self.structures.get(number) {
            None => None,
            Some(members) => members.get(name),
        }
    }

    /// What stands at a place among the parameters of a function.
    pub fn slot(&self, function: Option<usize>, place: usize) -> Slot
        ensures slot { result ≡ slot_at self.now.functions function place }
    {
        match function {
            None => Slot::Plain,
            Some(number) => match self.functions.get(number) {
                None => Slot::Plain,
                Some(slots) => slot_among(slots, place),
            },
        }
    }
}
