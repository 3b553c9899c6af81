// A linked program: its functions, objects, sites, loops, instances and inputs.
use crate::tree::Body;
use wm_interval::Interval;
use wm_lang::{Name, Place};
use wm_ops::{List, Op, Width};

/// A linked program. What is numbered is numbered from 0.
#[derive(Drop)]
pub struct Program {
    /// The functions that have a block, in the order of the source.
    pub functions: List<FunctionInfo>,
    /// The objects of static storage, in the order of declaration.
    pub objects: List<ObjectInfo>,
    /// The places that may fail, by token, and at one token index, operator, arithmetic, narrowing.
    pub sites: List<SiteInfo>,
    /// The loops, in the order of the source.
    pub loops: List<LoopInfo>,
    /// One for each chain of call places, depth first: the tree of init before that of the frame function, and calls in
    /// the order of the source.
    pub instances: List<InstanceInfo>,
    /// The inputs, in the order in which a frame's samples give them.
    pub inputs: List<InputInfo>,
    /// The different numbers that the number tokens of all function bodies stand for, in growing order.
    pub constants: List<i64>,
    /// The instance that runs once before all frames.
    pub init: Option<u32>,
    /// The instance that runs for each frame.
    pub frame: u32,
}

/// A function.
#[derive(Drop)]
pub struct FunctionInfo {
    pub name: Name,
    /// None for `void`.
    pub result: Option<Width>,
    /// The parameters and then the automatic variables, in the order of declaration.
    pub locals: List<LocalInfo>,
    /// How many of the locals are parameters.
    pub parameters: u32,
    pub body: Body,
    /// The number of tokens of the block, both braces included.
    pub tokens: u32,
}

/// A parameter or an automatic variable.
#[derive(Drop)]
pub struct LocalInfo {
    pub name: Name,
    pub width: Width,
    /// The length of an automatic array, at least 1.
    pub array: Option<u32>,
    /// Whether it is a view parameter.
    pub view: bool,
    /// Whether it is a scalar whose address is taken.
    pub addressed: bool,
}

/// An object of static storage.
#[derive(Drop)]
pub struct ObjectInfo {
    pub name: Name,
    pub width: Width,
    /// The number of cells, at least 1.
    pub length: u32,
    /// Whether it is no array.
    pub scalar: bool,
    pub constant: bool,
    /// Whether its address is taken.
    pub addressed: bool,
    /// The numbers that its cells begin with; cells behind them begin with 0.
    pub initial: List<i64>,
    pub input: bool,
}

/// What may fail at a site.
#[derive(Clone, Copy, Debug, PartialEq, Eq)]
pub enum SiteKind {
    Operator(Op),
    Index,
    View,
    Arithmetic,
    Narrowing,
}

/// A site.
#[derive(Clone, Copy)]
pub struct SiteInfo {
    pub kind: SiteKind,
    /// The number of its token.
    pub token: usize,
    pub place: Place,
}

/// A loop.
#[derive(Clone, Copy)]
pub struct LoopInfo {
    /// The function in which it stands.
    pub function: u32,
    /// The number of its word's token.
    pub token: usize,
    pub place: Place,
    /// What its counter grows by with each turn, 1 to 32767.
    pub step: u32,
    /// How many loops of the function stand around it.
    pub depth: u32,
}

/// An instance of a function: one for each chain of call places that leads to it.
#[derive(Drop)]
pub struct InstanceInfo {
    pub function: u32,
    /// The instance that calls it; none for init and the frame function.
    pub caller: Option<u32>,
    /// The name of the called function at the call.
    pub call: Option<Place>,
    /// What each view parameter looks into, in the order of the parameters.
    pub roots: List<Root>,
}

/// What holds the cells of an array or a scalar.
#[derive(Clone, Copy, Debug, PartialEq, Eq)]
pub enum Root {
    /// An object of static storage.
    Object(u32),
    /// A local of an instance's function.
    Local { instance: u32, local: u32 },
}

/// An input: an object, by its number, and the numbers that its cells may have.
#[derive(Clone, Copy)]
pub struct InputInfo {
    pub object: u32,
    pub range: Interval,
}
