// What an edge of the graph does to a state.
use wm_arrays::Summary;
use wm_domain::{Form, Relation};
use wm_interval::Interval;
use wm_ops::{Counted, List, Op};
use wm_program::PlainMark;

/// The action of an edge. Variables and arrays are those of the source node; targets, parameters and counters are those
/// of the target node. On every edge but an `Enter` and a `Leave` the group, the singles and the arrays of the two
/// nodes are paired each by place; what only the source has is dropped, and what only the target has begins with its
/// full range.
#[derive(Drop)]
pub enum Action {
    /// The target gets the value of the form.
    AssignForm {
        target: u32,
        form: Form,
    },
    /// A plain operation on two numbers of 32 bits whose result must lie in 32 bits.
    Plain {
        mark: PlainMark,
        args: [Form; 2],
        target: u32,
    },
    /// The low half of the value of the form, as a cast to 16 bits gives it.
    Cast {
        form: Form,
        target: u32,
    },
    /// Any number of the range.
    AssignRange {
        target: u32,
        range: Interval,
    },
    /// The array gets cells of this summary.
    SetArray {
        array: u32,
        summary: Summary,
    },
    /// The operator; unused arguments are the form 0. `overflow` is the variable of the flag `Overflow`.
    Operate {
        op: Op,
        args: [Form; 3],
        target: u32,
        overflow: u32,
    },
    /// A cell of the array is read.
    Read {
        array: u32,
        target: u32,
    },
    /// A cell of the array is written. `length` is the number of its cells.
    Write {
        array: u32,
        value: Form,
        length: u32,
    },
    /// The variables may have any number from here on.
    Clear {
        variables: List<u32>,
    },
    /// Only where the form stands so to 0.
    Keep {
        form: Form,
        relation: Relation,
    },
    /// A test at a site: only where the form lies from `low` to `high`. `args` are the operands at the site, and `how`
    /// says what of them the form is.
    Test {
        args: List<Form>,
        form: Form,
        low: i64,
        high: i64,
        how: Combined,
    },
    /// A word is counted.
    Count {
        word: Counted,
    },
    /// A call begins: variable k of the callee is the variable `picks[k]` of the caller, array k its array `arrays[k]`,
    /// and parameters get their arguments.
    Enter {
        picks: List<Option<u32>>,
        arrays: List<Option<u32>>,
        arguments: List<Argument>,
    },
    /// A call ends: variable k is the variable `from_call[k]` of the call's node or the variable `from_exit[k]` of the
    /// source, and array k the array `arrays[k]` of the source.
    Leave {
        call: u32,
        from_call: List<Option<u32>>,
        from_exit: List<Option<u32>>,
        arrays: List<Option<u32>>,
        result: Option<Returned>,
    },
    /// The counters of a loop, sum counters too, are 0.
    Reset {
        counters: List<u32>,
    },
    /// A turn of a loop: each counter, sum counters too, grows by its step and sticks at 2147483647.
    Turn {
        growths: List<Growth>,
    },
    /// A sum counter `variable` with its step follows the loop's counter with the loop's step.
    Tie {
        counter: u32,
        loop_step: u32,
        variable: u32,
        step: u32,
    },
    /// Each input has any number of its range.
    Inputs {
        scalars: List<Given>,
        arrays: List<Given>,
    },
}

/// What a tested form is of the operands at its site.
#[derive(Clone, Copy, Debug, PartialEq, Eq)]
pub enum Combined {
    /// The one operand itself: an index, the beginning of a view, a number that is narrowed.
    Itself,
    /// The sum of the two operands.
    Sum,
    /// The first operand less the second.
    Difference,
    /// The one operand with the other sign.
    Negative,
}

/// A parameter and the value that a call gives it.
#[derive(Drop)]
pub struct Argument {
    pub parameter: u32,
    pub form: Form,
}

/// Where the result of a call stands at the exit, and where it goes.
#[derive(Clone, Copy, Debug, PartialEq, Eq)]
pub struct Returned {
    pub at_exit: u32,
    pub target: u32,
}

/// A counter and what it grows by.
#[derive(Clone, Copy, Debug, PartialEq, Eq)]
pub struct Growth {
    pub variable: u32,
    pub step: u32,
}

/// An input's variable or array, and its range.
#[derive(Clone, Copy)]
pub struct Given {
    pub target: u32,
    pub range: Interval,
}
