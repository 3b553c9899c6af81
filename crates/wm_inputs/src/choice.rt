// The function that chooses between several frame functions, and the object by whose number it does.
ghost use Rattle.std.specs.Prelude.{◌≡◌, ◌+◌, IfOk};
ghost use Rattle.wm_inputs.specs.Chooser.{call_object, call_of, choice, chosen, chooser, place_at, call_places};

use sqlite_items::{Boxed, Items};
use std::alloc::Global;
use wm_calls::size_at;
use wm_lang::{Name, Place, Position};
use wm_ops::{List, NoMemory, Width};
use wm_program::{
    Body, Call, Comparison, Condition, Expr, FunctionInfo, ObjectInfo, Otherwise, Scalar, Simple,
    Statement,
};
use wm_scope::CallPlace;

/// The object `call`, an input of 16 bits.
pub fn call_object(alloc: Global) -> Result<ObjectInfo, NoMemory>
    ensures call { IfOk result (λ object. object ≡ call_object) }
{
    let name = Name::new(alloc, b"call")?;
    Ok(ObjectInfo {
        name,
        width: Width::W16,
        length: 1,
        scalar: true,
        constant: false,
        addressed: false,
        initial: List::new(alloc),
        input: true,
    })
}

/// `f();`
fn call_of(alloc: Global, function: u32, offset: u32) -> Statement
    ensures { result ≡ call_of function offset }
{
    Statement::Simple(Simple::Evaluate(Expr::Call(Call {
        function,
        offset,
        arguments: Items::new(alloc),
    })))
}

/// `call == k`
fn choice(object: u32, number: u32) -> Condition
    ensures { result ≡ choice object number }
{
    Condition::Compare {
        left: Expr::Scalar(Scalar::Object(object)),
        mark: Comparison::Equal,
        right: Expr::Constant(i64::from(number)),
    }
}

fn following(number: u32) -> Result<u32, NoMemory>
    ensures { IfOk result (λ next. next ≡ number + 1) }
{
    match number.checked_add(1) {
        Some(next) => Ok(next),
        None => Err(NoMemory),
    }
}

/// `if (call == k) f(); else ..`, the last function behind the last else.
fn chosen(
    alloc: Global,
    object: u32,
    sizes: &[u32],
    number: u32,
    offset: u32,
    frames: &[u32],
) -> Result<Statement, NoMemory>
    ensures { IfOk result (λ statement. statement ≡ chosen object sizes.now number offset frames.now) }
{
    match frames.split_first() {
        None => Ok(Statement::Empty),
        Some((function, rest)) => {
            let call = call_of(alloc, *function, offset);
            if rest.is_empty() {
                return Ok(call);
            }
            let next = offset.saturating_add(size_at(sizes, *function));
            let other = chosen(alloc, object, sizes, following(number)?, next, rest)?;
            let then = Boxed::new(alloc, call)?;
            let body = Boxed::new(alloc, other)?;
            Ok(Statement::If {
                is_counted: false,
                condition: choice(object, number),
                then,
                otherwise: Some(Otherwise {
                    is_counted: false,
                    body,
                }),
            })
        }
    }
}

/// The function that calls the frame function which the object of this number numbers from 1. It is no function of the
/// source: it has no name and no tokens. The sizes are those of the trees of all functions.
pub fn chooser(
    alloc: Global,
    object: u32,
    sizes: &[u32],
    frames: &[u32],
) -> Result<FunctionInfo, NoMemory>
    ensures chooser { IfOk result (λ function. function ≡ chooser object sizes.now frames.now) }
{
    let name = Name::new(alloc, b"")?;
    let statement = chosen(alloc, object, sizes, 1, 1, frames)?;
    let mut statements = Items::new(alloc);
    statements.push(statement)?;
    Ok(FunctionInfo {
        name,
        result: None,
        locals: List::new(alloc),
        parameters: 0,
        body: Body { statements },
        tokens: 0,
    })
}

/// Where a function is defined; the beginning of the source for one that is not there.
fn place_at(definitions: &[Position], function: u32) -> Position
    ensures { result ≡ place_at definitions.now function }
{
    match definitions.get(function as usize) {
        Some(at) => *at,
        None => Position {
            token: 0,
            place: Place {
                file: 0,
                line: 1,
                column: 1,
            },
        },
    }
}

/// The calls of the function that chooses, each at the called function's name at its definition.
#[tactic(auto, unfolding(crate::specs::Chooser::call_places))]
pub fn call_places(
    alloc: Global,
    definitions: &[Position],
    frames: &[u32],
) -> Result<List<CallPlace>, NoMemory>
    ensures calls { IfOk result (λ places. places ≡ call_places definitions.now frames.now) }
{
    let mut places = List::new(alloc);
    for function in frames {
        places.push(CallPlace {
            function: *function,
            at: place_at(definitions, *function),
            views: List::new(alloc),
        })?;
    }
    Ok(places)
}
