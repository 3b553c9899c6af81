// Counted words in statements.
ghost use Rattle.std.specs.Prelude.{◌≡◌, map};
ghost use Rattle.std.specs.Option.{option_map_or};
ghost use Rattle.wm_program.specs.Tree.{Always};
ghost use Rattle.wm_program.specs.Trees.{target_of, effect_of, fresh_of, tree_of, test_of};
ghost use Rattle.wm_program.specs.UsedParts.{tree_all};
ghost use Rattle.wm_program.specs.Used.{is_control, in_target, in_effect, in_effects, in_fresh, in_all_fresh, in_test, in_tree};

use crate::tree::{Condition, Declared, Simple, Spot, Statement};
use crate::words_in_expressions::{in_condition, in_expression, is_word};
use sqlite_items::{Boxed, Items};
use wm_ops::{ControlWord, Counted, counted_number};

/// Whether the word is this one, in capitals.
fn is_control(word: usize, is_counted: bool, this: ControlWord, found: bool) -> bool
    ensures { result ≡ is_control word is_counted this found }
{
    found || (is_counted && counted_number(Counted::Word(this)) == word)
}

fn in_spot(spot: &Spot, word: usize, found: bool) -> bool
    ensures { result ≡ in_target word (target_of spot.now) found }
{
    match spot {
        Spot::Scalar(_) => found,
        Spot::Element { index, .. } => in_expression(index, word, found),
    }
}

fn in_simple(simple: &Simple, word: usize, found: bool) -> bool
    ensures { result ≡ in_effect word (effect_of simple.now) found }
{
    match simple {
        Simple::Assign { spot, value } => {
            let found = in_spot(spot, word, found);
            in_expression(&value.value, word, found)
        }
        Simple::Update { spot, value, .. } => {
            let found = in_spot(spot, word, found);
            in_expression(value, word, found)
        }
        Simple::Evaluate(value) => in_expression(value, word, found),
        Simple::Count(call) => is_word(word, Counted::Call(*call), found),
    }
}

fn in_simples(simples: &[Simple], word: usize, found: bool) -> bool
    ensures { result ≡ in_effects word (map effect_of simples.now) found }
{
    let mut found = found;
    for simple in simples {
        found = in_simple(simple, word, found);
    }
    found
}

fn in_declared(declared: &Declared, word: usize, found: bool) -> bool
    ensures { result ≡ in_fresh word (fresh_of declared.now) found }
{
    match declared {
        Declared::Scalar { initial, .. } => match initial {
            Some(initial) => in_expression(&initial.value, word, found),
            None => found,
        },
        Declared::Array { values, .. } => match values {
            Some(_) => found,
            None => found,
        },
    }
}

fn in_all_declared(all: &[Declared], word: usize, found: bool) -> bool
    ensures { result ≡ in_all_fresh word (map fresh_of all.now) found }
{
    let mut found = found;
    for declared in all {
        found = in_declared(declared, word, found);
    }
    found
}

fn in_maybe(condition: &Option<Condition>, word: usize, found: bool) -> bool
    ensures { result ≡ in_test word (option_map_or test_of condition.now Always) found }
{
    match condition {
        Some(condition) => in_condition(condition, word, found),
        None => found,
    }
}

#[cycle(statements)]
pub(crate) fn in_statements(statements: &Items<Statement>, word: usize, found: bool) -> bool
    ensures { result ≡ in_tree word (tree_all statements.now) found }
{
    let mut found = found;
    for statement in statements.as_slice() {
        found = in_statement(statement, word, found);
    }
    found
}

#[cycle(statements)]
fn in_statement(statement: &Statement, word: usize, found: bool) -> bool
    ensures { result ≡ in_tree word (tree_of statement.now) found }
{
    match statement {
        Statement::Block(statements) => in_statements(statements, word, found),
        Statement::Empty => found,
        Statement::Declare(all) => in_all_declared(all.as_slice(), word, found),
        Statement::Simple(simple) => in_simple(simple, word, found),
        Statement::If {
            is_counted,
            condition,
            then,
            otherwise,
        } => {
            let found = is_control(word, *is_counted, ControlWord::If, found);
            let found = in_condition(condition, word, found);
            let found = in_statement(then.get(), word, found);
            match otherwise {
                None => found,
                Some(otherwise) => {
                    let found = is_control(word, otherwise.is_counted, ControlWord::Else, found);
                    in_statement(otherwise.body.get(), word, found)
                }
            }
        }
        Statement::For {
            is_counted,
            begin,
            condition,
            step,
            body,
            ..
        } => {
            let found = is_control(word, *is_counted, ControlWord::For, found);
            let found = in_simples(begin.as_slice(), word, found);
            let found = in_maybe(condition, word, found);
            let found = in_simples(step.as_slice(), word, found);
            in_statement(body.get(), word, found)
        }
        Statement::While {
            is_counted,
            condition,
            body,
            ..
        } => {
            let found = is_control(word, *is_counted, ControlWord::While, found);
            let found = in_condition(condition, word, found);
            in_statement(body.get(), word, found)
        }
        Statement::Do {
            is_counted,
            is_tail_counted,
            body,
            condition,
            ..
        } => {
            let found = is_control(word, *is_counted, ControlWord::Do, found);
            let found = in_statement(body.get(), word, found);
            let found = is_control(word, *is_tail_counted, ControlWord::While, found);
            in_condition(condition, word, found)
        }
        Statement::Break { is_counted } => is_control(word, *is_counted, ControlWord::Break, found),
        Statement::Continue { is_counted } => {
            is_control(word, *is_counted, ControlWord::Continue, found)
        }
        Statement::Return(value) => match value {
            Some(x) => in_expression(&x.value, word, found),
            None => found,
        },
    }
}
