// Terms with a sign.
ghost use Rattle.std.specs.Prelude.{◌≡◌, false};
ghost use Rattle.std.specs.Option.{option_map_or};
ghost use Rattle.wm_flow.specs.Kept as forms;

use wm_domain::Term;

fn turned(turn: bool, negative: bool) -> bool
    ensures { result ≡ forms.turned turn negative }
{
    if turn {
        return !negative;
    }
    negative
}

/// The term itself, or its negative.
pub fn turned_terms(turn: bool, term: Option<Term>) -> Option<Term>
    ensures { result ≡ forms.turned_terms turn term }
{
    match term {
        Some(term) => Some(Term {
            variable: term.variable,
            negative: turned(turn, term.negative),
        }),
        None => None,
    }
}

pub(crate) fn same_variable(a: Term, b: Term) -> bool
    ensures { result ≡ forms.same_variable a b }
{
    a.variable == b.variable
}

pub(crate) fn same_sign(a: bool, b: bool) -> bool
    ensures { result ≡ forms.same_sign a b }
{
    if a {
        return b;
    }
    !b
}

/// Whether a term of the same variable stands there.
pub fn has_term(term: Term, other: Option<Term>) -> bool
    ensures { result ≡ option_map_or (forms.same_variable term) other false }
{
    match other {
        Some(other) => same_variable(term, other),
        None => false,
    }
}
