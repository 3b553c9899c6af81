// The four macros that are defined at the start: the ends of the two widths.
ghost use Rattle.std.specs.Prelude.{◌≡◌, IfOk, OnOk};
ghost use Rattle.wm_lex.specs.Macros.{first_macro, first_macros, with_macro};

use crate::definitions::{Definitions, Macro, Replacement};
use crate::lexeme::Lexeme;
use std::alloc::Global;
use wm_lang::{Name, Punct};
use wm_ops::NoMemory;

/// A macro of the four at the start.
fn put_first(
    definitions: &mut Definitions,
    alloc: Global,
    word: &[u8],
    lexemes: Vec<Lexeme>,
) -> Result<(), NoMemory>
    ensures { OnOk result (definitions.new ≡ with_macro (first_macro word.now lexemes.items) definitions.old) }
{
    let name = Name::new(alloc, word)?;
    definitions.put(
        alloc,
        Macro {
            name,
            lexemes: Some(Replacement::new(lexemes)),
            is_first: true,
        },
    )
}

/// The four macros that are defined at the start.
pub fn first_definitions(alloc: Global) -> Result<Definitions, NoMemory>
    ensures { IfOk result (λ first. first ≡ first_macros) }
{
    let mut first = Definitions::new(alloc);
    let open = || Lexeme::Mark(Punct::LeftParenthesis);
    let close = || Lexeme::Mark(Punct::RightParenthesis);
    let minus = || Lexeme::Mark(Punct::Minus);
    let number = |value: i64| Lexeme::Number(value);
    put_first(
        &mut first,
        alloc,
        b"MAX_16",
        vec![in alloc; number(32_767)]?,
    )?;
    put_first(
        &mut first,
        alloc,
        b"MIN_16",
        vec![in alloc; open(), minus(), number(32_768), close()]?,
    )?;
    put_first(
        &mut first,
        alloc,
        b"MAX_32",
        vec![in alloc; number(2_147_483_647)]?,
    )?;
    put_first(
        &mut first,
        alloc,
        b"MIN_32",
        vec![in alloc;
            open(),
            minus(),
            number(2_147_483_647),
            minus(),
            number(1),
            close(),
        ]?,
    )?;
    Ok(first)
}
