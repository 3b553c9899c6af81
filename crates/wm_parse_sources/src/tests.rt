// Sources as tables. In the tables of shapes the value of the first assignment is shown with the kinds of its operands, and the
// first statement of a function with the kinds of what it holds.
use sqlite_items::Boxed;
use std::alloc::Global;
use std::test::Fail;
use wm_lang::{
    AssignMark, Block, BlockItem, Declarator, EqualityMark, Expr, Item, MemberMark, ParameterKind,
    ProductMark, RelationMark, Simple, Spot, SpotKind, Statement, StepMark, SumMark, Token,
    UnaryMark, Unit, Word,
};
use wm_lex::lex;
use wm_parse::{ParseFault, parse};

/// The tokens of a text.
fn tokens_of(alloc: Global, text: &str) -> Result<Vec<Token>, Fail> {
    let mut texts = Vec::new(alloc);
    if text.len() > 1_000_000_000 {
        return Ok(Vec::new(alloc));
    }
    texts.push(Vec::from_slice(alloc, text.as_bytes())?)?;
    Ok(lex(alloc, &texts)?)
}

// ---- units and faults

/// What a text gives: the number of items, or the token that does not fit.
fn answer(alloc: Global, text: &str) -> Result<String, Fail> {
    let tokens = tokens_of(alloc, text)?;
    match parse(alloc, &tokens) {
        Ok(unit) => {
            let items = unit.items.items().len();
            Ok(format!(in alloc; "unit {items}")?)
        }
        Err(ParseFault::Syntax { token }) => Ok(format!(in alloc; "token {token}")?),
        Err(ParseFault::NoMemory) => Ok(format!(in alloc; "no memory")?),
    }
}

const ANSWERS: [(&str, &str, &str); 62] = [
    ("no token", "", "unit 0"),
    ("an open block", "void frame(void) {", "token 6"),
    ("an empty body", "void frame(void) { }", "unit 1"),
    ("an empty statement", "void f(void) { ; ; }", "unit 1"),
    ("a lone mark", ";", "token 0"),
    ("a name at file scope", "x = 1;", "token 0"),
    ("an absent name", "Word16 ;", "token 1"),
    ("an open declaration", "Word16 x", "token 2"),
    (
        "objects and functions",
        "Word16 x, y[2]; Word32 f(void); Flag g; void h() { }",
        "unit 4",
    ),
    (
        "words in any order and again",
        "static const extern static int x;",
        "unit 1",
    ),
    (
        "no extern in a block",
        "void f(void) { extern Word16 x; }",
        "token 6",
    ),
    (
        "words in a block",
        "void f(void) { static const Word16 x = 1; const Flag g; }",
        "unit 1",
    ),
    (
        "a declaration in the head of a for",
        "void f(void) { for (int i = 0; ; ) ; }",
        "token 8",
    ),
    (
        "an initialiser list",
        "Word16 a[3] = { 1, 2, 3 };",
        "unit 1",
    ),
    (
        "a comma behind the last value",
        "Word16 a[3] = { 1, 2, };",
        "unit 1",
    ),
    (
        "two commas behind the last value",
        "Word16 a[3] = { 1, , };",
        "token 9",
    ),
    ("an empty list", "Word16 a[] = { };", "token 6"),
    ("a list for a scalar", "Word16 a = { 1 };", "token 3"),
    ("a value for an array", "Word16 a[1] = 1;", "token 6"),
    ("empty brackets", "Word16 a[] = { 1 }, b[];", "unit 1"),
    ("two dimensions", "Word16 a[1][2];", "token 5"),
    ("a void object", "void x;", "token 2"),
    (
        "parameters without names",
        "Word16 f(Word16, Word16 *, Word16 [], const Flag [3], struct S *);",
        "unit 1",
    ),
    (
        "a parameter without a name before a block",
        "void f(Word16) { }",
        "token 5",
    ),
    (
        "an array without a name before a block",
        "void f(Word16 x, Word16 []) { }",
        "token 10",
    ),
    (
        "void among parameters",
        "void f(void, Word16 x);",
        "token 4",
    ),
    ("a second void", "void f(Word16 x, void);", "token 6"),
    ("a static parameter", "void f(static Word16 x);", "token 3"),
    (
        "two words before a parameter",
        "void f(const const Word16 x);",
        "token 4",
    ),
    (
        "a struct parameter is a pointer",
        "void f(struct S s);",
        "token 5",
    ),
    ("no array of pointers", "void f(Word16 *p[]);", "token 6"),
    (
        "neither block nor semicolon",
        "void f(void) Word16 x;",
        "token 5",
    ),
    (
        "a struct and its objects",
        "struct S { Word16 a, b[2]; Word32 c; }; static struct S s, t;",
        "unit 2",
    ),
    ("a struct without members", "struct S { };", "token 3"),
    (
        "a member without a length",
        "struct S { Word16 a[]; };",
        "token 6",
    ),
    (
        "a member with a value",
        "struct S { Word16 a = 1; };",
        "token 5",
    ),
    (
        "a word before a struct",
        "static struct S { Word16 a; };",
        "token 3",
    ),
    (
        "no semicolon behind a struct",
        "struct S { Word16 a; } s;",
        "token 7",
    ),
    ("a struct object with a value", "struct S s = 1;", "token 3"),
    ("a struct local", "void f(void) { struct S s; }", "token 6"),
    (
        "control words in both cases",
        "void f(void) { IF (1) BREAK; ELSE CONTINUE; FOR (;;) ; WHILE (1) ; DO ; WHILE (0); do ; while (0); }",
        "unit 1",
    ),
    (
        "an else without an if",
        "void f(void) { else ; }",
        "token 6",
    ),
    (
        "a second else",
        "void f(void) { if (1) ; else ; else ; }",
        "token 13",
    ),
    (
        "a declaration as the statement of an if",
        "void f(void) { if (1) Word16 x; }",
        "token 10",
    ),
    (
        "a do without its while",
        "void f(void) { do ; (1); }",
        "token 8",
    ),
    (
        "a call as a statement",
        "void f(void) { g(); g(1, x[2], &y); }",
        "unit 1",
    ),
    (
        "a comma at the end of the arguments",
        "void f(void) { g(1, ); }",
        "token 10",
    ),
    ("a value as a statement", "void f(void) { x; }", "token 7"),
    ("a number as a statement", "void f(void) { 1; }", "token 6"),
    (
        "assignments and steps",
        "void f(void) { x = 1; x[1] += 2; *p -= 3; s.m *= 4; x++; --x[1]; ++*p; s.m[1]--; }",
        "unit 1",
    ),
    (
        "a step through a pointer",
        "void f(void) { *p++; }",
        "token 8",
    ),
    (
        "an assignment as a value",
        "void f(void) { a = b = 0; }",
        "token 9",
    ),
    (
        "a comma in an expression",
        "void f(void) { a = 1, b = 2; }",
        "token 9",
    ),
    (
        "commas in the head of a for",
        "void f(void) { for (i = 0, j = 1; i < 2, j < 2; i++) ; }",
        "token 19",
    ),
    (
        "a quotient without an operand",
        "void f(void) { a = b / ; }",
        "token 10",
    ),
    (
        "an element through a pointer",
        "void f(void) { a = *p[1]; }",
        "token 10",
    ),
    (
        "a sum behind an address",
        "void f(void) { a = &(b); }",
        "token 9",
    ),
    (
        "an address through a pointer",
        "void f(void) { a = &*p; }",
        "token 9",
    ),
    ("a cast to void", "void f(void) { a = (void)1; }", "token 9"),
    ("a shift", "void f(void) { a = b < < c; }", "token 10"),
    ("a goto", "void f(void) { goto x; }", "token 6"),
    (
        "an open expression at the end",
        "void f(void) { a = (b +",
        "token 11",
    ),
];

#[test]
fn units_and_faults(rt: HostRuntime) -> Result<(), Fail> {
    for (what, text, expected) in &ANSWERS {
        let found = answer(rt.alloc(), text)?;
        assert_eq!(rt; found.as_str(), *expected, "{what}");
    }
    Ok(())
}

// ---- levels

/// A function of some text, a piece again and again, more text, another piece as often, and the end.
fn repeated(
    alloc: Global,
    times: u32,
    front: &str,
    open: &str,
    middle: &str,
    close: &str,
    back: &str,
) -> Result<String, Fail> {
    let mut text = String::new(alloc);
    text.push_str("void f(void) { ")?;
    text.push_str(front)?;
    for _turn in 0..times {
        text.push_str(open)?;
    }
    text.push_str(middle)?;
    for _turn in 0..times {
        text.push_str(close)?;
    }
    text.push_str(back)?;
    text.push_str(" }")?;
    Ok(text)
}

const LEVELS: [(&str, u32, [&str; 5], &str); 26] = [
    (
        "63 pairs of parentheses",
        63,
        ["x = ", "(", "0", ")", ";"],
        "unit 1",
    ),
    (
        "64 pairs of parentheses",
        64,
        ["x = ", "(", "0", ")", ";"],
        "token 71",
    ),
    (
        "63 pairs of brackets",
        63,
        ["x = ", "a[", "0", "]", ";"],
        "unit 1",
    ),
    (
        "64 pairs of brackets",
        64,
        ["x = ", "a[", "0", "]", ";"],
        "token 135",
    ),
    ("63 calls", 63, ["x = ", "f(", "0", ")", ";"], "unit 1"),
    ("64 calls", 64, ["x = ", "f(", "0", ")", ";"], "token 135"),
    ("63 signs", 63, ["x = ", "- ", "0", "", ";"], "unit 1"),
    ("64 signs", 64, ["x = ", "- ", "0", "", ";"], "token 71"),
    ("62 casts", 62, ["x = ", "(int)", "0", "", ";"], "unit 1"),
    (
        "a cast opens two levels at its type",
        63,
        ["x = ", "(int)", "0", "", ";"],
        "token 195",
    ),
    (
        "a parenthesis behind 62 casts",
        62,
        ["x = ", "(int)", "(0)", "", ";"],
        "unit 1",
    ),
    (
        "a cast inside 62 pairs",
        62,
        ["x = ", "(", "(int)0", ")", ";"],
        "token 71",
    ),
    (
        "a cast inside 61 pairs",
        61,
        ["x = ", "(", "(int)0", ")", ";"],
        "unit 1",
    ),
    (
        "steps and addresses open none",
        63,
        ["x = ", "(", "*p", ")", "; ++*p; f(&y);"],
        "unit 1",
    ),
    ("63 blocks", 63, ["", "{", ";", "}", ""], "unit 1"),
    ("64 blocks", 64, ["", "{", ";", "}", ""], "token 69"),
    ("63 ifs", 63, ["", "if (1) ", ";", "", ""], "unit 1"),
    (
        "a control word at the limit",
        64,
        ["", "if (1) ", ";", "", ""],
        "token 258",
    ),
    (
        "a do at the limit",
        64,
        ["", "do ", ";", " while (1);", ""],
        "token 69",
    ),
    (
        "a for at the limit",
        64,
        ["", "for (;;) ", ";", "", ""],
        "token 321",
    ),
    (
        "a block inside 63 whiles",
        63,
        ["", "while (1) ", "{ }", "", ""],
        "token 258",
    ),
    (
        "a block inside 62 whiles",
        62,
        ["", "while (1) ", "{ }", "", ""],
        "unit 1",
    ),
    (
        "an else inside 63 ifs",
        63,
        ["", "if (1) ", ";", " else ;", ""],
        "unit 1",
    ),
    (
        "an array inside 63 blocks",
        63,
        ["", "{", "Word16 a[1];", "}", ""],
        "token 71",
    ),
    (
        "a list inside 62 blocks",
        62,
        ["", "{", "Word16 a[1] = { (1) };", "}", ""],
        "unit 1",
    ),
    (
        "a call inside 63 blocks",
        63,
        ["", "{", "f();", "}", ""],
        "token 70",
    ),
];

#[test]
fn levels_of_syntax(rt: HostRuntime) -> Result<(), Fail> {
    let alloc = rt.alloc();
    for (what, times, parts, expected) in &LEVELS {
        let [front, open, middle, close, back] = *parts;
        let text = repeated(alloc, *times, front, open, middle, close, back)?;
        let found = answer(alloc, text.as_str())?;
        assert_eq!(rt; found.as_str(), *expected, "{what}");
    }
    Ok(())
}

// ---- shapes of expressions

/// What kind of node an expression is.
fn kind_of(expression: &Expr) -> &'static str {
    match expression {
        Expr::Or(_) => "Or",
        Expr::And(_) => "And",
        Expr::Equality(_) => "Equality",
        Expr::Relation(_) => "Relation",
        Expr::Sum(_) => "Sum",
        Expr::Product(_) => "Product",
        Expr::Unary { .. } => "Unary",
        Expr::Cast { .. } => "Cast",
        Expr::Number { .. } => "Number",
        Expr::Spot(spot) => spot_kind(spot),
        Expr::Call(_) => "Call",
        Expr::Parenthesis { .. } => "Parenthesis",
        Expr::Address { .. } => "Address",
    }
}

/// What kind of spot one is.
fn spot_kind(spot: &Spot<Boxed<Expr>>) -> &'static str {
    match &spot.kind {
        SpotKind::Scalar { .. } => "Scalar",
        SpotKind::Element { .. } => "Element",
        SpotKind::Pointed { .. } => "Pointed",
        SpotKind::Member { mark, .. } => match mark {
            MemberMark::Dot => "Member.",
            MemberMark::Arrow => "Member->",
        },
        SpotKind::MemberElement { mark, .. } => match mark {
            MemberMark::Dot => "MemberElement.",
            MemberMark::Arrow => "MemberElement->",
        },
    }
}

fn equality(mark: EqualityMark) -> &'static str {
    match mark {
        EqualityMark::Equal => " == ",
        EqualityMark::NotEqual => " != ",
    }
}

fn relation(mark: RelationMark) -> &'static str {
    match mark {
        RelationMark::Less => " < ",
        RelationMark::LessEqual => " <= ",
        RelationMark::Greater => " > ",
        RelationMark::GreaterEqual => " >= ",
    }
}

fn sum(mark: SumMark) -> &'static str {
    match mark {
        SumMark::Plus => " + ",
        SumMark::Minus => " - ",
    }
}

fn product(mark: ProductMark) -> &'static str {
    match mark {
        ProductMark::Times => " * ",
        ProductMark::Divide => " / ",
    }
}

fn unary(mark: UnaryMark) -> &'static str {
    match mark {
        UnaryMark::Minus => "- ",
        UnaryMark::Plus => "+ ",
        UnaryMark::Not => "! ",
    }
}

/// Writes a mark, the number of its token and the kind of the operand behind it.
fn write_part(
    alloc: Global,
    out: &mut String,
    mark: &str,
    token: usize,
    operand: &Expr,
) -> Result<(), Fail> {
    let operand = kind_of(operand);
    let text = format!(in alloc; "{mark}@{token} {operand}")?;
    out.push_str(text.as_str())?;
    Ok(())
}

/// Writes the kinds of what an expression holds.
fn write_inside(alloc: Global, out: &mut String, expression: &Expr) -> Result<(), Fail> {
    match expression {
        Expr::Or(chain) => {
            out.push_str(kind_of(chain.first.get()))?;
            for part in chain.rest.as_slice() {
                write_part(alloc, out, " || ", part.at.token, &part.operand)?;
            }
        }
        Expr::And(chain) => {
            out.push_str(kind_of(chain.first.get()))?;
            for part in chain.rest.as_slice() {
                write_part(alloc, out, " && ", part.at.token, &part.operand)?;
            }
        }
        Expr::Equality(chain) => {
            out.push_str(kind_of(chain.first.get()))?;
            for part in chain.rest.as_slice() {
                write_part(
                    alloc,
                    out,
                    equality(part.mark),
                    part.at.token,
                    &part.operand,
                )?;
            }
        }
        Expr::Relation(chain) => {
            out.push_str(kind_of(chain.first.get()))?;
            for part in chain.rest.as_slice() {
                write_part(
                    alloc,
                    out,
                    relation(part.mark),
                    part.at.token,
                    &part.operand,
                )?;
            }
        }
        Expr::Sum(chain) => {
            out.push_str(kind_of(chain.first.get()))?;
            for part in chain.rest.as_slice() {
                write_part(alloc, out, sum(part.mark), part.at.token, &part.operand)?;
            }
        }
        Expr::Product(chain) => {
            out.push_str(kind_of(chain.first.get()))?;
            for part in chain.rest.as_slice() {
                write_part(alloc, out, product(part.mark), part.at.token, &part.operand)?;
            }
        }
        Expr::Unary { mark, at, operand } => {
            write_part(alloc, out, unary(*mark), at.token, operand.get())?;
        }
        Expr::Cast { at, to, operand } => {
            let text = format!(in alloc; "{to:?} ")?;
            write_part(alloc, out, text.as_str(), at.token, operand.get())?;
        }
        Expr::Number { value, .. } => out.push_str(format!(in alloc; "{value}")?.as_str())?,
        Expr::Call(call) => {
            for argument in call.arguments.as_slice() {
                out.push_str(kind_of(argument))?;
                out.push_str(",")?;
            }
        }
        Expr::Parenthesis { at, inner } => write_part(alloc, out, "(", at.token, inner.get())?,
        Expr::Address { spot, .. } => out.push_str(spot_kind(spot))?,
        Expr::Spot(_) => {}
    }
    Ok(())
}

/// The statements of the first function.
fn block_of(unit: &Unit) -> Option<&Block<Statement>> {
    match unit.items.items().first() {
        Some(Item::Function(function)) => function.body.as_ref(),
        _ => None,
    }
}

/// The first statement of the first function.
fn statement_of(unit: &Unit) -> Option<&Statement> {
    let block = block_of(unit)?;
    match block.items.as_slice().first() {
        Some(BlockItem::Statement(statement)) => Some(statement),
        _ => None,
    }
}

/// The value of an assignment.
fn value_of(statement: &Statement) -> Option<&Expr> {
    match statement {
        Statement::Simple(Simple::Assign { value, .. }) => Some(value),
        _ => None,
    }
}

/// The value of the first assignment, with the kinds of what it holds.
fn shape(alloc: Global, text: &str) -> Result<String, Fail> {
    let mut source = String::new(alloc);
    source.push_str("void f(void) { x = ")?;
    source.push_str(text)?;
    source.push_str("; }")?;
    let tokens = tokens_of(alloc, source.as_str())?;
    let mut out = String::new(alloc);
    if let Ok(unit) = parse(alloc, &tokens) {
        if let Some(value) = statement_of(&unit).and_then(value_of) {
            out.push_str(kind_of(value))?;
            out.push_str(": ")?;
            write_inside(alloc, &mut out, value)?;
        }
    }
    Ok(out)
}

const SHAPES: [(&str, &str, &str); 31] = [
    (
        "one chain",
        "a - b + c - d",
        "Sum: Scalar - @9 Scalar + @11 Scalar - @13 Scalar",
    ),
    (
        "parentheses part a chain",
        "a - (b + c)",
        "Sum: Scalar - @9 Parenthesis",
    ),
    (
        "the first operand in parentheses",
        "(a - b) + c",
        "Sum: Parenthesis + @13 Scalar",
    ),
    (
        "what is inside parentheses",
        "(a - b)",
        "Parenthesis: (@8 Sum",
    ),
    (
        "products bind closer than sums",
        "a + b * c - d / e",
        "Sum: Scalar + @9 Product - @13 Product",
    ),
    (
        "sums bind closer than relations",
        "a + b < c - d",
        "Relation: Sum < @11 Sum",
    ),
    (
        "a chain of relations",
        "a < b <= c > d >= e",
        "Relation: Scalar < @9 Scalar <= @11 Scalar > @13 Scalar >= @15 Scalar",
    ),
    (
        "relations bind closer than equalities",
        "a == b < c != d",
        "Equality: Scalar == @9 Relation != @13 Scalar",
    ),
    (
        "equalities bind closer than and",
        "a == b && c != d && e",
        "And: Equality && @11 Equality && @15 Scalar",
    ),
    (
        "and binds closer than or",
        "a || b && c || d",
        "Or: Scalar || @9 And || @13 Scalar",
    ),
    (
        "a chain of products",
        "a * b / c * d",
        "Product: Scalar * @9 Scalar / @11 Scalar * @13 Scalar",
    ),
    (
        "a sign takes one operand",
        "-a * b",
        "Product: Unary * @10 Scalar",
    ),
    ("a sign before a sum", "-a + b", "Sum: Unary + @10 Scalar"),
    ("two signs", "- -a", "Unary: - @8 Unary"),
    ("a plus", "+a", "Unary: + @8 Scalar"),
    ("not", "!a == b", "Equality: Unary == @10 Scalar"),
    ("what not is before", "!(a == b)", "Unary: ! @8 Parenthesis"),
    (
        "a cast takes one operand",
        "(Word16)a * b",
        "Product: Cast * @12 Scalar",
    ),
    ("a cast of a sign", "(Word32)-a", "Cast: Word32 @8 Unary"),
    ("a cast of a cast", "(Flag)(int)a", "Cast: Flag @8 Cast"),
    ("a sign before a cast", "-(int)a", "Unary: - @8 Cast"),
    ("a number", "0x10", "Number: 16"),
    ("a pointer", "*p * *q", "Product: Pointed * @10 Pointed"),
    ("an element", "a[b + 1] + c", "Sum: Element + @14 Scalar"),
    (
        "a call",
        "f(a, b + 1, g(), &c)",
        "Call: Scalar,Sum,Call,Address,",
    ),
    ("a call without arguments", "f()", "Call: "),
    (
        "an arrow is one mark",
        "p->m - p -> n",
        "Sum: Member-> - @11 Member->",
    ),
    ("a dot", "s.m", "Member.: "),
    (
        "an element of a member",
        "s.m[1] + p->m[2]",
        "Sum: MemberElement. + @14 MemberElement->",
    ),
    ("an address", "&a[1]", "Address: Element"),
    (
        "an address of a member",
        "&p->m[1]",
        "Address: MemberElement->",
    ),
];

#[test]
fn shapes_of_expressions(rt: HostRuntime) -> Result<(), Fail> {
    for (what, text, expected) in &SHAPES {
        let found = shape(rt.alloc(), text)?;
        assert_eq!(rt; found.as_str(), *expected, "{what}");
    }
    Ok(())
}

// ---- shapes of statements

/// A control word and the number of its token.
fn write_word(alloc: Global, out: &mut String, name: &str, word: Word) -> Result<(), Fail> {
    let counted = if word.is_counted { "#" } else { "" };
    let token = word.at.token;
    let text = format!(in alloc; "{name}{counted}@{token} ")?;
    out.push_str(text.as_str())?;
    Ok(())
}

/// What kind of statement one is.
fn statement_kind(statement: &Statement) -> &'static str {
    match statement {
        Statement::Block(_) => "Block",
        Statement::Empty { .. } => "Empty",
        Statement::Simple(simple) => simple_kind(simple),
        Statement::If { otherwise, .. } => match otherwise {
            None => "If",
            Some(_) => "IfElse",
        },
        Statement::For { .. } => "For",
        Statement::While { .. } => "While",
        Statement::Do { .. } => "Do",
        Statement::Break { .. } => "Break",
        Statement::Continue { .. } => "Continue",
        Statement::Return { value, .. } => match value {
            None => "Return",
            Some(_) => "ReturnValue",
        },
    }
}

/// What kind of assignment, step or call one is.
fn simple_kind(simple: &Simple) -> &'static str {
    match simple {
        Simple::Assign { mark, .. } => match mark {
            AssignMark::Plain => "=",
            AssignMark::Plus => "+=",
            AssignMark::Minus => "-=",
            AssignMark::Times => "*=",
        },
        Simple::StepAfter { mark, .. } => match mark {
            StepMark::Increment => "v++",
            StepMark::Decrement => "v--",
        },
        Simple::StepBefore { mark, .. } => match mark {
            StepMark::Increment => "++v",
            StepMark::Decrement => "--v",
        },
        Simple::Call(_) => "call",
    }
}

/// Writes the kind of a declared name.
fn declarator_kind(declarator: &Declarator) -> &'static str {
    match declarator {
        Declarator::Scalar { initial, .. } => match initial {
            None => "scalar ",
            Some(_) => "scalar= ",
        },
        Declarator::Array {
            length,
            initial,
            ..
        } => match (length, initial) {
            (None, None) => "array[] ",
            (None, Some(_)) => "array[]= ",
            (Some(_), None) => "array ",
            (Some(_), Some(_)) => "array= ",
        },
    }
}

/// Writes what a control statement holds.
fn write_statement(alloc: Global, out: &mut String, statement: &Statement) -> Result<(), Fail> {
    match statement {
        Statement::If {
            word,
            condition,
            then,
            otherwise,
        } => {
            write_word(alloc, out, "if", *word)?;
            out.push_str(kind_of(condition))?;
            out.push_str(" ")?;
            out.push_str(statement_kind(then.get()))?;
            if let Some(otherwise) = otherwise {
                write_word(alloc, out, " else", otherwise.word)?;
                out.push_str(statement_kind(otherwise.body.get()))?;
            }
        }
        Statement::For {
            word,
            begin,
            condition,
            step,
            body,
        } => {
            write_word(alloc, out, "for", *word)?;
            for simple in begin.as_slice() {
                out.push_str(simple_kind(simple))?;
            }
            out.push_str("; ")?;
            if let Some(condition) = condition {
                out.push_str(kind_of(condition))?;
            }
            out.push_str("; ")?;
            for simple in step.as_slice() {
                out.push_str(simple_kind(simple))?;
            }
            out.push_str(" ")?;
            out.push_str(statement_kind(body.get()))?;
        }
        Statement::While {
            word,
            condition,
            body,
        } => {
            write_word(alloc, out, "while", *word)?;
            out.push_str(kind_of(condition))?;
            out.push_str(" ")?;
            out.push_str(statement_kind(body.get()))?;
        }
        Statement::Do {
            word,
            body,
            tail,
            condition,
        } => {
            write_word(alloc, out, "do", *word)?;
            out.push_str(statement_kind(body.get()))?;
            write_word(alloc, out, " while", *tail)?;
            out.push_str(kind_of(condition))?;
        }
        Statement::Break { word } => write_word(alloc, out, "break", *word)?,
        Statement::Continue { word } => write_word(alloc, out, "continue", *word)?,
        other => out.push_str(statement_kind(other))?,
    }
    Ok(())
}

/// The first function of a text: how many things its block holds, where the block ends, and its statements.
fn statements(alloc: Global, text: &str) -> Result<String, Fail> {
    let mut source = String::new(alloc);
    source.push_str("void f(void) { ")?;
    source.push_str(text)?;
    source.push_str(" }")?;
    let tokens = tokens_of(alloc, source.as_str())?;
    let mut out = String::new(alloc);
    if let Ok(unit) = parse(alloc, &tokens) {
        if let Some(block) = block_of(&unit) {
            for item in block.items.as_slice() {
                match item {
                    BlockItem::Declaration(declaration) => {
                        let base = declaration.base;
                        out.push_str(format!(in alloc; "{base:?} ")?.as_str())?;
                        for declarator in declaration.declarators.as_slice() {
                            out.push_str(declarator_kind(declarator))?;
                        }
                    }
                    BlockItem::Statement(statement) => write_statement(alloc, &mut out, statement)?,
                }
                out.push_str("| ")?;
            }
            let last = block.last.token;
            out.push_str(format!(in alloc; "{last}")?.as_str())?;
        }
    }
    Ok(out)
}

const STATEMENTS: [(&str, &str, &str); 17] = [
    ("an empty statement", ";", "Empty| 7"),
    (
        "all statements of a block",
        "x = 1; y = 2; z = 3;",
        "=| =| =| 18",
    ),
    (
        "an else belongs to the nearest if",
        "if (a) if (b) ; else ;",
        "if@6 Scalar IfElse| 17",
    ),
    (
        "a block keeps an if from its else",
        "if (a) { if (b) ; } else ;",
        "if@6 Scalar Block else@17 Empty| 19",
    ),
    (
        "a chain of else",
        "if (a) ; else if (b) ; else ;",
        "if@6 Scalar Empty else@11 IfElse| 19",
    ),
    (
        "an else behind a loop",
        "if (a) while (b) if (c) ; else ;",
        "if@6 Scalar While| 21",
    ),
    (
        "counted words",
        "IF (a) BREAK; ELSE CONTINUE;",
        "if#@6 Scalar Break else#@12 Continue| 15",
    ),
    (
        "one counted word of two",
        "IF (a) ; else ;",
        "if#@6 Scalar Empty else@11 Empty| 13",
    ),
    (
        "a for loop",
        "for (i = 0, j--; i < 3; i++, --j) k += 1;",
        "for@6 =v--; Relation; v++--v +=| 29",
    ),
    ("an empty head", "FOR (;;) { }", "for#@6 ; ;  Block| 13"),
    (
        "a while loop",
        "WHILE (a && b) f();",
        "while#@6 And call| 16",
    ),
    (
        "a do loop",
        "do x *= 2; WHILE (!x);",
        "do@6 *= while#@11 Unary| 17",
    ),
    ("a return", "return; return -1;", "Return| ReturnValue| 12"),
    ("leaps", "break; CONTINUE;", "break@6 | continue#@8 | 10"),
    (
        "declarations",
        "Word16 x, y = 1, a[2], b[] = { 1 }, c[2] = { 1, 2, }; int d[];",
        "Word16 scalar scalar= array array[]= array= | Int array[] | 43",
    ),
    (
        "a declaration between statements",
        "; Flag g; ;",
        "Empty| Flag scalar | Empty| 11",
    ),
    (
        "steps on both sides",
        "x++; ++x; x--; --x; x -= 1;",
        "v++| ++v| v--| --v| -=| 22",
    ),
];

#[test]
fn shapes_of_statements(rt: HostRuntime) -> Result<(), Fail> {
    for (what, text, expected) in &STATEMENTS {
        let found = statements(rt.alloc(), text)?;
        assert_eq!(rt; found.as_str(), *expected, "{what}");
    }
    Ok(())
}
