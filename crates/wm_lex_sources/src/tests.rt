// Sources as tables: what stands in them, the text, and the tokens or the fault with their places, as line and column. A token is
// written as the letter of its kind and its name, value or variant.
use std::alloc::Global;
use std::process::Abort;
use std::test::Fail;
use wm_lang::{Place, Token, TokenKind};
use wm_lex::{LexFault, lex};

const ACCEPTED: [(&str, &[u8], &str); 55] = [
    ("hexadecimal wraps at 2^31", b"0xFFFF8000", "#-32768@1:1"),
    ("the decimal end", b"2147483647", "#2147483647@1:1"),
    ("no byte", b"", ""),
    (
        "a lone dot and an arrow",
        b". -> a.b->c",
        "PDot@1:1 PArrow@1:3 Na@1:6 PDot@1:7 Nb@1:8 PArrow@1:9 Nc@1:11",
    ),
    (
        "lines end with carriage return and line feed",
        b"a\r\nb\r\n#define A 1\r\nA",
        "Na@1:1 Nb@2:1 #1@4:1",
    ),
    ("a splice in a name", b"a\\\nb c", "Nab@1:1 Nc@2:3"),
    (
        "a splice with a carriage return",
        b"a\\\r\nb c",
        "Nab@1:1 Nc@2:3",
    ),
    ("a splice in a number", b"1\\\n2 3", "#12@1:1 #3@2:3"),
    (
        "a splice in a mark",
        b"-\\\n> +\\\n+",
        "PArrow@1:1 PIncrement@2:3",
    ),
    ("a splice opens a comment", b"/\\\n* x */ b", "Nb@2:8"),
    (
        "a splice in a line comment",
        b"a // x \\\n y \n b",
        "Na@1:1 Nb@3:2",
    ),
    ("splices on end", b"a\\\n\\\n\\\nb", "Nab@1:1"),
    ("a comment parts two names", b"a/* \n */b", "Na@1:1 Nb@2:4"),
    (
        "a comment of two lines in a define",
        b"#define A /* \n */ 1\nA",
        "#1@3:1",
    ),
    (
        "comment marks in quotation marks",
        b"#include \"/*\" x\n*/ a",
        "",
    ),
    (
        "a line comment in quotation marks",
        b"#pragma \"//\"\n a",
        "Na@2:2",
    ),
    (
        "stars before the end of a comment",
        b"/***/ a /**/ b",
        "Na@1:7 Nb@1:14",
    ),
    ("a slash alone", b"a / b", "Na@1:1 PSlash@1:3 Nb@1:5"),
    ("a line comment at the end of the file", b"a // b", "Na@1:1"),
    (
        "a define over several lines",
        b"#define A 1 + \\\n 2\nA;",
        "#1@3:1 PPlus@3:1 #2@3:1 PSemicolon@3:2",
    ),
    (
        "the same list in another spelling",
        b"#define A 10\n#define A 0xA\nA",
        "#10@3:1",
    ),
    (
        "a macro that vanishes",
        b"#define V\nV a V V b",
        "Na@2:3 Nb@2:9",
    ),
    (
        "undef, and another list",
        b"#define A 1\n#undef A\n#define A 2\nA",
        "#2@4:1",
    ),
    ("undef of a name without a list", b"#undef Q\na", "Na@2:1"),
    (
        "a loop that is never used",
        b"#define A A\n#define B 1\nB",
        "#1@3:1",
    ),
    (
        "a loop that was ended",
        b"#define A A\n#undef A\nA",
        "NA@3:1",
    ),
    (
        "replaced tokens are looked at again",
        b"#define A B B\n#define B 1\nA",
        "#1@3:1 #1@3:1",
    ),
    (
        "the ends of the widths",
        b"MAX_16 MIN_16 MAX_32 MIN_32",
        "#32767@1:1 PLeftParenthesis@1:8 PMinus@1:8 #32768@1:8 PRightParenthesis@1:8 #2147483647@1:15 PLeftParenthesis@1:22 PMinus@1:22 #2147483647@1:22 PMinus@1:22 #1@1:22 PRightParenthesis@1:22",
    ),
    (
        "a first macro gets another list",
        b"#define MAX_16 1\nMAX_16",
        "#1@2:1",
    ),
    (
        "a key as the name of a macro",
        b"#define if x\nif (if)",
        "Nx@2:1 PLeftParenthesis@2:4 Nx@2:5 PRightParenthesis@2:7",
    ),
    (
        "a comment before the parenthesis",
        b"#define A/**/(x)\nA",
        "PLeftParenthesis@2:1 Nx@2:1 PRightParenthesis@2:1",
    ),
    (
        "a space before the parenthesis",
        b"#define A (1)\nA",
        "PLeftParenthesis@2:1 #1@2:1 PRightParenthesis@2:1",
    ),
    ("a hash alone", b" # \na", "Na@2:1"),
    (
        "passed over lines",
        b"#include <a.h>\n#pragma %% @\nb",
        "Nb@3:1",
    ),
    (
        "hexadecimal and octal ends",
        b"0xFFFFFFFF 0X80000000 0x7fffffff 037777777777 020000000000 00 0",
        "#-1@1:1 #-2147483648@1:12 #2147483647@1:23 #-1@1:34 #-2147483648@1:47 #0@1:60 #0@1:63",
    ),
    (
        "one suffix",
        b"1L 2l 0xFl 017L 0L",
        "#1@1:1 #2@1:4 #15@1:7 #15@1:12 #0@1:17",
    ),
    (
        "every mark",
        b"( ) [ ] { } ; , = += -= *= + - * / ++ -- < <= > >= == != && || ! & . ->",
        "PLeftParenthesis@1:1 PRightParenthesis@1:3 PLeftBracket@1:5 PRightBracket@1:7 PLeftBrace@1:9 PRightBrace@1:11 PSemicolon@1:13 PComma@1:15 PAssign@1:17 PPlusAssign@1:19 PMinusAssign@1:22 PTimesAssign@1:25 PPlus@1:28 PMinus@1:30 PStar@1:32 PSlash@1:34 PIncrement@1:36 PDecrement@1:39 PLess@1:42 PLessEqual@1:44 PGreater@1:47 PGreaterEqual@1:49 PEqual@1:52 PNotEqual@1:55 PAnd@1:58 POr@1:61 PNot@1:64 PAmpersand@1:66 PDot@1:68 PArrow@1:70",
    ),
    (
        "the longest mark first",
        b"+++ --- <== >== !== &&& -->",
        "PIncrement@1:1 PPlus@1:3 PDecrement@1:5 PMinus@1:7 PLessEqual@1:9 PAssign@1:11 PGreaterEqual@1:13 PAssign@1:15 PNotEqual@1:17 PAssign@1:19 PAnd@1:21 PAmpersand@1:23 PDecrement@1:25 PGreater@1:27",
    ),
    (
        "control words in both cases",
        b"if IF else ELSE for FOR while WHILE do DO break BREAK continue CONTINUE",
        "KIf@1:1 KCountedIf@1:4 KElse@1:7 KCountedElse@1:12 KFor@1:17 KCountedFor@1:21 KWhile@1:25 KCountedWhile@1:31 KDo@1:37 KCountedDo@1:40 KBreak@1:43 KCountedBreak@1:49 KContinue@1:55 KCountedContinue@1:64",
    ),
    (
        "types and other keys",
        b"Word16 Word32 Flag int void static const extern struct return unsigned _Bool",
        "KWord16@1:1 KWord32@1:8 KFlag@1:15 KInt@1:20 KVoid@1:24 KStatic@1:29 KConst@1:36 KExtern@1:42 KStruct@1:49 KReturn@1:56 KUnsigned@1:63 KBool@1:72",
    ),
    ("all white space", b" \t\x0b\x0c\ra", "Na@1:6"),
    (
        "state in a struct",
        b"struct St { Word16 mem; Word16 buf[4]; };\nstruct St st;\nWord16 x;\nvoid put(struct St *p, Word16 v) { p->buf[0] = v; p->mem = shr(v, 1); }\nvoid frame(void) { put(&st, x); }\n",
        "KStruct@1:1 NSt@1:8 PLeftBrace@1:11 KWord16@1:13 Nmem@1:20 PSemicolon@1:23 KWord16@1:25 Nbuf@1:32 PLeftBracket@1:35 #4@1:36 PRightBracket@1:37 PSemicolon@1:38 PRightBrace@1:40 PSemicolon@1:41 KStruct@2:1 NSt@2:8 Nst@2:11 PSemicolon@2:13 KWord16@3:1 Nx@3:8 PSemicolon@3:9 KVoid@4:1 Nput@4:6 PLeftParenthesis@4:9 KStruct@4:10 NSt@4:17 PStar@4:20 Np@4:21 PComma@4:22 KWord16@4:24 Nv@4:31 PRightParenthesis@4:32 PLeftBrace@4:34 Np@4:36 PArrow@4:37 Nbuf@4:39 PLeftBracket@4:42 #0@4:43 PRightBracket@4:44 PAssign@4:46 Nv@4:48 PSemicolon@4:49 Np@4:51 PArrow@4:52 Nmem@4:54 PAssign@4:58 Nshr@4:60 PLeftParenthesis@4:63 Nv@4:64 PComma@4:65 #1@4:67 PRightParenthesis@4:68 PSemicolon@4:69 PRightBrace@4:71 KVoid@5:1 Nframe@5:6 PLeftParenthesis@5:11 KVoid@5:12 PRightParenthesis@5:16 PLeftBrace@5:18 Nput@5:20 PLeftParenthesis@5:23 PAmpersand@5:24 Nst@5:25 PComma@5:27 Nx@5:29 PRightParenthesis@5:30 PSemicolon@5:31 PRightBrace@5:33",
    ),
    (
        "a loop over a frame",
        b"#include \"basic_op.h\"\n#define L_FRAME 80\nWord16 speech[L_FRAME];\nvoid init(void) { mem = 0; move16(); loud = 0; move16(); }\nstatic void scale(Word16 in[], Word16 out[], Word16 n) {\n  Word16 i;\n  FOR (i = 0; i < n; i++) { out[i] = shr(in[i], 2); move16(); }\n}\n",
        "KWord16@3:1 Nspeech@3:8 PLeftBracket@3:14 #80@3:15 PRightBracket@3:22 PSemicolon@3:23 KVoid@4:1 Ninit@4:6 PLeftParenthesis@4:10 KVoid@4:11 PRightParenthesis@4:15 PLeftBrace@4:17 Nmem@4:19 PAssign@4:23 #0@4:25 PSemicolon@4:26 Nmove16@4:28 PLeftParenthesis@4:34 PRightParenthesis@4:35 PSemicolon@4:36 Nloud@4:38 PAssign@4:43 #0@4:45 PSemicolon@4:46 Nmove16@4:48 PLeftParenthesis@4:54 PRightParenthesis@4:55 PSemicolon@4:56 PRightBrace@4:58 KStatic@5:1 KVoid@5:8 Nscale@5:13 PLeftParenthesis@5:18 KWord16@5:19 Nin@5:26 PLeftBracket@5:28 PRightBracket@5:29 PComma@5:30 KWord16@5:32 Nout@5:39 PLeftBracket@5:42 PRightBracket@5:43 PComma@5:44 KWord16@5:46 Nn@5:53 PRightParenthesis@5:54 PLeftBrace@5:56 KWord16@6:3 Ni@6:10 PSemicolon@6:11 KCountedFor@7:3 PLeftParenthesis@7:7 Ni@7:8 PAssign@7:10 #0@7:12 PSemicolon@7:13 Ni@7:15 PLess@7:17 Nn@7:19 PSemicolon@7:20 Ni@7:22 PIncrement@7:23 PRightParenthesis@7:25 PLeftBrace@7:27 Nout@7:29 PLeftBracket@7:32 Ni@7:33 PRightBracket@7:34 PAssign@7:36 Nshr@7:38 PLeftParenthesis@7:41 Nin@7:42 PLeftBracket@7:44 Ni@7:45 PRightBracket@7:46 PComma@7:47 #2@7:49 PRightParenthesis@7:50 PSemicolon@7:51 Nmove16@7:53 PLeftParenthesis@7:59 PRightParenthesis@7:60 PSemicolon@7:61 PRightBrace@7:63 PRightBrace@8:1",
    ),
    (
        "the least word as a cast",
        b"Word16 y;\nvoid frame(void) { y = (Word16)0x8000; }",
        "KWord16@1:1 Ny@1:8 PSemicolon@1:9 KVoid@2:1 Nframe@2:6 PLeftParenthesis@2:11 KVoid@2:12 PRightParenthesis@2:16 PLeftBrace@2:18 Ny@2:20 PAssign@2:22 PLeftParenthesis@2:24 KWord16@2:25 PRightParenthesis@2:31 #32768@2:32 PSemicolon@2:38 PRightBrace@2:40",
    ),
    (
        "a splice with a carriage return in a number and its suffix",
        b"0\\\r\nxF\\\r\nL 1\\\r\n",
        "#15@1:1 #1@3:3",
    ),
    (
        "a splice in the end of a comment",
        b"/* x *\\\n/ a /* \\\n\n */ b",
        "Na@2:3 Nb@4:5",
    ),
    (
        "a splice opens a line comment",
        b"a /\\\n/ b\nc",
        "Na@1:1 Nc@3:1",
    ),
    (
        "a splice in the middle of every compound mark",
        b"+\\\n= -\\\n= *\\\n= -\\\n- <\\\n= >\\\n= =\\\n= !\\\n= &\\\n& |\\\n|",
        "PPlusAssign@1:1 PMinusAssign@2:3 PTimesAssign@3:3 PDecrement@4:3 PLessEqual@5:3 PGreaterEqual@6:3 PEqual@7:3 PNotEqual@8:3 PAnd@9:3 POr@10:3",
    ),
    (
        "a splice in the name of a directive",
        b"#def\\\nine A\\\nB 1\nAB",
        "#1@4:1",
    ),
    (
        "compound marks without white space",
        b"a+=b-=c*=d++e--f<=g>=h==i!=j&&k||l->m",
        "Na@1:1 PPlusAssign@1:2 Nb@1:4 PMinusAssign@1:5 Nc@1:7 PTimesAssign@1:8 Nd@1:10 PIncrement@1:11 Ne@1:13 PDecrement@1:14 Nf@1:16 PLessEqual@1:17 Ng@1:19 PGreaterEqual@1:20 Nh@1:22 PEqual@1:23 Ni@1:25 PNotEqual@1:26 Nj@1:28 PAnd@1:29 Nk@1:31 POr@1:32 Nl@1:34 PArrow@1:35 Nm@1:37",
    ),
    (
        "the same list with other white space",
        b"#define A ( 1 )\n#define A\t(/**/1)\nA",
        "PLeftParenthesis@3:1 #1@3:1 PRightParenthesis@3:1",
    ),
    (
        "an empty list again",
        b"#define V\n#define V /* */\nV;V",
        "PSemicolon@3:2",
    ),
    (
        "macros that vanish in a list",
        b"#define V\n#define W V V\n#define A W 1 V\nA W A",
        "#1@4:1 #1@4:5",
    ),
    (
        "a chain of three macros",
        b"#define A B\n#define B C\n#define C 1\nA B C\n#undef C\nA B C",
        "#1@4:1 #1@4:3 #1@4:5 NC@6:1 NC@6:3 NC@6:5",
    ),
    (
        "a star and a slash that end no comment",
        b"a */ b",
        "Na@1:1 PStar@1:3 PSlash@1:4 Nb@1:6",
    ),
];

const REFUSED: [(&str, &[u8], &str); 55] = [
    ("one above the decimal end", b"2147483648", "BadNumber 1:1"),
    ("no octal digit", b"08", "BadNumber 1:1"),
    ("a byte that begins no token", b"x = 1 % 2;", "BadByte 1:7"),
    (
        "another list for a name",
        b"#define A 1\n#define A 2",
        "BadDirective 2:1",
    ),
    (
        "a macro that reaches itself",
        b"#define A A\nWord16 x[A];",
        "MacroLoop 2:10",
    ),
    ("a comment that does not end", b"/* x", "OpenComment 1:1"),
    ("a backslash at the end of the file", b"a \\", "BadByte 1:3"),
    (
        "a backslash before a carriage return alone",
        b"\\\ra",
        "BadByte 1:1",
    ),
    ("a slash, a star and a slash", b"/*/", "OpenComment 1:1"),
    (
        "a bad byte before an open comment",
        b"@ /* x",
        "BadByte 1:1",
    ),
    (
        "an open comment behind a token",
        b" b /* x *",
        "OpenComment 1:4",
    ),
    (
        "undef with more behind it",
        b"#undef A B",
        "BadDirective 1:1",
    ),
    ("undef without a name", b"#undef", "BadDirective 1:1"),
    (
        "self-reference through three macros",
        b"#define A B\n#define B C\n#define C A\n x A",
        "MacroLoop 4:4",
    ),
    (
        "a macro that reaches one that reaches itself",
        b"#define A B\n#define B C\n#define C B\n x A",
        "MacroLoop 4:4",
    ),
    (
        "and a second other one",
        b"#define MAX_16 1\n#define MAX_16 2",
        "BadDirective 2:1",
    ),
    (
        "a parenthesis directly behind the name",
        b"#define A(x) x",
        "BadDirective 1:1",
    ),
    (
        "a splice before the parenthesis",
        b"#define A\\\n(x)",
        "BadDirective 1:1",
    ),
    ("an unknown directive", b"#error x", "BadDirective 1:1"),
    ("a number as a directive", b"#5", "BadDirective 1:1"),
    ("a bad byte as a directive", b"#@", "BadDirective 1:1"),
    ("define without a name", b"#define 1", "BadDirective 1:1"),
    ("a hash that is not the first", b"a # b", "BadByte 1:3"),
    (
        "a bad byte in the list of a new name",
        b"#define A @",
        "BadByte 1:11",
    ),
    (
        "a bad number in the list of a new name",
        b"#define A 1.5",
        "BadNumber 1:11",
    ),
    (
        "a bad byte in the list of a defined name",
        b"#define A 1\n#define A @",
        "BadDirective 2:1",
    ),
    ("above the hexadecimal end", b"0x100000000", "BadNumber 1:1"),
    ("above the octal end", b"040000000000", "BadNumber 1:1"),
    ("two suffixes", b"1LL", "BadNumber 1:1"),
    ("an unsigned suffix", b"1u", "BadNumber 1:1"),
    ("a fraction", b"1.0", "BadNumber 1:1"),
    ("an exponent", b"1e5", "BadNumber 1:1"),
    ("no hexadecimal digit", b"0x", "BadNumber 1:1"),
    ("a wrong hexadecimal digit", b"0x1G", "BadNumber 1:1"),
    ("a name behind a number", b"1_", "BadNumber 1:1"),
    (
        "more digits than 64 bits hold",
        b"99999999999999999999999999",
        "BadNumber 1:1",
    ),
    ("one bar", b"a | b", "BadByte 1:3"),
    ("a byte of 0", b"a\0", "BadByte 1:2"),
    ("the lesser place of two faults", b"08 @", "BadNumber 1:1"),
    (
        "a fault in a line that no macro hides",
        b"#define A 1\n A 09",
        "BadNumber 2:4",
    ),
    (
        "an unlike list of the same length",
        b"#define A x y\n#define A x z",
        "BadDirective 2:1",
    ),
    (
        "a longer list",
        b"#define A x\n#define A x x\nA",
        "BadDirective 2:1",
    ),
    (
        "a mark like a name's list",
        b"#define A -\n#define A --",
        "BadDirective 2:1",
    ),
    (
        "a key in the place of a name",
        b"#define A if\n#define A iff",
        "BadDirective 2:1",
    ),
    (
        "three macros, of which one reaches itself",
        b"#define A B C\n#define B 1\n#define C C\nB A",
        "MacroLoop 4:3",
    ),
    (
        "a define that a comment goes on in, with a bad byte",
        b"#define A /* x\n */ @",
        "BadByte 2:5",
    ),
    ("a suffix without digits", b"0xL", "BadNumber 1:1"),
    ("a suffix behind no octal digit", b"09L", "BadNumber 1:1"),
    ("a suffix in the middle", b"1L2", "BadNumber 1:1"),
    (
        "a bad number before a bad directive",
        b"09\n#error",
        "BadNumber 1:1",
    ),
    (
        "a bad directive before a bad number",
        b"#error\n09",
        "BadDirective 1:1",
    ),
    (
        "a bad byte, and a loop behind it",
        b"#define A A\n@ A",
        "BadByte 2:1",
    ),
    (
        "a loop, and a bad byte behind it",
        b"#define A A\nA @",
        "MacroLoop 2:1",
    ),
    ("a quotation mark", b"a \"b\"", "BadByte 1:3"),
    (
        "an open comment in quotation marks",
        b"#pragma \"/*\"\na",
        "OpenComment 1:10",
    ),
];

/// Writes a place behind what is written.
fn write_place(alloc: Global, out: &mut String, mark: &str, place: Place) -> Result<(), Fail> {
    let line = place.line;
    let column = place.column;
    let text = format!(in alloc; "{mark}{line}:{column}")?;
    out.push_str(text.as_str())?;
    Ok(())
}

/// Writes a token behind what is written.
fn write_token(alloc: Global, out: &mut String, token: &Token) -> Result<(), Fail> {
    if !out.is_empty() {
        out.push_str(" ")?;
    }
    match &token.kind {
        TokenKind::Name(name) => {
            out.push_str("N")?;
            for byte in name.bytes() {
                out.push(*byte as char)?;
            }
        }
        TokenKind::Number(value) => out.push_str(format!(in alloc; "#{value}")?.as_str())?,
        TokenKind::Key(key) => out.push_str(format!(in alloc; "K{key:?}")?.as_str())?,
        TokenKind::Punct(mark) => out.push_str(format!(in alloc; "P{mark:?}")?.as_str())?,
    }
    write_place(alloc, out, "@", token.place)
}

/// A fault by its name and its place.
fn named(fault: LexFault) -> (&'static str, Place) {
    let nowhere = Place {
        file: 0,
        line: 0,
        column: 0,
    };
    match fault {
        LexFault::BadByte { place } => ("BadByte ", place),
        LexFault::OpenComment { place } => ("OpenComment ", place),
        LexFault::BadNumber { place } => ("BadNumber ", place),
        LexFault::BadDirective { place } => ("BadDirective ", place),
        LexFault::MacroLoop { place } => ("MacroLoop ", place),
        LexFault::TooManyTokens { place } => ("TooManyTokens ", place),
        LexFault::NoMemory => ("NoMemory ", nowhere),
    }
}

/// What a text gives, written out.
fn written(alloc: Global, text: &[u8]) -> Result<String, Fail> {
    let mut out = String::new(alloc);
    if text.len() > 1_000_000_000 {
        return Ok(out);
    }
    let mut texts = Vec::new(alloc);
    texts.push(Vec::from_slice(alloc, text)?)?;
    match lex(alloc, &texts) {
        Err(fault) => {
            let (name, place) = named(fault);
            write_place(alloc, &mut out, name, place)?;
        }
        Ok(tokens) => {
            for token in &tokens {
                write_token(alloc, &mut out, token)?;
            }
        }
    }
    Ok(out)
}

#[test]
fn accepted_texts(rt: HostRuntime) -> Result<(), Fail> {
    for (what, text, expected) in &ACCEPTED {
        let out = written(rt.alloc(), text)?;
        assert_eq!(rt; out.as_str(), *expected, "{what}");
    }
    Ok(())
}

#[test]
fn refused_texts(rt: HostRuntime) -> Result<(), Fail> {
    for (what, text, expected) in &REFUSED {
        let out = written(rt.alloc(), text)?;
        assert_eq!(rt; out.as_str(), *expected, "{what}");
    }
    Ok(())
}

/// A million marks are tokens, and one more is too many.
#[test]
fn a_million_tokens(rt: HostRuntime) -> Result<(), Fail> {
    let alloc = rt.alloc();
    let mut text = Vec::from_elem(alloc, b';', 1_000_001)?;
    assert_eq!(rt; written(alloc, &text)?.as_str(), "TooManyTokens 1:1000001");
    let _ = text.pop();
    let mut texts = Vec::new(alloc);
    texts.push(text)?;
    match lex(alloc, &texts) {
        Ok(tokens) => assert_eq!(rt; tokens.len(), 1_000_000),
        Err(_) => assert!(rt; false),
    }
    Ok(())
}

const PAIRS: [(&str, &[u8], &[u8], &str); 10] = [
    ("definitions hold on", b"#define A 7", b"\n A", "#7@2:2/1"),
    (
        "and end in a later text",
        b"#define A 7\nA",
        b"#undef A\nA",
        "#7@2:1/0 NA@2:1/1",
    ),
    (
        "a line comment ends with its text",
        b"a // x",
        b"b",
        "Na@1:1/0 Nb@1:1/1",
    ),
    (
        "a name ends with its text",
        b"#define ab 1\na",
        b"b",
        "Na@2:1/0 Nb@1:1/1",
    ),
    (
        "a comment that the next text closes",
        b"a /* x",
        b"*/ b",
        "OpenComment 0:1:3",
    ),
    (
        "a backslash that ends a text",
        b"a \\",
        b"\nb",
        "BadByte 0:1:3",
    ),
    (
        "the fault of the first text",
        b"\n\n 08",
        b"@",
        "BadNumber 0:3:2",
    ),
    ("a fault of the second text", b"a", b"\n@", "BadByte 1:2:1"),
    (
        "another list in a later text",
        b"#define A 1",
        b"#define A 2",
        "BadDirective 1:1:1",
    ),
    (
        "a loop through two texts",
        b"#define A B",
        b"#define B A\n A",
        "MacroLoop 1:2:2",
    ),
];

/// What two texts give, written out with the number of the text.
fn written_pair(alloc: Global, first: &[u8], second: &[u8]) -> Result<String, Fail> {
    let mut out = String::new(alloc);
    if first.len() > 1_000_000_000 || second.len() > 1_000_000_000 {
        return Ok(out);
    }
    let mut texts = Vec::new(alloc);
    texts.push(Vec::from_slice(alloc, first)?)?;
    texts.push(Vec::from_slice(alloc, second)?)?;
    match lex(alloc, &texts) {
        Err(fault) => {
            let (name, place) = named(fault);
            let file = place.file;
            out.push_str(format!(in alloc; "{name}{file}:")?.as_str())?;
            write_place(alloc, &mut out, "", place)?;
        }
        Ok(tokens) => {
            for token in &tokens {
                write_token(alloc, &mut out, token)?;
                let file = token.place.file;
                out.push_str(format!(in alloc; "/{file}")?.as_str())?;
            }
        }
    }
    Ok(out)
}

#[test]
fn pairs_of_texts(rt: HostRuntime) -> Result<(), Fail> {
    for (what, first, second, expected) in &PAIRS {
        let out = written_pair(rt.alloc(), first, second)?;
        assert_eq!(rt; out.as_str(), *expected, "{what}");
    }
    Ok(())
}

/// A name that is replaced by nothing takes the place of a token.
#[test]
fn replaced_names_count(rt: HostRuntime) -> Result<(), Fail> {
    let alloc = rt.alloc();
    let mut text = Vec::from_slice(alloc, b"#define V\nV ")?;
    for _ in 0..999_998 {
        text.push(b';')?;
    }
    text.extend_from_slice(b" V V")?;
    assert_eq!(rt; written(alloc, &text)?.as_str(), "TooManyTokens 2:1000004");
    Ok(())
}

/// A chain of macros, each the one before it twice, is refused and not made.
#[test]
fn a_chain_that_doubles(rt: HostRuntime) -> Result<(), Fail> {
    let alloc = rt.alloc();
    let mut text = String::new(alloc);
    text.push_str("#define A0\n")?;
    for link in 1..60u32 {
        let before = link - 1;
        text.push_str(format!(in alloc; "#define A{link} A{before} A{before}\n")?.as_str())?;
    }
    text.push_str("x A59")?;
    assert_eq!(rt;
        written(alloc, text.as_str().as_bytes())?.as_str(),
        "TooManyTokens 61:3"
    );
    Ok(())
}
