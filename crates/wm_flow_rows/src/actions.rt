// Each action: assignments, operators, arrays, declarations and inputs.
use crate::drawing::{ALONE, drawing_of, expect};
use std::test::Fail;

#[test]
fn actions(rt: HostRuntime) -> Result<(), Fail> {
    let alloc = rt.alloc();
    let rows = [
        // nothing but the frame head
        (
            ALONE,
            "void frame(void) { }\n",
            "nodes 5\n\
            0 in - 0+1+0\n\
            2 in 0 0+1+0\n\
            0 -> 1 enter [ 0 ] [ ]\n\
            1 -> 2 enter [ 0 ] [ ]\n\
            2 -> 3 inputs\n\
            3 -> 4 clear\n\
            4 -> 1 enter [ 0 ] [ ]\n\
            head 1 in - loop - entry 0 back 4\n",
        ),
        // a sum that is kept as a form, then narrowed
        (
            ALONE,
            "Word16 x, y; void frame(void) { x = y + 3; }\n",
            "nodes 8\n\
            0 in - 2+1+0\n\
            2 in 0 2+1+0\n\
            0 -> 1 enter [ 0 1 2 ] [ ]\n\
            1 -> 2 enter [ 0 1 2 ] [ ]\n\
            2 -> 3 inputs\n\
            3 -> 4 test +x1+3 in -2147483648..2147483647 Sum +x1+0 +3 site 1\n\
            4 -> 5 test +x1+3 in -32768..32767 Itself +x1+3 site 0\n\
            5 -> 6 x0 = +x1+3\n\
            6 -> 7 clear\n\
            7 -> 1 enter [ 0 1 2 ] [ ]\n\
            head 1 in - loop - entry 0 back 7\n",
        ),
        // a sum of two variables
        (
            ALONE,
            "Word32 x, y; void frame(void) { x += y; }\n",
            "nodes 7\n\
            0 in - 2+1+0\n\
            2 in 0 2+1+0\n\
            0 -> 1 enter [ 0 1 2 ] [ ]\n\
            1 -> 2 enter [ 0 1 2 ] [ ]\n\
            2 -> 3 inputs\n\
            3 -> 4 test +x0+x1+0 in -2147483648..2147483647 Sum +x0+0 +x1+0 site 0\n\
            4 -> 5 x0 = +x0+x1+0\n\
            5 -> 6 clear\n\
            6 -> 1 enter [ 0 1 2 ] [ ]\n\
            head 1 in - loop - entry 0 back 6\n",
        ),
        // the other sign
        (
            ALONE,
            "Word32 x, y; void frame(void) { x = -y; }\n",
            "nodes 7\n\
            0 in - 2+1+0\n\
            2 in 0 2+1+0\n\
            0 -> 1 enter [ 0 1 2 ] [ ]\n\
            1 -> 2 enter [ 0 1 2 ] [ ]\n\
            2 -> 3 inputs\n\
            3 -> 4 test -x1+0 in -2147483648..2147483647 Negative +x1+0 site 0\n\
            4 -> 5 x0 = -x1+0\n\
            5 -> 6 clear\n\
            6 -> 1 enter [ 0 1 2 ] [ ]\n\
            head 1 in - loop - entry 0 back 6\n",
        ),
        // a product, which is no form and stands in a temporary
        (
            ALONE,
            "Word32 x, y; void frame(void) { x = y * 3; }\n",
            "nodes 7\n\
            0 in - 2+1+0\n\
            2 in 0 2+1+0\n\
            4 in 0 2+2+0\n\
            5 in 0 2+1+0\n\
            0 -> 1 enter [ 0 1 2 ] [ ]\n\
            1 -> 2 enter [ 0 1 2 ] [ ]\n\
            2 -> 3 inputs\n\
            3 -> 4 x3 = Times +x1+0 +3 site 0\n\
            4 -> 5 x0 = +x3+0\n\
            5 -> 6 clear\n\
            6 -> 1 enter [ 0 1 2 ] [ ]\n\
            head 1 in - loop - entry 0 back 6\n",
        ),
        // a cast to 16 bits
        (
            ALONE,
            "Word16 x; Word32 y; void frame(void) { x = (Word16) y; }\n",
            "nodes 7\n\
            0 in - 2+1+0\n\
            2 in 0 2+1+0\n\
            4 in 0 2+2+0\n\
            5 in 0 2+1+0\n\
            0 -> 1 enter [ 0 1 2 ] [ ]\n\
            1 -> 2 enter [ 0 1 2 ] [ ]\n\
            2 -> 3 inputs\n\
            3 -> 4 x3 = cast +x1+0\n\
            4 -> 5 x0 = +x3+0\n\
            5 -> 6 clear\n\
            6 -> 1 enter [ 0 1 2 ] [ ]\n\
            head 1 in - loop - entry 0 back 6\n",
        ),
        // an operator over an input, which is not there at the frame head
        (
            "source = \"a.c\"\n[range]\ny = [0, 10]\n",
            "Word16 x, y; void frame(void) { x = add(y, 1); }\n",
            "nodes 7\n\
            0 in - 1+1+0\n\
            2 in 0 1+2+0\n\
            0 -> 1 enter [ 0 1 ] [ ]\n\
            1 -> 2 enter [ 0 - 1 ] [ ]\n\
            2 -> 3 inputs x1:0..10\n\
            3 -> 4 count Operator(Add)\n\
            4 -> 5 x0 = Add +x1+0 +1 +0 flag x2 site 0\n\
            5 -> 6 clear\n\
            6 -> 1 enter [ 0 2 ] [ ]\n\
            head 1 in - loop - entry 0 back 6\n",
        ),
        // an input array, which is there
        (
            "source = \"a.c\"\n[range]\nb = [0, 5]\n",
            "Word16 b[2]; void frame(void) { }\n",
            "nodes 5\n\
            0 in - 0+1+1\n\
            2 in 0 0+1+1\n\
            0 -> 1 enter [ 0 ] [ 0 ]\n\
            1 -> 2 enter [ 0 ] [ 0 ]\n\
            2 -> 3 inputs a0:0..5\n\
            3 -> 4 clear\n\
            4 -> 1 enter [ 0 ] [ 0 ]\n\
            head 1 in - loop - entry 0 back 4\n",
        ),
        // an operator as an argument of another
        (
            ALONE,
            "Word32 e; Word16 x; void frame(void) { e = L_mac(e, x, extract_h(e)); }\n",
            "nodes 9\n\
            0 in - 2+1+0\n\
            2 in 0 2+1+0\n\
            5 in 0 2+2+0\n\
            7 in 0 2+1+0\n\
            0 -> 1 enter [ 0 1 2 ] [ ]\n\
            1 -> 2 enter [ 0 1 2 ] [ ]\n\
            2 -> 3 inputs\n\
            3 -> 4 count Operator(ExtractH)\n\
            4 -> 5 x3 = ExtractH +x0+0 +0 +0 flag x2 site 1\n\
            5 -> 6 count Operator(LMac)\n\
            6 -> 7 x0 = LMac +x0+0 +x1+0 +x3+0 flag x2 site 0\n\
            7 -> 8 clear\n\
            8 -> 1 enter [ 0 1 2 ] [ ]\n\
            head 1 in - loop - entry 0 back 8\n",
        ),
        // Overflow as an argument of an operator goes to a temporary first
        (
            ALONE,
            "Word32 y; void frame(void) { y = L_add(Overflow, 1); }\n",
            "nodes 8\n\
            0 in - 1+1+0\n\
            2 in 0 1+1+0\n\
            4 in 0 1+2+0\n\
            6 in 0 1+1+0\n\
            0 -> 1 enter [ 0 1 ] [ ]\n\
            1 -> 2 enter [ 0 1 ] [ ]\n\
            2 -> 3 inputs\n\
            3 -> 4 x2 = +x1+0\n\
            4 -> 5 count Operator(LAdd)\n\
            5 -> 6 x0 = LAdd +x2+0 +1 +0 flag x1 site 0\n\
            6 -> 7 clear\n\
            7 -> 1 enter [ 0 1 ] [ ]\n\
            head 1 in - loop - entry 0 back 7\n",
        ),
        // an element is read and one is written
        (
            ALONE,
            "Word16 a[4], i; void frame(void) { a[i] = a[i + 1]; }\n",
            "nodes 10\n\
            0 in - 1+1+1\n\
            2 in 0 1+1+1\n\
            7 in 0 1+2+1\n\
            8 in 0 1+1+1\n\
            0 -> 1 enter [ 0 1 ] [ 0 ]\n\
            1 -> 2 enter [ 0 1 ] [ 0 ]\n\
            2 -> 3 inputs\n\
            3 -> 4 test +x0+0 in 0..3 Itself +x0+0 site 0\n\
            4 -> 5 test +x0+1 in -2147483648..2147483647 Sum +x0+0 +1 site 2\n\
            5 -> 6 test +x0+1 in 0..3 Itself +x0+1 site 1\n\
            6 -> 7 x2 = a0 site 1\n\
            7 -> 8 a0 of 4 gets +x2+0\n\
            8 -> 9 clear\n\
            9 -> 1 enter [ 0 1 ] [ 0 ]\n\
            head 1 in - loop - entry 0 back 9\n",
        ),
        // an element of a const array
        (
            ALONE,
            "const Word16 t[3] = { 5, -2, 9 }; Word16 i, x; void frame(void) { x = t[i]; }\n",
            "nodes 8\n\
            0 in - 2+1+0\n\
            2 in 0 2+1+0\n\
            5 in 0 2+2+0\n\
            6 in 0 2+1+0\n\
            0 -> 1 enter [ 0 1 2 ] [ ]\n\
            1 -> 2 enter [ 0 1 2 ] [ ]\n\
            2 -> 3 inputs\n\
            3 -> 4 test +x0+0 in 0..2 Itself +x0+0 site 0\n\
            4 -> 5 x3 = -2..9\n\
            5 -> 6 x1 = +x3+0\n\
            6 -> 7 clear\n\
            7 -> 1 enter [ 0 1 2 ] [ ]\n\
            head 1 in - loop - entry 0 back 7\n",
        ),
        // arrays of a block, with and without values
        (
            ALONE,
            "void frame(void) { Word16 b[2] = { 7, -1 }; Word16 c[3]; }\n",
            "nodes 7\n\
            0 in - 0+1+0\n\
            2 in 0 0+1+2\n\
            0 -> 1 enter [ 0 ] [ ]\n\
            1 -> 2 enter [ 0 ] [ - - ]\n\
            2 -> 3 inputs\n\
            3 -> 4 a0 = -1..7\n\
            4 -> 5 a1 = empty\n\
            5 -> 6 clear\n\
            6 -> 1 enter [ 0 ] [ ]\n\
            head 1 in - loop - entry 0 back 6\n",
        ),
        // scalars of two blocks
        (
            ALONE,
            "void frame(void) { Word16 k = 5; Word32 m; { Word16 n; } }\n",
            "nodes 10\n\
            0 in - 0+1+0\n\
            2 in 0 3+1+0\n\
            0 -> 1 enter [ 0 ] [ ]\n\
            1 -> 2 enter [ - - - 0 ] [ ]\n\
            2 -> 3 inputs\n\
            3 -> 4 x0 = +5\n\
            4 -> 5 clear x1\n\
            5 -> 6 clear x2\n\
            6 -> 7 clear x2\n\
            7 -> 8 clear x0 x1\n\
            8 -> 9 clear\n\
            9 -> 1 enter [ 3 ] [ ]\n\
            head 1 in - loop - entry 0 back 9\n",
        ),
        // a form as an argument of an operator, which is narrowed before the operator counts
        (
            ALONE,
            "Word16 x, y; void frame(void) { x = add(y - 1, x); }\n",
            "nodes 9\n\
            0 in - 2+1+0\n\
            2 in 0 2+1+0\n\
            0 -> 1 enter [ 0 1 2 ] [ ]\n\
            1 -> 2 enter [ 0 1 2 ] [ ]\n\
            2 -> 3 inputs\n\
            3 -> 4 test +x1-1 in -2147483648..2147483647 Difference +x1+0 +1 site 2\n\
            4 -> 5 test +x1-1 in -32768..32767 Itself +x1-1 site 1\n\
            5 -> 6 count Operator(Add)\n\
            6 -> 7 x0 = Add +x1-1 +x0+0 +0 flag x2 site 0\n\
            7 -> 8 clear\n\
            8 -> 1 enter [ 0 1 2 ] [ ]\n\
            head 1 in - loop - entry 0 back 8\n",
        ),
        // the value of an operator comes to Overflow by a temporary
        (
            ALONE,
            "Word32 y; void frame(void) { Overflow = L_abs(y); }\n",
            "nodes 8\n\
            0 in - 1+1+0\n\
            2 in 0 1+1+0\n\
            5 in 0 1+2+0\n\
            6 in 0 1+1+0\n\
            0 -> 1 enter [ 0 1 ] [ ]\n\
            1 -> 2 enter [ 0 1 ] [ ]\n\
            2 -> 3 inputs\n\
            3 -> 4 count Operator(LAbs)\n\
            4 -> 5 x2 = LAbs +x0+0 +0 +0 flag x1 site 0\n\
            5 -> 6 x1 = +x2+0\n\
            6 -> 7 clear\n\
            7 -> 1 enter [ 0 1 ] [ ]\n\
            head 1 in - loop - entry 0 back 7\n",
        ),
    ];
    for (specification, source, wanted) in rows {
        let drawn = drawing_of(alloc, specification, source, &[])?;
        expect(&rt, drawn.as_slice(), wanted);
    }
    Ok(())
}
