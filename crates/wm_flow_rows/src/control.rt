// Conditions, loops, calls, and what the roots are.
use crate::drawing::{ALONE, drawing_of, expect};
use std::test::Fail;
use wm_flow::Sum;

#[test]
fn control(rt: HostRuntime) -> Result<(), Fail> {
    let alloc = rt.alloc();
    let rows = [
        // counted words, with an else part
        (
            ALONE,
            "Word16 x; void frame(void) { IF (x > 3) move16(); ELSE x = 0; }\n",
            "nodes 12\n\
            0 in - 1+1+0\n\
            2 in 0 1+1+0\n\
            0 -> 1 enter [ 0 1 ] [ ]\n\
            1 -> 2 enter [ 0 1 ] [ ]\n\
            2 -> 3 inputs\n\
            3 -> 4 count Word(If)\n\
            4 -> 5 keep -x0+4 AtMost\n\
            4 -> 7 keep +x0-3 AtMost\n\
            5 -> 6 count Call(Move16)\n\
            6 -> 10 clear\n\
            7 -> 8 count Word(Else)\n\
            8 -> 9 x0 = +0\n\
            9 -> 10 clear\n\
            10 -> 11 clear\n\
            11 -> 1 enter [ 0 1 ] [ ]\n\
            head 1 in - loop - entry 0 back 12\n",
        ),
        // and, or, not, and a number as a condition
        (
            ALONE,
            "Word16 x, y; void frame(void) { if (!(x == 1 || y != 2) && x) x = 1; }\n",
            "nodes 10\n\
            0 in - 2+1+0\n\
            2 in 0 2+1+0\n\
            0 -> 1 enter [ 0 1 2 ] [ ]\n\
            1 -> 2 enter [ 0 1 2 ] [ ]\n\
            2 -> 3 inputs\n\
            3 -> 4 keep +x0-1 NotEqual\n\
            3 -> 8 keep +x0-1 Equal\n\
            4 -> 5 keep +x1-2 Equal\n\
            4 -> 8 keep +x1-2 NotEqual\n\
            5 -> 6 keep +x0+0 NotEqual\n\
            5 -> 8 keep +x0+0 Equal\n\
            6 -> 7 x0 = +1\n\
            7 -> 8 clear\n\
            8 -> 9 clear\n\
            9 -> 1 enter [ 0 1 2 ] [ ]\n\
            head 1 in - loop - entry 0 back 12\n",
        ),
        // a difference compared with 0 compares its arguments
        (
            ALONE,
            "Word16 x, y; void frame(void) { if (sub(x, y) < 0) y = x; }\n",
            "nodes 10\n\
            0 in - 2+1+0\n\
            2 in 0 2+1+0\n\
            5 in 0 2+2+0\n\
            6 in 0 2+1+0\n\
            0 -> 1 enter [ 0 1 2 ] [ ]\n\
            1 -> 2 enter [ 0 1 2 ] [ ]\n\
            2 -> 3 inputs\n\
            3 -> 4 count Operator(Sub)\n\
            4 -> 5 x3 = Sub +x0+0 +x1+0 +0 flag x2 site 0\n\
            5 -> 6 keep +x0-x1+1 AtMost\n\
            5 -> 8 keep -x0+x1+0 AtMost\n\
            6 -> 7 x1 = +x0+0\n\
            7 -> 8 clear\n\
            8 -> 9 clear\n\
            9 -> 1 enter [ 0 1 2 ] [ ]\n\
            head 1 in - loop - entry 0 back 10\n",
        ),
        // Overflow, which an operator may set
        (
            ALONE,
            "Word16 x; void frame(void) { Overflow = 0; x = add(x, 1); if (Overflow) x = 0; }\n",
            "nodes 11\n\
            0 in - 1+1+0\n\
            2 in 0 1+1+0\n\
            0 -> 1 enter [ 0 1 ] [ ]\n\
            1 -> 2 enter [ 0 1 ] [ ]\n\
            2 -> 3 inputs\n\
            3 -> 4 x1 = +0\n\
            4 -> 5 count Operator(Add)\n\
            5 -> 6 x0 = Add +x0+0 +1 +0 flag x1 site 0\n\
            6 -> 7 keep +x1+0 NotEqual\n\
            6 -> 9 keep +x1+0 Equal\n\
            7 -> 8 x0 = +0\n\
            8 -> 9 clear\n\
            9 -> 10 clear\n\
            10 -> 1 enter [ 0 1 ] [ ]\n\
            head 1 in - loop - entry 0 back 11\n",
        ),
        // a break leads behind the loop; the node after it is reached by nothing
        (
            ALONE,
            "Word16 x; void frame(void) { WHILE (x < 9) { if (x == 4) BREAK; x++; } }\n",
            "nodes 17\n\
            0 in - 1+1+0\n\
            2 in 0 1+1+0\n\
            4 in 0 2+1+0\n\
            15 in 0 1+1+0\n\
            0 -> 1 enter [ 0 1 ] [ ]\n\
            1 -> 2 enter [ 0 1 ] [ ]\n\
            2 -> 3 inputs\n\
            3 -> 4 reset x1\n\
            4 -> 5 count Word(While)\n\
            5 -> 6 keep +x0-8 AtMost\n\
            5 -> 15 keep -x0+9 AtMost\n\
            6 -> 7 keep +x0-4 Equal\n\
            6 -> 10 keep +x0-4 NotEqual\n\
            7 -> 8 count Word(Break)\n\
            8 -> 15 clear\n\
            9 -> 10 clear\n\
            10 -> 11 test +x0+1 in -2147483648..2147483647 Sum +x0+0 +1 site 0\n\
            11 -> 12 test +x0+1 in -32768..32767 Itself +x0+1 site 1\n\
            12 -> 13 x0 = +x0+1\n\
            13 -> 14 clear\n\
            14 -> 4 turn x1+1\n\
            15 -> 16 clear\n\
            16 -> 1 enter [ 0 1 ] [ ]\n\
            head 1 in - loop - entry 0 back 18\n\
            head 4 in 0 loop 0 entry 3 back 16\n",
        ),
        // a do loop has its head before the body; a continue leads to its test
        (
            ALONE,
            "Word16 x; void frame(void) { DO { CONTINUE; } WHILE (x); }\n",
            "nodes 13\n\
            0 in - 1+1+0\n\
            2 in 0 1+1+0\n\
            5 in 0 2+1+0\n\
            11 in 0 1+1+0\n\
            0 -> 1 enter [ 0 1 ] [ ]\n\
            1 -> 2 enter [ 0 1 ] [ ]\n\
            2 -> 3 inputs\n\
            3 -> 4 count Word(Do)\n\
            4 -> 5 reset x1\n\
            5 -> 6 count Word(Continue)\n\
            6 -> 8 clear\n\
            7 -> 8 clear\n\
            8 -> 9 count Word(While)\n\
            9 -> 10 keep +x0+0 NotEqual\n\
            9 -> 11 keep +x0+0 Equal\n\
            10 -> 5 turn x1+1\n\
            11 -> 12 clear\n\
            12 -> 1 enter [ 0 1 ] [ ]\n\
            head 1 in - loop - entry 0 back 13\n\
            head 5 in 0 loop 0 entry 4 back 11\n",
        ),
        // a loop in a loop has a counter of its own
        (
            ALONE,
            "void frame(void) { Word16 i, j; for (i = 0; i < 2; i++) for (j = 0; j < 3; j++) ; }\n",
            "nodes 24\n\
            0 in - 0+1+0\n\
            2 in 0 2+1+0\n\
            7 in 0 3+1+0\n\
            10 in 0 4+1+0\n\
            16 in 0 3+1+0\n\
            21 in 0 2+1+0\n\
            0 -> 1 enter [ 0 ] [ ]\n\
            1 -> 2 enter [ - - 0 ] [ ]\n\
            2 -> 3 inputs\n\
            3 -> 4 clear x0\n\
            4 -> 5 clear x1\n\
            5 -> 6 x0 = +0\n\
            6 -> 7 reset x2\n\
            7 -> 8 keep +x0-1 AtMost\n\
            7 -> 21 keep -x0+2 AtMost\n\
            8 -> 9 x1 = +0\n\
            9 -> 10 reset x3\n\
            10 -> 11 keep +x1-2 AtMost\n\
            10 -> 16 keep -x1+3 AtMost\n\
            11 -> 12 clear\n\
            12 -> 13 test +x1+1 in -2147483648..2147483647 Sum +x1+0 +1 site 2\n\
            13 -> 14 test +x1+1 in -32768..32767 Itself +x1+1 site 3\n\
            14 -> 15 x1 = +x1+1\n\
            15 -> 10 turn x3+1\n\
            16 -> 17 clear\n\
            17 -> 18 test +x0+1 in -2147483648..2147483647 Sum +x0+0 +1 site 0\n\
            18 -> 19 test +x0+1 in -32768..32767 Itself +x0+1 site 1\n\
            19 -> 20 x0 = +x0+1\n\
            20 -> 7 turn x2+1\n\
            21 -> 22 clear x0 x1\n\
            22 -> 23 clear\n\
            23 -> 1 enter [ 2 ] [ ]\n\
            head 1 in - loop - entry 0 back 25\n\
            head 7 in 0 loop 0 entry 6 back 22\n\
            head 10 in 0 loop 1 entry 10 back 17\n",
        ),
        // a view of an array, with a number that is returned
        (
            ALONE,
            "Word16 a[4], x; Word16 pick(Word16 v[], Word16 k) { return v[k]; } void frame(void) { x = pick(&a[1], x); }\n",
            "nodes 13\n\
            0 in - 1+1+1\n\
            2 in 0 1+1+1\n\
            5 in 1 3+1+1\n\
            7 in 1 3+2+1\n\
            8 in 1 3+1+1\n\
            9 in 1 3+2+1\n\
            10 in 0 1+2+1\n\
            11 in 0 1+1+1\n\
            0 -> 1 enter [ 0 1 ] [ 0 ]\n\
            1 -> 2 enter [ 0 1 ] [ 0 ]\n\
            2 -> 3 inputs\n\
            3 -> 4 test +1 in 0..4 Itself +1 site 1\n\
            4 -> 5 enter [ 0 - - 1 ] [ 0 ] x1 = +1 x2 = +x0+0\n\
            5 -> 6 test +x1+x2+0 in 0..3 Itself +x1+x2+0 site 0\n\
            6 -> 7 x4 = a0 site 0\n\
            7 -> 9 clear\n\
            8 -> 9 clear\n\
            9 -> 10 leave 4 [ - - - ] [ 0 3 - ] [ 0 ] x4 to x2\n\
            10 -> 11 x0 = +x2+0\n\
            11 -> 12 clear\n\
            12 -> 1 enter [ 0 1 ] [ 0 ]\n\
            head 1 in - loop - entry 0 back 12\n",
        ),
        // a scalar whose address is taken is an array of one cell
        (
            ALONE,
            "void bump(Word16 *p) { *p = add(*p, 1); } void frame(void) { Word16 t = 3; bump(&t); }\n",
            "nodes 15\n\
            0 in - 0+1+0\n\
            2 in 0 0+1+1\n\
            5 in 1 1+1+1\n\
            8 in 1 1+2+1\n\
            11 in 1 1+1+1\n\
            13 in 0 0+1+1\n\
            0 -> 1 enter [ 0 ] [ ]\n\
            1 -> 2 enter [ 0 ] [ - ]\n\
            2 -> 3 inputs\n\
            3 -> 4 a0 of 1 gets +3\n\
            4 -> 5 enter [ - 0 ] [ 0 ] x0 = +0\n\
            5 -> 6 test +x0+0 in 0..0 Itself +x0+0 site 0\n\
            6 -> 7 test +x0+0 in 0..0 Itself +x0+0 site 2\n\
            7 -> 8 x2 = a0 site 2\n\
            8 -> 9 count Operator(Add)\n\
            9 -> 10 x2 = Add +x2+0 +1 +0 flag x1 site 1\n\
            10 -> 11 a0 of 1 gets +x2+0\n\
            11 -> 12 clear\n\
            12 -> 13 leave 4 [ - ] [ 1 ] [ 0 ]\n\
            13 -> 14 clear\n\
            14 -> 1 enter [ 0 ] [ ]\n\
            head 1 in - loop - entry 0 back 14\n",
        ),
        // two instances of one function, each with its locals
        (
            ALONE,
            "Word16 x; Word16 same(Word16 k) { Word16 t = k; return t; } void frame(void) { x = add(same(1), same(x)); }\n",
            "nodes 23\n\
            0 in - 1+1+0\n\
            2 in 0 1+1+0\n\
            4 in 1 3+1+0\n\
            6 in 1 3+2+0\n\
            8 in 1 3+1+0\n\
            10 in 1 3+2+0\n\
            11 in 0 1+2+0\n\
            12 in 2 3+1+0\n\
            14 in 2 3+2+0\n\
            16 in 2 3+1+0\n\
            18 in 2 3+2+0\n\
            19 in 0 1+3+0\n\
            21 in 0 1+1+0\n\
            0 -> 1 enter [ 0 1 ] [ ]\n\
            1 -> 2 enter [ 0 1 ] [ ]\n\
            2 -> 3 inputs\n\
            3 -> 4 enter [ 0 - - 1 ] [ ] x1 = +1\n\
            4 -> 5 x2 = +x1+0\n\
            5 -> 6 x4 = +x2+0\n\
            6 -> 7 clear x2\n\
            7 -> 10 clear\n\
            8 -> 9 clear x2\n\
            9 -> 10 clear\n\
            10 -> 11 leave 3 [ - - - ] [ 0 3 - ] [ ] x4 to x2\n\
            11 -> 12 enter [ 0 - - 1 ] [ ] x1 = +x0+0\n\
            12 -> 13 x2 = +x1+0\n\
            13 -> 14 x4 = +x2+0\n\
            14 -> 15 clear x2\n\
            15 -> 18 clear\n\
            16 -> 17 clear x2\n\
            17 -> 18 clear\n\
            18 -> 19 leave 11 [ - - 2 - ] [ 0 3 - - ] [ ] x4 to x3\n\
            19 -> 20 count Operator(Add)\n\
            20 -> 21 x0 = Add +x2+0 +x3+0 +0 flag x1 site 0\n\
            21 -> 22 clear\n\
            22 -> 1 enter [ 0 1 ] [ ]\n\
            head 1 in - loop - entry 0 back 22\n",
        ),
        // a variable that a later call may change goes to a temporary first
        (
            ALONE,
            "Word16 x; Word16 two(void) { x = 2; return 1; } void frame(void) { x = x + two(); }\n",
            "nodes 15\n\
            0 in - 1+1+0\n\
            2 in 0 1+1+0\n\
            4 in 0 1+2+0\n\
            5 in 1 1+1+0\n\
            7 in 1 1+2+0\n\
            8 in 1 1+1+0\n\
            9 in 1 1+2+0\n\
            10 in 0 1+3+0\n\
            11 in 0 1+2+0\n\
            13 in 0 1+1+0\n\
            0 -> 1 enter [ 0 1 ] [ ]\n\
            1 -> 2 enter [ 0 1 ] [ ]\n\
            2 -> 3 inputs\n\
            3 -> 4 x2 = +x0+0\n\
            4 -> 5 enter [ 0 1 ] [ ]\n\
            5 -> 6 x0 = +2\n\
            6 -> 7 x2 = +1\n\
            7 -> 9 clear\n\
            8 -> 9 clear\n\
            9 -> 10 leave 4 [ - - 2 - ] [ 0 1 - - ] [ ] x2 to x3\n\
            10 -> 11 x2 = Plus +x2+0 +x3+0 site 1\n\
            11 -> 12 test +x2+0 in -32768..32767 Itself +x2+0 site 0\n\
            12 -> 13 x0 = +x2+0\n\
            13 -> 14 clear\n\
            14 -> 1 enter [ 0 1 ] [ ]\n\
            head 1 in - loop - entry 0 back 14\n",
        ),
        // init runs before the frames
        (
            "source = \"a.c\"\ninit = \"start\"\n",
            "Word16 x; void start(void) { x = 7; } void frame(void) { move16(); }\n",
            "nodes 8\n\
            0 in 0 1+1+0\n\
            3 in - 1+1+0\n\
            4 in 1 1+1+0\n\
            0 -> 1 x0 = +7\n\
            1 -> 2 clear\n\
            2 -> 3 enter [ 0 1 ] [ ]\n\
            3 -> 4 enter [ 0 1 ] [ ]\n\
            4 -> 5 inputs\n\
            5 -> 6 count Call(Move16)\n\
            6 -> 7 clear\n\
            7 -> 3 enter [ 0 1 ] [ ]\n\
            head 3 in - loop - entry 2 back 7\n",
        ),
        // two frame functions behind a choice
        (
            "source = \"a.c\"\nframe = [\"low\", \"high\"]\n",
            "Word16 x; void low(void) { x = 1; } void high(void) { }\n",
            "nodes 15\n\
            0 in - 1+1+0\n\
            2 in 0 1+2+0\n\
            5 in 1 1+2+0\n\
            8 in 0 1+2+0\n\
            10 in 2 1+2+0\n\
            12 in 0 1+2+0\n\
            0 -> 1 enter [ 0 1 ] [ ]\n\
            1 -> 2 enter [ 0 - 1 ] [ ]\n\
            2 -> 3 inputs x1:1..2\n\
            3 -> 4 keep +x1-1 Equal\n\
            3 -> 9 keep +x1-1 NotEqual\n\
            4 -> 5 enter [ 0 1 2 ] [ ]\n\
            5 -> 6 x0 = +1\n\
            6 -> 7 clear\n\
            7 -> 8 leave 4 [ - - - ] [ 0 1 2 ] [ ]\n\
            8 -> 13 clear\n\
            9 -> 10 enter [ 0 1 2 ] [ ]\n\
            10 -> 11 clear\n\
            11 -> 12 leave 9 [ - - - ] [ 0 1 2 ] [ ]\n\
            12 -> 13 clear\n\
            13 -> 14 clear\n\
            14 -> 1 enter [ 0 2 ] [ ]\n\
            head 1 in - loop - entry 0 back 15\n",
        ),
        // sides whose difference is a form
        (
            ALONE,
            "Word16 x, y; void frame(void) { if (x - y < 3) y = 0; }\n",
            "nodes 9\n\
            0 in - 2+1+0\n\
            2 in 0 2+1+0\n\
            0 -> 1 enter [ 0 1 2 ] [ ]\n\
            1 -> 2 enter [ 0 1 2 ] [ ]\n\
            2 -> 3 inputs\n\
            3 -> 4 test +x0-x1+0 in -2147483648..2147483647 Difference +x0+0 +x1+0 site 0\n\
            4 -> 5 keep +x0-x1-2 AtMost\n\
            4 -> 7 keep -x0+x1+3 AtMost\n\
            5 -> 6 x1 = +0\n\
            6 -> 7 clear\n\
            7 -> 8 clear\n\
            8 -> 1 enter [ 0 1 2 ] [ ]\n\
            head 1 in - loop - entry 0 back 9\n",
        ),
        // sides whose difference is none go to temporaries
        (
            ALONE,
            "Word16 x, y, z; void frame(void) { if (x + y <= z + 1) x = 0; }\n",
            "nodes 12\n\
            0 in - 3+1+0\n\
            2 in 0 3+1+0\n\
            6 in 0 3+2+0\n\
            7 in 0 3+3+0\n\
            8 in 0 3+1+0\n\
            0 -> 1 enter [ 0 1 2 3 ] [ ]\n\
            1 -> 2 enter [ 0 1 2 3 ] [ ]\n\
            2 -> 3 inputs\n\
            3 -> 4 test +x0+x1+0 in -2147483648..2147483647 Sum +x0+0 +x1+0 site 0\n\
            4 -> 5 test +x2+1 in -2147483648..2147483647 Sum +x2+0 +1 site 1\n\
            5 -> 6 x4 = +x0+x1+0\n\
            6 -> 7 x5 = +x2+1\n\
            7 -> 8 keep +x4-x5+0 AtMost\n\
            7 -> 10 keep -x4+x5+1 AtMost\n\
            8 -> 9 x0 = +0\n\
            9 -> 10 clear\n\
            10 -> 11 clear\n\
            11 -> 1 enter [ 0 1 2 3 ] [ ]\n\
            head 1 in - loop - entry 0 back 12\n",
        ),
        // a break and a continue out of a block with a scalar
        (
            ALONE,
            "Word16 x; void frame(void) { Word16 i; for (i = 4; i > 0; i--) { Word16 t = x; if (t) continue; break; } }\n",
            "nodes 23\n\
            0 in - 1+1+0\n\
            2 in 0 3+1+0\n\
            6 in 0 4+1+0\n\
            20 in 0 3+1+0\n\
            0 -> 1 enter [ 0 1 ] [ ]\n\
            1 -> 2 enter [ 0 - - 1 ] [ ]\n\
            2 -> 3 inputs\n\
            3 -> 4 clear x1\n\
            4 -> 5 x1 = +4\n\
            5 -> 6 reset x3\n\
            6 -> 7 keep -x1+1 AtMost\n\
            6 -> 20 keep +x1+0 AtMost\n\
            7 -> 8 x2 = +x0+0\n\
            8 -> 9 keep +x2+0 NotEqual\n\
            8 -> 12 keep +x2+0 Equal\n\
            9 -> 10 clear x2\n\
            10 -> 16 clear\n\
            11 -> 12 clear\n\
            12 -> 13 clear x2\n\
            13 -> 20 clear\n\
            14 -> 15 clear x2\n\
            15 -> 16 clear\n\
            16 -> 17 test +x1-1 in -2147483648..2147483647 Difference +x1+0 +1 site 0\n\
            17 -> 18 test +x1-1 in -32768..32767 Itself +x1-1 site 1\n\
            18 -> 19 x1 = +x1-1\n\
            19 -> 6 turn x3+1\n\
            20 -> 21 clear x1\n\
            21 -> 22 clear\n\
            22 -> 1 enter [ 0 3 ] [ ]\n\
            head 1 in - loop - entry 0 back 24\n\
            head 6 in 0 loop 0 entry 5 back 21\n",
        ),
        // an addressed parameter has its argument in a temporary before it is written
        (
            ALONE,
            "Word16 x; void set(Word16 *p) { *p = 4; } void up(Word16 k) { set(&k); x = k; } void frame(void) { up(2); }\n",
            "nodes 16\n\
            0 in - 1+1+0\n\
            2 in 0 1+1+0\n\
            4 in 1 1+2+1\n\
            5 in 1 1+1+1\n\
            6 in 2 2+1+1\n\
            10 in 1 1+1+1\n\
            11 in 1 1+2+1\n\
            12 in 1 1+1+1\n\
            14 in 0 1+1+0\n\
            0 -> 1 enter [ 0 1 ] [ ]\n\
            1 -> 2 enter [ 0 1 ] [ ]\n\
            2 -> 3 inputs\n\
            3 -> 4 enter [ 0 1 - ] [ - ] x2 = +2\n\
            4 -> 5 a0 of 1 gets +x2+0\n\
            5 -> 6 enter [ 0 - 1 ] [ 0 ] x1 = +0\n\
            6 -> 7 test +x1+0 in 0..0 Itself +x1+0 site 0\n\
            7 -> 8 a0 of 1 gets +4\n\
            8 -> 9 clear\n\
            9 -> 10 leave 5 [ - - ] [ 0 2 ] [ 0 ]\n\
            10 -> 11 x2 = a0\n\
            11 -> 12 x0 = +x2+0\n\
            12 -> 13 clear\n\
            13 -> 14 leave 3 [ - - ] [ 0 1 ] [ ]\n\
            14 -> 15 clear\n\
            15 -> 1 enter [ 0 1 ] [ ]\n\
            head 1 in - loop - entry 0 back 15\n",
        ),
    ];
    for (specification, source, wanted) in rows {
        let drawn = drawing_of(alloc, specification, source, &[])?;
        expect(&rt, drawn.as_slice(), wanted);
    }
    Ok(())
}

/// A sum counter of the first loop for the first variable, which grows by 2.
const GROWS_BY_TWO: Sum = Sum {
    head: 1,
    variable: 0,
    step: 2,
};

#[test]
fn sums(rt: HostRuntime) -> Result<(), Fail> {
    let alloc = rt.alloc();
    let rows = [
        // a sum counter beside the counter of its loop
        (
            ALONE,
            "Word16 x; void frame(void) { Word16 i; for (i = 0; i < 9; i += 3) { x = add(x, 2); } }\n",
            "nodes 19\n\
            0 in - 1+1+0\n\
            2 in 0 2+1+0\n\
            6 in 0 4+1+0\n\
            16 in 0 2+1+0\n\
            0 -> 1 enter [ 0 1 ] [ ]\n\
            1 -> 2 enter [ 0 - 1 ] [ ]\n\
            2 -> 3 inputs\n\
            3 -> 4 clear x1\n\
            4 -> 5 x1 = +0\n\
            5 -> 6 reset x2 x3\n\
            6 -> 7 tie x2 by 3 to x3 by 2\n\
            7 -> 8 keep +x1-8 AtMost\n\
            7 -> 16 keep -x1+9 AtMost\n\
            8 -> 9 tie x2 by 3 to x3 by 2\n\
            9 -> 10 count Operator(Add)\n\
            10 -> 11 x0 = Add +x0+0 +2 +0 flag x4 site 2\n\
            11 -> 12 clear\n\
            12 -> 13 test +x1+3 in -2147483648..2147483647 Sum +x1+0 +3 site 0\n\
            13 -> 14 test +x1+3 in -32768..32767 Itself +x1+3 site 1\n\
            14 -> 15 x1 = +x1+3\n\
            15 -> 6 turn x2+3 x3+2\n\
            16 -> 17 clear x1\n\
            17 -> 18 clear\n\
            18 -> 1 enter [ 0 2 ] [ ]\n\
            head 1 in - loop - entry 0 back 19\n\
            head 6 in 0 loop 0 entry 5 back 16\n",
        ),
    ];
    for (specification, source, wanted) in rows {
        let drawn = drawing_of(alloc, specification, source, &[GROWS_BY_TWO])?;
        expect(&rt, drawn.as_slice(), wanted);
    }
    Ok(())
}
