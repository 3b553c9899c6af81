// Examples of few stages, letter by letter.
use wm_gen::example;

#[test]
fn one_stage(rt: HostRuntime) {
    let found = example(rt.alloc(), 1).expect(&rt, "memory");
    assert_eq!(rt;
        found.spec.items(),
        b"source = \"demo.c\"\n[range]\nx = [-32768, 32767]\n".as_slice()
    );
    assert_eq!(rt;
        found.source.items(),
        b"Word16 x[8];\n\
          static Word16 s1;\n\
          static Word16 stage1(Word16 v) { s1 = add(mult(s1, 16384), shr(v, 1)); return s1; }\n\
          void frame(void) {\n\
          \x20 Word16 i, v;\n\
          \x20 for (i = 0; i < 8; i++) {\n\
          \x20   v = x[i];\n\
          \x20   v = stage1(v);\n\
          \x20 }\n\
          }\n"
            .as_slice()
    );
}

#[test]
fn lines_of_one_kind_stand_together(rt: HostRuntime) {
    let found = example(rt.alloc(), 2).expect(&rt, "memory");
    assert_eq!(rt;
        found.source.items(),
        b"Word16 x[8];\n\
          static Word16 s1;\n\
          static Word16 s2;\n\
          static Word16 stage1(Word16 v) { s1 = add(mult(s1, 16384), shr(v, 1)); return s1; }\n\
          static Word16 stage2(Word16 v) { s2 = add(mult(s2, 16384), shr(v, 1)); return s2; }\n\
          void frame(void) {\n\
          \x20 Word16 i, v;\n\
          \x20 for (i = 0; i < 8; i++) {\n\
          \x20   v = x[i];\n\
          \x20   v = stage1(v);\n\
          \x20   v = stage2(v);\n\
          \x20 }\n\
          }\n"
            .as_slice()
    );
}
