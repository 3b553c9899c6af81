// The programs that the rows are about.

/// One source and no input.
pub(crate) const ALONE: &str = "source = \"a.c\"\n";

/// A sum that never saturates within its range.
pub(crate) const NEARLY_FULL: &str = "source = \"a.c\"\n[range]\nx = [0, 32766]\n";

/// The same with the number at which it does.
pub(crate) const NOT_NEGATIVE: &str = "source = \"a.c\"\n[range]\nx = [0, 32767]\n";

pub(crate) const FULL: &str = "source = \"a.c\"\n[range]\nx = [-32768, 32767]\n";

pub(crate) const ONE_MORE: &str = "Word16 x, y;\nvoid frame(void) { y = add(x, 1); }\n";

pub(crate) const QUOTIENT: &str = "Word16 a, b, q;\nvoid frame(void) { q = div_s(a, b); }\n";

pub(crate) const QUOTIENT_OPEN: &str = "source = \"a.c\"\n[range]\na = [0, 11]\nb = [10, 20]\n";

/// Halves each cell of an array in a loop.
pub(crate) const HALVES: &str = "Word16 x[40], y[40];\nvoid frame(void) {\n  Word16 i;\n  \
    for (i = 0; i < 40; i++) y[i] = mult(x[i], 16384);\n}\n";

/// Counts to 99 and begins anew.
pub(crate) const COUNTER: &str = "Word16 c;\nvoid frame(void) {\n  \
    if (sub(c, 99) < 0) c = add(c, 1);\n  else c = 0;\n}\n";

/// Its specification, with a certificate.
pub(crate) const COUNTER_FILES: &str = "source = \"a.c\"\ncertificate = \"c.txt\"\n";

/// The energy of forty samples.
pub(crate) const ENERGY: &str =
    "Word16 x[40];\nWord32 e;\nvoid frame(void) {\n  Word32 s;\n  Word16 i;\n  \
    s = 0;\n  for (i = 0; i < 40; i++) s = L_mac(s, x[i], x[i]);\n  e = s;\n}\n";

/// Shifts up until a bound is reached, which 0 never does.
pub(crate) const NORMALIZES: &str =
    "Word16 x;\nvoid frame(void) {\n  while (sub(x, 16384) < 0) x = shl(x, 1);\n}\n";

pub(crate) const NORMALIZES_STEPS: &str = "source = \"a.c\"\nsteps = 10\n[range]\nx = [0, 16000]\n";

/// A cell that was never set.
pub(crate) const UNSET: &str = "Word16 x, y;\nvoid frame(void) { Word16 t[4]; y = t[0]; }\n";
