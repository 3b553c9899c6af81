// Runs against values from outside: the table of G.191, boundary values worked out by hand, and digests over a grid of
// boundary arguments that a reference program gave.
ghost use Rattle.std.specs.Prelude.{IsTrue};
ghost use Rattle.wm_ops.specs.Arguments.{FitsAt};

use wm_ops::*;

// Whether the number may be the operator's argument k.
fn fits(op: Op, k: usize, z: i64) -> bool
    ensures fits { IsTrue result → FitsAt op k z }
{
    if k >= arity(op) {
        return true;
    }
    match arg_width(op, k) {
        Width::W16 => -32768 <= z && z <= 32767,
        Width::W32 => -2147483648 <= z && z <= 2147483647,
    }
}

// The operator at these arguments; None where one of them is not of its type.
fn applied(op: Op, a: i64, b: i64, c: i64) -> Option<Outcome> {
    if !fits(op, 0, a) {
        return None;
    }
    if !fits(op, 1, b) {
        return None;
    }
    if !fits(op, 2, c) {
        return None;
    }
    Some(apply(op, &[a, b, c]))
}

fn plain(value: i64) -> Outcome {
    Outcome::Value {
        value,
        saturates: false,
        flag: false,
    }
}

fn flagged(value: i64) -> Outcome {
    Outcome::Value {
        value,
        saturates: true,
        flag: true,
    }
}

fn quiet(value: i64) -> Outcome {
    Outcome::Value {
        value,
        saturates: true,
        flag: false,
    }
}

#[test]
fn boundary_values(rt: HostRuntime) {
    for (op, [a, b, c], want) in [
        (Op::Shr, [1, -15, 0], flagged(32767)),
        (Op::LShrR, [-1, 1, 0], plain(0)),
        (Op::Round, [2147450879, 0, 0], plain(32767)),
        (Op::Round, [2147450880, 0, 0], flagged(32767)),
        (Op::LMsu, [0, -32768, -32768], flagged(-2147483647)),
        (Op::LAbs, [-2147483648, 0, 0], quiet(2147483647)),
        (Op::Add, [32767, 1, 0], flagged(32767)),
        (Op::Add, [-32768, -1, 0], flagged(-32768)),
        (Op::Sub, [-32768, 1, 0], flagged(-32768)),
        (Op::AbsS, [-32768, 0, 0], quiet(32767)),
        (Op::Negate, [-32768, 0, 0], quiet(32767)),
        (Op::Mult, [-32768, -32768, 0], flagged(32767)),
        (Op::Mult, [-1, 1, 0], plain(-1)),
        (Op::MultR, [-32768, -32768, 0], flagged(32767)),
        (Op::MultR, [3, 16384, 0], plain(2)),
        (Op::MultR, [-1, 16384, 0], plain(0)),
        (Op::Shl, [1, 14, 0], plain(16384)),
        (Op::Shl, [1, 15, 0], flagged(32767)),
        (Op::Shl, [-1, 15, 0], plain(-32768)),
        (Op::Shl, [0, 32767, 0], plain(0)),
        (Op::Shl, [-1, -32768, 0], plain(-1)),
        (Op::Shr, [-32768, -1, 0], flagged(-32768)),
        (Op::Shr, [1, -32768, 0], flagged(32767)),
        (Op::ShrR, [3, 1, 0], plain(2)),
        (Op::ShrR, [-3, 1, 0], plain(-1)),
        (Op::ShrR, [32767, 16, 0], plain(0)),
        (Op::ShrR, [1, 0, 0], plain(1)),
        (Op::ShrR, [16384, -1, 0], flagged(32767)),
        (Op::LAdd, [2147483647, 1, 0], flagged(2147483647)),
        (Op::LSub, [-2147483648, 1, 0], flagged(-2147483648)),
        (Op::LNegate, [-2147483648, 0, 0], quiet(2147483647)),
        (Op::LMult, [-32768, -32768, 0], flagged(2147483647)),
        (Op::LMac, [-2147483648, -32768, -32768], flagged(-1)),
        (Op::LMac, [0, 1, 1], plain(2)),
        (Op::LShl, [-1, 31, 0], plain(-2147483648)),
        (Op::LShl, [-1, 32, 0], flagged(-2147483648)),
        (Op::LShr, [-2147483648, 32767, 0], plain(-1)),
        (Op::LShrR, [2147483647, 31, 0], plain(1)),
        (Op::LShrR, [-2147483648, 31, 0], plain(-1)),
        (Op::LShrR, [2147483647, 32767, 0], plain(0)),
        (Op::ExtractH, [-1, 0, 0], plain(-1)),
        (Op::ExtractL, [32768, 0, 0], plain(-32768)),
        (Op::ExtractL, [-32769, 0, 0], plain(32767)),
        (Op::LDepositH, [-32768, 0, 0], plain(-2147483648)),
        (Op::LDepositL, [-1, 0, 0], plain(-1)),
        (Op::MacR, [0, 1, 16384], plain(1)),
        (Op::MsuR, [0, -32768, -32768], flagged(-32768)),
        (Op::MsuR, [2147483647, -1, 1], flagged(32767)),
        (Op::NormS, [0, 0, 0], plain(0)),
        (Op::NormS, [-1, 0, 0], plain(15)),
        (Op::NormS, [1, 0, 0], plain(14)),
        (Op::NormS, [-32768, 0, 0], plain(0)),
        (Op::NormL, [0, 0, 0], plain(0)),
        (Op::NormL, [-1, 0, 0], plain(31)),
        (Op::NormL, [-2, 0, 0], plain(30)),
        (Op::NormL, [1073741824, 0, 0], plain(0)),
        (Op::DivS, [0, 1, 0], plain(0)),
        (Op::DivS, [5, 5, 0], plain(32767)),
        (Op::DivS, [1, 3, 0], plain(10922)),
        (Op::DivS, [3, 1, 0], Outcome::OutOfDomain),
        (Op::DivS, [0, 0, 0], Outcome::OutOfDomain),
        (Op::DivS, [-1, 3, 0], Outcome::OutOfDomain),
        (Op::SMax, [-1, 0, 0], plain(0)),
        (Op::SMin, [-1, 0, 0], plain(-1)),
        (Op::LMax, [-2147483648, 2147483647, 0], plain(2147483647)),
        (Op::LMin, [-2147483648, 2147483647, 0], plain(-2147483648)),
        (Op::LMult0, [-32768, -32768, 0], plain(1073741824)),
        (Op::LMac0, [2147483647, 1, 1], flagged(2147483647)),
        (Op::LMsu0, [-2147483648, 1, 1], flagged(-2147483648)),
        (Op::LMsu0, [0, -32768, -32768], plain(-1073741824)),
    ] {
        assert_eq!(rt; applied(op, a, b, c), Some(want), "{op:?} at {a} {b} {c}");
    }
}

const NONE: [i64; 1] = [0];

const SHORT: [i64; 13] = [
    -32768, -32767, -16384, -33, -16, -1, 0, 1, 15, 16, 31, 16384, 32767,
];

const LONG: [i64; 15] = [
    -2147483648,
    -2147483647,
    -1073741824,
    -65537,
    -32769,
    -1,
    0,
    1,
    32767,
    32768,
    65535,
    1073741824,
    2147450879,
    2147483646,
    2147483647,
];

fn points(op: Op, k: usize) -> &'static [i64] {
    if k >= arity(op) {
        return &NONE;
    }
    match arg_width(op, k) {
        Width::W16 => &SHORT,
        Width::W32 => &LONG,
    }
}

// An outcome as one number.
fn number_of(outcome: Outcome) -> i64 {
    match outcome {
        Outcome::Value {
            value,
            saturates,
            flag,
        } => value
            .wrapping_mul(4)
            .wrapping_add(i64::from(saturates) * 2 + i64::from(flag)),
        Outcome::OutOfDomain => 1099511627776,
    }
}

// A digest of the operator's outcomes over the grid of points.
fn digest(op: Op) -> Option<i64> {
    let mut sum: i64 = 0;
    for a in points(op, 0) {
        for b in points(op, 1) {
            for c in points(op, 2) {
                let number = number_of(applied(op, *a, *b, *c)?);
                sum = sum.wrapping_mul(31).wrapping_add(number);
            }
        }
    }
    Some(sum)
}

#[test]
fn agrees_with_the_reference_over_a_grid(rt: HostRuntime) {
    for (op, want) in [
        (Op::Add, 4921394983141508218),
        (Op::Sub, -7358096221394812352),
        (Op::AbsS, 737279122947175210),
        (Op::Negate, 737279122598942538),
        (Op::Mult, -7779713356153930497),
        (Op::MultR, 2810565903259476991),
        (Op::Shl, 4431180401305704259),
        (Op::Shr, 4774495676315338208),
        (Op::ShrR, -4406933899103091740),
        (Op::LAdd, 6036437677988692970),
        (Op::LSub, 3790216470005392189),
        (Op::LAbs, -1084135226948156814),
        (Op::LNegate, -1084649044957343350),
        (Op::LMult, -1874772891785263033),
        (Op::LMac, -6718746701860268007),
        (Op::LMsu, -7377254311609370341),
        (Op::LShl, -7148071845094325136),
        (Op::LShr, 3633376231683213899),
        (Op::LShrR, 1244535369456118615),
        (Op::ExtractH, 7406289505576695300),
        (Op::ExtractL, 2081413711925565940),
        (Op::LDepositH, -411665779416367104),
        (Op::LDepositL, -2312604690176042060),
        (Op::Round, 7508029171769168092),
        (Op::MacR, -3938278552159101440),
        (Op::MsuR, 56744124801095131),
        (Op::NormS, 4269519153298884),
        (Op::NormL, 4625985411806730068),
        (Op::DivS, 751280375597243212),
        (Op::SMax, -3282475931878550604),
        (Op::SMin, 3307568381240264116),
        (Op::LMax, 5387259796153896948),
        (Op::LMin, 6307684879637997556),
        (Op::LMult0, -1257303337311317596),
        (Op::LMac0, -2071085164957628616),
        (Op::LMsu0, -2260434240607394894),
    ] {
        assert_eq!(rt; digest(op), Some(want), "{op:?}");
    }
}

#[test]
fn names_of_operators(rt: HostRuntime) {
    for (number, (op, text, args, width)) in [
        (Op::Add, b"add".as_slice(), 2, Width::W16),
        (Op::Sub, b"sub".as_slice(), 2, Width::W16),
        (Op::AbsS, b"abs_s".as_slice(), 1, Width::W16),
        (Op::Negate, b"negate".as_slice(), 1, Width::W16),
        (Op::Mult, b"mult".as_slice(), 2, Width::W16),
        (Op::MultR, b"mult_r".as_slice(), 2, Width::W16),
        (Op::Shl, b"shl".as_slice(), 2, Width::W16),
        (Op::Shr, b"shr".as_slice(), 2, Width::W16),
        (Op::ShrR, b"shr_r".as_slice(), 2, Width::W16),
        (Op::LAdd, b"L_add".as_slice(), 2, Width::W32),
        (Op::LSub, b"L_sub".as_slice(), 2, Width::W32),
        (Op::LAbs, b"L_abs".as_slice(), 1, Width::W32),
        (Op::LNegate, b"L_negate".as_slice(), 1, Width::W32),
        (Op::LMult, b"L_mult".as_slice(), 2, Width::W32),
        (Op::LMac, b"L_mac".as_slice(), 3, Width::W32),
        (Op::LMsu, b"L_msu".as_slice(), 3, Width::W32),
        (Op::LShl, b"L_shl".as_slice(), 2, Width::W32),
        (Op::LShr, b"L_shr".as_slice(), 2, Width::W32),
        (Op::LShrR, b"L_shr_r".as_slice(), 2, Width::W32),
        (Op::ExtractH, b"extract_h".as_slice(), 1, Width::W16),
        (Op::ExtractL, b"extract_l".as_slice(), 1, Width::W16),
        (Op::LDepositH, b"L_deposit_h".as_slice(), 1, Width::W32),
        (Op::LDepositL, b"L_deposit_l".as_slice(), 1, Width::W32),
        (Op::Round, b"round".as_slice(), 1, Width::W16),
        (Op::MacR, b"mac_r".as_slice(), 3, Width::W16),
        (Op::MsuR, b"msu_r".as_slice(), 3, Width::W16),
        (Op::NormS, b"norm_s".as_slice(), 1, Width::W16),
        (Op::NormL, b"norm_l".as_slice(), 1, Width::W16),
        (Op::DivS, b"div_s".as_slice(), 2, Width::W16),
        (Op::SMax, b"s_max".as_slice(), 2, Width::W16),
        (Op::SMin, b"s_min".as_slice(), 2, Width::W16),
        (Op::LMax, b"L_max".as_slice(), 2, Width::W32),
        (Op::LMin, b"L_min".as_slice(), 2, Width::W32),
        (Op::LMult0, b"L_mult0".as_slice(), 2, Width::W32),
        (Op::LMac0, b"L_mac0".as_slice(), 3, Width::W32),
        (Op::LMsu0, b"L_msu0".as_slice(), 3, Width::W32),
    ]
    .into_iter()
    .enumerate()
    {
        assert_eq!(rt; op_number(op), number, "{op:?}");
        assert_eq!(rt; name(op), text, "{op:?}");
        assert_eq!(rt; by_name(text), Some(op), "{op:?}");
        assert_eq!(rt; arity(op), args, "{op:?}");
        assert_eq!(rt; result_width(op), width, "{op:?}");
    }
}

#[test]
fn names_of_other_words(rt: HostRuntime) {
    for (word, text, number) in [
        (Counted::Call(CountCall::Move16), b"move16".as_slice(), 36),
        (Counted::Call(CountCall::Move32), b"move32".as_slice(), 37),
        (Counted::Call(CountCall::Logic16), b"logic16".as_slice(), 38),
        (Counted::Call(CountCall::Logic32), b"logic32".as_slice(), 39),
        (Counted::Call(CountCall::Test), b"test".as_slice(), 40),
        (Counted::Word(ControlWord::If), b"IF".as_slice(), 41),
        (Counted::Word(ControlWord::Else), b"ELSE".as_slice(), 42),
        (Counted::Word(ControlWord::For), b"FOR".as_slice(), 43),
        (Counted::Word(ControlWord::While), b"WHILE".as_slice(), 44),
        (Counted::Word(ControlWord::Do), b"DO".as_slice(), 45),
        (Counted::Word(ControlWord::Break), b"BREAK".as_slice(), 46),
        (
            Counted::Word(ControlWord::Continue),
            b"CONTINUE".as_slice(),
            47,
        ),
    ] {
        assert_eq!(rt; counted_by_name(text), Some(word), "{word:?}");
        assert_eq!(rt; counted_name(word), text, "{word:?}");
        assert_eq!(rt; counted_at(number), Some(word), "{word:?}");
        assert_eq!(rt; by_name(text), None, "{word:?}");
    }
    assert_eq!(rt; by_name(b"round_fx"), Some(Op::Round));
    assert_eq!(rt;
        counted_by_name(b"round_fx"),
        Some(Counted::Operator(Op::Round))
    );
    assert_eq!(rt; counted_at(COUNTED_WORDS), None);
    for text in [
        b"".as_slice(),
        b"ad".as_slice(),
        b"addd".as_slice(),
        b"l_add".as_slice(),
        b"if".as_slice(),
    ] {
        assert_eq!(rt; counted_by_name(text), None);
    }
}

#[test]
fn a_table_and_a_list(rt: HostRuntime) -> Result<(), std::test::Fail> {
    let mut weights: OpTable<OPERATORS> = OpTable::filled(1);
    weights.set(Op::DivS, 18);
    assert_eq!(rt; weights.get(Op::DivS), 18);
    assert_eq!(rt; weights.get(Op::NormL), 1);
    let mut list: List<u32> = List::new(rt.alloc());
    list.push(7)?;
    list.push(9)?;
    assert_eq!(rt; list.items(), [7, 9].as_slice());
    Ok(())
}
