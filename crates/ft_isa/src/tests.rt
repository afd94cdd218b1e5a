use crate::{Form, Op, Reg, Site, Strike, Wild, WildError, apply, read_strike, read_wild};
use std::test::Fail;

/// The word with only the highest bit set.
const TOP: u64 = 0x8000_0000_0000_0000;

/// Operations on two words, and their results.
const RESULTS: [(Op, u64, u64, u64); 35] = [
    (Op::Add, u64::MAX, 2, 1),
    (Op::Sub, 1, 2, u64::MAX),
    (Op::Mul, TOP, 3, TOP),
    (Op::Ltu, 1, TOP, 1),
    (Op::Ltu, TOP, TOP, 0),
    (Op::Eq, TOP, TOP, 1),
    (Op::Eq, 0, TOP, 0),
    (
        Op::And,
        0x8000_0000_0000_000c,
        0x8000_0000_0000_000a,
        0x8000_0000_0000_0008,
    ),
    (Op::And, u64::MAX, TOP, TOP),
    (Op::And, TOP, 1, 0),
    (Op::Or, 0x8000_0000_0000_000c, 0xa, 0x8000_0000_0000_000e),
    (Op::Or, TOP, 1, 0x8000_0000_0000_0001),
    (Op::Or, 0, 0, 0),
    (Op::Xor, 0x8000_0000_0000_000c, 0xa, 0x8000_0000_0000_0006),
    (Op::Xor, u64::MAX, TOP, 0x7fff_ffff_ffff_ffff),
    (Op::Xor, TOP, TOP, 0),
    (Op::Shl, 0x8000_0000_0000_0001, 0, 0x8000_0000_0000_0001),
    (Op::Shl, 0x8000_0000_0000_0001, 1, 2),
    (Op::Shl, 5, 2, 20),
    (Op::Shl, 3, 63, TOP),
    (Op::Shl, 2, 63, 0),
    (Op::Shl, u64::MAX, 64, 0),
    (Op::Shl, u64::MAX, 65, 0),
    (Op::Shl, 1, u64::MAX, 0),
    (Op::Shl, 1, TOP, 0),
    (Op::Shr, 0x8000_0000_0000_0001, 0, 0x8000_0000_0000_0001),
    (Op::Shr, 0x8000_0000_0000_0001, 1, 0x4000_0000_0000_0000),
    (Op::Shr, 23, 2, 5),
    (Op::Shr, TOP, 63, 1),
    (Op::Shr, 0x7fff_ffff_ffff_ffff, 63, 0),
    (Op::Shr, u64::MAX, 64, 0),
    (Op::Shr, u64::MAX, 65, 0),
    (Op::Shr, u64::MAX, u64::MAX, 0),
    (Op::Shr, u64::MAX, TOP, 0),
    (Op::Shr, 0, 0, 0),
];

#[test]
fn operates_on_two_words(rt: HostRuntime) {
    for (op, a, b, given) in RESULTS {
        assert_eq!(rt; apply(op, a, b), given, "{op:?} of {a} and {b}");
    }
}

#[test]
fn reads_the_texts_of_strikes(rt: HostRuntime) {
    let r1 = Reg::new(1).expect(&rt, "below 64");
    let r63 = Reg::new(63).expect(&rt, "below 64");
    for (text, step, site, value) in [
        (b"4:r1:6".as_slice(), 4, Site::R(r1), 6),
        (b"4:r63:6".as_slice(), 4, Site::R(r63), 6),
        (b"0:pcg:3".as_slice(), 0, Site::PcG, 3),
        (b"0:pcb:3".as_slice(), 0, Site::PcB, 3),
        (b"10:qv0:6".as_slice(), 10, Site::QVal(0), 6),
        (b"13:d:9".as_slice(), 13, Site::D, 9),
        (
            b"18446744073709551615:qa7:18446744073709551615".as_slice(),
            u64::MAX,
            Site::QAddr(7),
            u64::MAX,
        ),
    ] {
        assert_eq!(rt; read_strike(text), Ok(Strike { step, site, value }));
    }
}

#[test]
fn tells_where_a_text_is_no_strike(rt: HostRuntime) {
    for (text, at) in [
        (b"".as_slice(), 0),
        (b"04:r1:1".as_slice(), 1),
        (b"4".as_slice(), 1),
        (b"4:r64:1".as_slice(), 4),
        (b"4:r06:1".as_slice(), 4),
        (b"4:qa8:0".as_slice(), 4),
        (b"4:qb0:0".as_slice(), 3),
        (b"4:r1".as_slice(), 4),
        (b"4:r1:".as_slice(), 5),
        (b"4:r1:6x".as_slice(), 6),
        (b"4:r1:18446744073709551616".as_slice(), 24),
    ] {
        assert_eq!(rt; read_strike(text), Err(Form { at }), "at {at}");
    }
}

#[test]
fn reads_the_texts_of_wild_answers(rt: HostRuntime) -> Result<(), Fail> {
    let alloc = rt.alloc();
    assert_eq!(rt;
        read_wild(alloc, b"99")?.as_slice(),
        [Wild::Word(99)].as_slice()
    );
    assert_eq!(rt;
        read_wild(alloc, b"stop")?.as_slice(),
        [Wild::Stop].as_slice()
    );
    assert_eq!(rt;
        read_wild(alloc, b"1,stop,0")?.as_slice(),
        [Wild::Word(1), Wild::Stop, Wild::Word(0)].as_slice()
    );
    Ok(())
}

#[test]
fn tells_where_a_text_is_no_wild_answers(rt: HostRuntime) {
    for (text, at) in [
        (b"".as_slice(), 0),
        (b"1,,2".as_slice(), 2),
        (b"1,".as_slice(), 2),
        (b"stop,".as_slice(), 5),
        (b"stops".as_slice(), 4),
        (b"1,sto".as_slice(), 5),
        (b"00".as_slice(), 1),
        (b"18446744073709551616".as_slice(), 19),
    ] {
        assert_eq!(rt;
            read_wild(rt.alloc(), text).err(),
            Some(WildError::Form { at }),
            "at {at}"
        );
    }
}

#[test]
fn takes_4096_wild_answers_and_no_more(rt: HostRuntime) -> Result<(), Fail> {
    let alloc = rt.alloc();
    let mut text = Vec::from_slice(alloc, b"0")?;
    for _ in 1..4_096 {
        text.extend_from_slice(b",0")?;
    }
    assert_eq!(rt; read_wild(alloc, &text)?.len(), 4_096);
    text.extend_from_slice(b",0")?;
    assert_eq!(rt;
        read_wild(alloc, &text).err(),
        Some(WildError::Form { at: 8_191 })
    );
    Ok(())
}
