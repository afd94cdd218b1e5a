//! Texts that are refused at a place, and texts that parse.
use ft_isa::Op;
use ft_syntax::{Expr, SourceError, Stmt, parse};
use std::alloc::Global;
use std::test::Fail;

/// The refusal of a text, if it is refused.
fn refusal(alloc: Global, text: &[u8]) -> Option<SourceError> {
    match parse(alloc, text) {
        Ok(_tree) => None,
        Err(error) => Some(error),
    }
}

/// The refusal of a text for a syntax error at this byte.
fn syntax(at: usize) -> Option<SourceError> {
    Some(SourceError::Syntax { at })
}

#[test]
fn refuses_texts_where_the_grammar_stops(rt: HostRuntime) {
    let alloc = rt.alloc();
    for (text, refused) in [
        (b"".as_slice(), None),
        (b"cell c = 18446744073709551615;", None),
        (
            b"cell c = 18446744073709551616;",
            Some(SourceError::Number { at: 9 }),
        ),
        (b"x = 1 % 2;", Some(SourceError::Byte { at: 6 })),
        (b"x = 1 2; %", Some(SourceError::Byte { at: 9 })),
        (b"cell out = 0; out = 7; # % ", None),
        (b"cell out = 0; out = 7", syntax(21)),
        (b"cell out = 0 out = 7;", syntax(13)),
        (b"var x; x = 1; var y;", syntax(14)),
        (b"cell while = 1;", syntax(5)),
        (b"cell c = x;", syntax(9)),
        (b"x == 1;", syntax(2)),
        (b"x = 1 +;", syntax(7)),
        (b"x = (1;", syntax(6)),
        (b"while 1 { }", syntax(6)),
        (b"while (1) { x = 1;", syntax(18)),
        (b"if (a == b) { x = 1; } else { x = 2; }", None),
        (b"if (1) { } else else", syntax(16)),
        (b"if (1) { } ;", syntax(11)),
        (b"else { }", syntax(0)),
        (
            b"cell a[3] = 0; a[1] = a[a[2]] & 3 | 4 ^ 5 << 6 >> 7;",
            None,
        ),
        (b"x = 3[1];", syntax(5)),
        (b"x = (a)[1];", syntax(7)),
        (b"x = a[1][2];", syntax(8)),
        (b"a[1][2] = 3;", syntax(4)),
        (b"a[] = 3;", syntax(2)),
        (b"a[1 = 3;", syntax(4)),
        (b"a[1] == 3;", syntax(5)),
        (b"cell a[x] = 1;", syntax(7)),
        (b"cell a[1][1] = 1;", syntax(9)),
        (b"cell a[1] = 1", syntax(13)),
        (b"var a[1];", syntax(5)),
        (b"x = y > 2;", Some(SourceError::Byte { at: 6 })),
        (b"x = y >", Some(SourceError::Byte { at: 6 })),
        (b"}", syntax(0)),
    ] {
        assert_eq!(rt; refusal(alloc, text), refused);
    }
}

#[test]
fn refuses_what_is_too_deep(rt: HostRuntime) -> Result<(), Fail> {
    let alloc = rt.alloc();
    let mut text = Vec::from_slice(alloc, b"var x; x = ")?;
    for _ in 0..100 {
        text.push(b'(')?;
    }
    assert_eq!(rt;
        refusal(alloc, &text),
        Some(SourceError::Syntax { at: 111 })
    );
    text.push(b'(')?;
    assert_eq!(rt; refusal(alloc, &text), Some(SourceError::Deep { at: 111 }));
    text.pop();
    text.extend_from_slice(b"1(")?;
    assert_eq!(rt;
        refusal(alloc, &text),
        Some(SourceError::Syntax { at: 112 })
    );
    let mut text = Vec::from_slice(alloc, b"x = 1")?;
    for _ in 0..200 {
        text.extend_from_slice(b"+1")?;
    }
    text.push(b';')?;
    assert_eq!(rt; refusal(alloc, &text), None);
    text.pop();
    text.extend_from_slice(b"*2;")?;
    assert_eq!(rt; refusal(alloc, &text), Some(SourceError::Deep { at: 405 }));
    Ok(())
}

#[test]
fn counts_brackets_and_operators_of_indices(rt: HostRuntime) -> Result<(), Fail> {
    let alloc = rt.alloc();
    let mut text = Vec::from_slice(alloc, b"x = ")?;
    for _ in 0..100 {
        text.extend_from_slice(b"a[")?;
    }
    assert_eq!(rt; refusal(alloc, &text), syntax(204));
    text.extend_from_slice(b"a[")?;
    assert_eq!(rt; refusal(alloc, &text), Some(SourceError::Deep { at: 205 }));
    let mut text = Vec::from_slice(alloc, b"a[1")?;
    for _ in 0..200 {
        text.extend_from_slice(b"|1")?;
    }
    text.extend_from_slice(b"]=1;x=1&1")?;
    assert_eq!(rt; refusal(alloc, &text), syntax(412));
    text.truncate(406);
    text.extend_from_slice(b">>2;")?;
    assert_eq!(rt; refusal(alloc, &text), Some(SourceError::Deep { at: 406 }));
    Ok(())
}

#[test]
fn ranks_bits_below_shifts_and_above_less(rt: HostRuntime) -> Result<(), Fail> {
    let alloc = rt.alloc();
    let tree = parse(alloc, b"a[0] = 1 < 2 ^ 3 << 4 + 5;")?;
    let Some(
        Stmt::AssignAt {
            to: _,
            index: _,
            value,
        },
    ) = tree.body.first()
    else {
        return Ok(());
    };
    let Expr::Op { op, a: _, b } = value else {
        return Ok(());
    };
    assert_eq!(rt; *op, Op::Ltu);
    let Expr::Op { op, a: _, b } = &**b else {
        return Ok(());
    };
    assert_eq!(rt; *op, Op::Xor);
    let Expr::Op { op, a: _, b } = &**b else {
        return Ok(());
    };
    assert_eq!(rt; *op, Op::Shl);
    assert!(rt; matches!(&**b, Expr::Op { op: Op::Add, .. }));
    Ok(())
}

#[test]
fn groups_operators_to_the_left_by_their_rank(rt: HostRuntime) -> Result<(), Fail> {
    let alloc = rt.alloc();
    let tree = parse(alloc, b"x = 1 - 2 - y * 3;")?;
    assert_eq!(rt; tree.body.len(), 1);
    let Some(Stmt::Assign { to, value }) = tree.body.first() else {
        return Ok(());
    };
    assert_eq!(rt; to.text, b"x".as_slice());
    let Expr::Op { op, a, b } = value else {
        return Ok(());
    };
    assert_eq!(rt; *op, Op::Sub);
    assert!(rt; matches!(&**a, Expr::Op { op: Op::Sub, .. }));
    assert!(rt; matches!(&**b, Expr::Op { op: Op::Mul, .. }));
    Ok(())
}

#[test]
fn parses_a_text_at_the_limits(rt: HostRuntime) -> Result<(), Fail> {
    let alloc = rt.alloc();
    let mut unit: Vec<u8> = Vec::new(alloc);
    for _ in 0..50 {
        unit.extend_from_slice(b"while(x<1){")?;
    }
    unit.extend_from_slice(b"x=")?;
    for _ in 0..50 {
        unit.extend_from_slice(b"(1+")?;
    }
    for _ in 0..150 {
        unit.extend_from_slice(b"x*")?;
    }
    unit.push(b'x')?;
    for _ in 0..50 {
        unit.push(b')')?;
    }
    unit.push(b';')?;
    for _ in 0..50 {
        unit.push(b'}')?;
    }
    let mut text: Vec<u8> = Vec::new(alloc);
    for _ in 0..949 {
        text.extend_from_slice(&unit)?;
    }
    for _ in 0..1_048_576 {
        if text.len() < 1_048_576 {
            text.push(b' ')?;
        }
    }
    assert_eq!(rt; text.len(), 1_048_576);
    assert_eq!(rt; parse(alloc, &text)?.body.len(), 949);
    text.push(b' ')?;
    assert_eq!(rt; refusal(alloc, &text), Some(SourceError::TooLong));
    Ok(())
}
