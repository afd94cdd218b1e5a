use crate::{Kind, LexError, Lexer, Token};
use std::test::Fail;

#[test]
fn cuts_texts_into_tokens_that_outlive_the_lexer(rt: HostRuntime) -> Result<(), Fail> {
    let alloc = rt.alloc();
    let text = b"cell c1 = 7; # a comment\n_x===12ab while(if)else{var}+-*<celling[]&|^<<<>>=";
    let mut told: Vec<Token<'_>> = Vec::new(alloc);
    let mut lexer = Lexer::new(text);
    for _ in 0..100 {
        if let Some(Ok(token)) = lexer.next() {
            told.push(token)?;
        }
    }
    assert!(rt; lexer.next().is_none());
    drop(lexer);
    let wanted = [
        (Kind::Cell, b"cell".as_slice(), 0),
        (Kind::Name, b"c1".as_slice(), 5),
        (Kind::Assign, b"=".as_slice(), 8),
        (Kind::Number, b"7".as_slice(), 10),
        (Kind::Semi, b";".as_slice(), 11),
        (Kind::Name, b"_x".as_slice(), 25),
        (Kind::EqEq, b"==".as_slice(), 27),
        (Kind::Assign, b"=".as_slice(), 29),
        (Kind::Number, b"12".as_slice(), 30),
        (Kind::Name, b"ab".as_slice(), 32),
        (Kind::While, b"while".as_slice(), 35),
        (Kind::LParen, b"(".as_slice(), 40),
        (Kind::If, b"if".as_slice(), 41),
        (Kind::RParen, b")".as_slice(), 43),
        (Kind::Else, b"else".as_slice(), 44),
        (Kind::LBrace, b"{".as_slice(), 48),
        (Kind::Var, b"var".as_slice(), 49),
        (Kind::RBrace, b"}".as_slice(), 52),
        (Kind::Plus, b"+".as_slice(), 53),
        (Kind::Minus, b"-".as_slice(), 54),
        (Kind::Star, b"*".as_slice(), 55),
        (Kind::Less, b"<".as_slice(), 56),
        (Kind::Name, b"celling".as_slice(), 57),
        (Kind::LBracket, b"[".as_slice(), 64),
        (Kind::RBracket, b"]".as_slice(), 65),
        (Kind::And, b"&".as_slice(), 66),
        (Kind::Or, b"|".as_slice(), 67),
        (Kind::Xor, b"^".as_slice(), 68),
        (Kind::Shl, b"<<".as_slice(), 69),
        (Kind::Less, b"<".as_slice(), 71),
        (Kind::Shr, b">>".as_slice(), 72),
        (Kind::Assign, b"=".as_slice(), 74),
    ];
    assert_eq!(rt; told.len(), wanted.len());
    for (token, (kind, text, at)) in told.iter().zip(wanted) {
        assert_eq!(rt; token.kind, kind, "at {at}");
        assert_eq!(rt; token.text, text, "at {at}");
        assert_eq!(rt; token.at, at);
    }
    Ok(())
}

#[test]
fn tells_the_first_error_and_then_nothing(rt: HostRuntime) {
    for (text, error) in [
        (b"x = 1 % 2;".as_slice(), LexError::Byte { at: 6 }),
        (b"# %\n\r\t%", LexError::Byte { at: 6 }),
        (b"1 >", LexError::Byte { at: 2 }),
        (b">> > >", LexError::Byte { at: 3 }),
        (b">>>", LexError::Byte { at: 2 }),
        (b"18446744073709551616 %", LexError::Number { at: 0 }),
        (b"018446744073709551616", LexError::Number { at: 0 }),
        (b"18446744073709551615 \x80", LexError::Byte { at: 21 }),
        (
            b"a2345678901234567890123456789012",
            LexError::Byte { at: 32 },
        ),
        (
            b"a23456789012345678901234567890123",
            LexError::Byte { at: 32 },
        ),
    ] {
        let mut lexer = Lexer::new(text);
        let mut first = None;
        for _ in 0..8 {
            if let Some(Err(error)) = lexer.next() {
                first = Some(error);
                break;
            }
        }
        if text.len() == 32 {
            assert_eq!(rt; first, None);
        } else {
            assert_eq!(rt; first, Some(error));
        }
        assert!(rt; lexer.next().is_none());
        assert!(rt; lexer.next().is_none());
    }
}
