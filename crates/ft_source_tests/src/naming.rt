//! Texts refused for their names and limits, and the cells of arrays.
use ft_scope::{Slot, resolve};
use ft_syntax::{Expr, SourceError, Stmt, parse};
use std::alloc::Global;
use std::test::Fail;

/// Appends declarations of this many arrays of 1,024 cells to a text.
fn declare_arrays(text: &mut String, count: usize) -> Result<(), Fail> {
    for k in 0..count {
        write!(text, "cell a{k}[1024]=1;")?;
    }
    Ok(())
}

/// The refusal of a text, if it is refused.
fn refusal(alloc: Global, text: &[u8]) -> Option<SourceError> {
    match parse(alloc, text) {
        Ok(tree) => match resolve(alloc, tree) {
            Ok(_program) => None,
            Err(error) => Some(error),
        },
        Err(error) => Some(error),
    }
}

#[test]
fn refuses_misused_names_and_wrong_lengths_in_order(rt: HostRuntime) {
    let alloc = rt.alloc();
    for (text, refused) in [
        (b"cell a[1024] = 1; a[a[0]] = a[7];".as_slice(), None),
        (b"cell a[0] = 1;", Some(SourceError::Length { at: 7 })),
        (b"cell a[1025] = 1;", Some(SourceError::Length { at: 7 })),
        (
            b"cell a[1000000000] = 1;",
            Some(SourceError::Length { at: 7 }),
        ),
        (
            b"cell a[18446744073709551615] = 1; cell b[18446744073709551615] = 1;",
            Some(SourceError::Length { at: 7 }),
        ),
        (
            b"cell a[2] = 1; a = 3;",
            Some(SourceError::Array { at: 15 }),
        ),
        (
            b"cell a[2] = 1; a[a] = 3;",
            Some(SourceError::Array { at: 17 }),
        ),
        (b"var x; x = x[1];", Some(SourceError::Array { at: 11 })),
        (
            b"cell c = 1; c[1] = 2;",
            Some(SourceError::Array { at: 12 }),
        ),
        (
            b"cell a[0] = 1; a = 3;",
            Some(SourceError::Array { at: 15 }),
        ),
        (
            b"cell a[0] = 1; a = 3; y = 1;",
            Some(SourceError::Unknown { at: 22 }),
        ),
        (
            b"cell a[2]=0; a = 1; y = 1;",
            Some(SourceError::Unknown { at: 20 }),
        ),
        (
            b"cell a[0] = 1; var a; a = 3;",
            Some(SourceError::Twice { at: 19 }),
        ),
        (
            b"cell a[1024] = 1; cell b = 0; cell c[1024] = 2;",
            Some(SourceError::Cells { count: 2049 }),
        ),
    ] {
        assert_eq!(rt; refusal(alloc, text), refused);
    }
}

#[test]
fn counts_cells_before_it_makes_them(rt: HostRuntime) -> Result<(), Fail> {
    let alloc = rt.alloc();
    let mut text = String::new(alloc);
    declare_arrays(&mut text, 50_000)?;
    assert_eq!(rt;
        refusal(alloc, text.as_bytes()),
        Some(SourceError::Cells { count: 51_200_000 })
    );
    Ok(())
}

#[test]
fn makes_the_cells_of_arrays_at_their_place(rt: HostRuntime) -> Result<(), Fail> {
    let alloc = rt.alloc();
    let text = b"cell p = 5; cell a[3] = 7; cell q = 6; q = a[p];";
    let program = resolve(alloc, parse(alloc, text)?)?;
    let wanted = [
        (b"p".as_slice(), None, 5),
        (b"a", Some(0), 7),
        (b"a", Some(1), 7),
        (b"a", Some(2), 7),
        (b"q", None, 6),
    ];
    assert_eq!(rt; program.inits.len(), wanted.len());
    for (k, (name, place, init)) in wanted.into_iter().enumerate() {
        assert_eq!(rt; program.names.get(k).copied(), Some(name));
        assert_eq!(rt; program.places.get(k).copied(), Some(place));
        assert_eq!(rt; program.inits.get(k).copied(), Some(init));
    }
    let Some(Stmt::Assign { to, value }) = program.body.first() else {
        return Ok(());
    };
    assert_eq!(rt; *to, Slot::Cell(4));
    let Expr::At { name, index: _ } = value else {
        return Ok(());
    };
    assert_eq!(rt;
        *name,
        Slot::Run {
            first: 1,
            length: 3
        }
    );
    Ok(())
}

#[test]
fn names_the_cells_of_arrays_by_their_place(rt: HostRuntime) -> Result<(), Fail> {
    let alloc = rt.alloc();
    let text = b"cell p = 5; cell a[11] = 7; cell q = 6;";
    let names = resolve(alloc, parse(alloc, text)?)?.cell_names(alloc)?;
    assert_eq!(rt; names.len(), 13);
    for (at, name) in [
        (0, b"p".as_slice()),
        (1, b"a[0]"),
        (11, b"a[10]"),
        (12, b"q"),
    ] {
        assert_eq!(rt; names.get(at).map(|n| n.as_slice()), Some(name));
    }
    Ok(())
}
