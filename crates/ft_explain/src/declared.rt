//! Reads declarations and constant indices from a source.
use ft_isa::{NoMemory, read_number};
use ft_lexer::{Kind, Lexer, Token};
use std::alloc::Global;

/// A number in a source, or `0 - N`: its place, its length in bytes, and its value.
#[derive(Clone, Copy)]
pub(crate) struct Number {
    /// Its byte offset.
    pub at: usize,
    /// How many bytes it has.
    pub length: usize,
    /// Its value.
    pub value: u64,
}

/// A name with a constant index.
#[derive(Clone, Copy)]
pub(crate) struct Index<'s> {
    /// The name.
    pub name: &'s [u8],
    /// The index.
    pub number: Number,
}

/// A declared cell or array.
#[derive(Clone, Copy)]
pub(crate) struct Declared<'s> {
    /// Its name.
    pub name: &'s [u8],
    /// How many cells it has, if it is an array.
    pub length: Option<u64>,
}

/// What has been seen so far of a declaration or of a name with a constant index.
#[derive(Clone, Copy)]
pub(crate) struct Seen<'s> {
    is_declared: bool,
    name: Option<&'s [u8]>,
    is_open: bool,
    number: Option<Number>,
    /// Whether `-` follows the number, which is 0.
    is_negated: bool,
}

/// Nothing has been seen.
pub(crate) const NOTHING: Seen<'static> = Seen {
    is_declared: false,
    name: None,
    is_open: false,
    number: None,
    is_negated: false,
};

/// The number in a token.
fn number_of(token: Token<'_>) -> Option<Number> {
    Some(Number {
        at: token.at,
        length: token.text.len(),
        value: read_number(token.text)?,
    })
}

impl<'s> Seen<'s> {
    /// Whether the number has been read, and is 0.
    fn is_zero(self) -> bool {
        match self.number {
            Some(number) => number.value == 0 && !self.is_negated,
            None => false,
        }
    }

    /// The number `0 - N`, of which `0 -` has been read, and N is this token.
    fn below_zero(self, token: Token<'s>) -> Option<Number> {
        let zero = self.number?;
        let end = token.at.saturating_add(token.text.len());
        Some(Number {
            at: zero.at,
            length: end.saturating_sub(zero.at),
            value: 0_u64.wrapping_sub(read_number(token.text)?),
        })
    }

    /// What has been seen after one more token.
    pub(crate) fn then(self, token: Token<'s>) -> Seen<'s> {
        match token.kind {
            Kind::Cell => Seen {
                is_declared: true,
                ..NOTHING
            },
            Kind::Name => Seen {
                name: Some(token.text),
                is_open: false,
                number: None,
                is_negated: false,
                ..self
            },
            Kind::LBracket if !self.is_open => Seen {
                is_open: true,
                ..self
            },
            Kind::Number if self.is_open && self.number.is_none() => Seen {
                number: number_of(token),
                ..self
            },
            Kind::Minus if self.is_zero() => Seen {
                is_negated: true,
                ..self
            },
            Kind::Number if self.is_negated => Seen {
                number: self.below_zero(token),
                is_negated: false,
                ..self
            },
            _ => NOTHING,
        }
    }

    /// The name with its number, if this token closes the brackets around the number.
    fn closed_by(self, token: Token<'_>) -> Option<Index<'s>> {
        if token.kind != Kind::RBracket || self.is_negated {
            return None;
        }
        Some(Index {
            name: self.name?,
            number: self.number?,
        })
    }

    /// The index that ends with this token, if one does outside declarations.
    pub(crate) fn index_before(self, token: Token<'_>) -> Option<Index<'s>> {
        if self.is_declared {
            return None;
        }
        self.closed_by(token)
    }

    /// The cell whose name and length end with this token, or the array's length before it.
    fn declared_before(self, token: Token<'_>) -> Option<Declared<'s>> {
        if !self.is_declared {
            return None;
        }
        if let Some(array) = self.closed_by(token) {
            return Some(Declared {
                name: array.name,
                length: Some(array.number.value),
            });
        }
        if token.kind != Kind::Assign || self.is_open {
            return None;
        }
        Some(Declared {
            name: self.name?,
            length: None,
        })
    }
}

/// Adds the cells and arrays that a source declares.
fn add_declared<'s>(source: &'s [u8], declared: &mut Vec<Declared<'s>>) -> Result<(), NoMemory> {
    let mut lexer = Lexer::new(source);
    let mut seen = NOTHING;
    for _ in 0..source.len() {
        let Some(Ok(token)) = lexer.next() else {
            break;
        };
        if let Some(cell) = seen.declared_before(token) {
            declared.push(cell).map_err(|_| NoMemory)?;
        }
        seen = seen.then(token);
    }
    Ok(())
}

/// The cells and arrays that a source declares, in its order; an accepted source has at most 1,024.
pub(crate) fn declared_in(alloc: Global, source: &[u8]) -> Result<Vec<Declared<'_>>, NoMemory> {
    let mut declared = Vec::new(alloc);
    add_declared(source, &mut declared)?;
    Ok(declared)
}

/// The declaration of a name; `None` if it is not that of a cell or an array.
pub(crate) fn declaration_of<'s>(declared: &[Declared<'s>], name: &[u8]) -> Option<Declared<'s>> {
    for cell in declared {
        if cell.name == name {
            return Some(*cell);
        }
    }
    None
}
