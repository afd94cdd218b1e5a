//! Finds comparisons in a source that rarely mean what they seem to.
use ft_isa::{NoMemory, read_number};
use ft_lexer::{Kind, Lexer, Token};
use ft_mistakes::{Page, Place};

/// What to say about the second `<` in `a < b < c`.
const CHAINED: &str =
    "this compares the result of the `<` before it, which is 0 or 1; write `(a < b) & (b < c)` to test both";

/// What to say about the second `==` in `a == b == c`.
const EQUAL: &str =
    "this compares the result of the `==` before it, which is 0 or 1; write `(a == b) & (b == c)` to test both";

/// What to say about the second comparison in `a == b & c == d`.
const MIXED: &str =
    "`&`, `|` and `^` bind more tightly than `<` and `==`: write `(a < b) & (c == d)` to test both";

/// What to say about `a < 0`.
const NEVER: &str =
    "this comparison is always 0: words have no sign, so none is below 0; compare before you subtract";

/// What has been read of an expression.
#[derive(Clone, Copy)]
struct Read<'s> {
    /// The last token.
    last: Option<Token<'s>>,
    /// The token before it.
    before: Option<Token<'s>>,
    /// How many brackets are open.
    depth: usize,
    /// The number of open brackets at the last comparison, and whether it is `<` or `==`, unless a bracket around it was
    /// closed.
    compared: Option<(usize, Kind)>,
    /// Whether `&`, `|` or `^` follows the last comparison, outside brackets that were opened after it.
    is_mixed: bool,
}

/// Nothing has been read.
const NOTHING: Read<'static> = Read {
    last: None,
    before: None,
    depth: 0,
    compared: None,
    is_mixed: false,
};

/// Whether a token of this kind may follow the number of `a < 0`, if that is the whole right side.
fn ends_side(kind: Kind) -> bool {
    matches!(
        kind,
        Kind::RParen | Kind::RBracket | Kind::Semi | Kind::EqEq | Kind::Less
    )
}

impl<'s> Read<'s> {
    /// The last comparison, if it has as many open brackets as there are now.
    fn compared_here(self) -> Option<Kind> {
        match self.compared {
            Some((depth, kind)) if depth == self.depth => Some(kind),
            _ => None,
        }
    }

    /// The last comparison after a token of this kind.
    fn compared_after(self, kind: Kind) -> Option<(usize, Kind)> {
        match kind {
            Kind::Less | Kind::EqEq => Some((self.depth, kind)),
            Kind::RParen | Kind::RBracket if self.compared_here().is_some() => None,
            Kind::Semi | Kind::LBrace | Kind::RBrace | Kind::Assign => None,
            _ => self.compared,
        }
    }

    /// Whether `&`, `|` or `^` follows the last comparison, after a token of this kind.
    fn is_mixed_after(self, kind: Kind) -> bool {
        match kind {
            Kind::Less | Kind::EqEq => false,
            Kind::And | Kind::Or | Kind::Xor => self.is_mixed || self.compared_here().is_some(),
            _ => self.is_mixed,
        }
    }

    /// The number of open brackets after a token of this kind.
    fn depth_after(self, kind: Kind) -> usize {
        match kind {
            Kind::LParen | Kind::LBracket => self.depth.saturating_add(1),
            Kind::RParen | Kind::RBracket => self.depth.saturating_sub(1),
            _ => self.depth,
        }
    }

    /// What has been read after one more token.
    fn then(self, token: Token<'s>) -> Read<'s> {
        Read {
            last: Some(token),
            before: self.last,
            depth: self.depth_after(token.kind),
            compared: self.compared_after(token.kind),
            is_mixed: self.is_mixed_after(token.kind),
        }
    }

    /// The place of `<`, if the last two tokens are that and a number that is 0.
    fn below_zero(self) -> Option<usize> {
        let less = self.before?;
        let last = self.last?;
        if less.kind == Kind::Less
            && last.kind == Kind::Number
            && read_number(last.text) == Some(0)
        {
            Some(less.at)
        } else {
            None
        }
    }

    /// What to say about a comparison of this kind after the last one.
    fn odd_after(self, kind: Kind) -> Option<&'static str> {
        match (self.compared_here()?, kind) {
            (_, Kind::Less | Kind::EqEq) if self.is_mixed => Some(MIXED),
            (Kind::Less, Kind::Less) => Some(CHAINED),
            (Kind::EqEq, Kind::EqEq) => Some(EQUAL),
            _ => None,
        }
    }

    /// What to say about the comparison that this token belongs to, or ends, and where.
    fn odd(self, token: Token<'_>) -> Option<(usize, &'static str)> {
        if let Some(words) = self.odd_after(token.kind) {
            return Some((token.at, words));
        }
        if !ends_side(token.kind) {
            return None;
        }
        Some((self.below_zero()?, NEVER))
    }
}

/// The first comparison to note: its place, and what to say.
fn first_odd(source: &[u8]) -> Option<(usize, &'static str)> {
    let mut lexer = Lexer::new(source);
    let mut read = NOTHING;
    for _ in 0..source.len() {
        let Some(Ok(token)) = lexer.next() else {
            return None;
        };
        if let Some(found) = read.odd(token) {
            return Some(found);
        }
        read = read.then(token);
    }
    None
}

/// For an accepted source, notes the first comparison that rarely means what it seems to.
pub(crate) fn note_comparisons(page: &mut Page, name: &str, source: &[u8]) -> Result<(), NoMemory> {
    let Some((at, words)) = first_odd(source) else {
        return Ok(());
    };
    let place = Place::of(source, at);
    page.name(name)?;
    page.say(format_args!(":{}:{}: note: {words}\n", place.number(), place.column()))?;
    place.show(page, 1)
}
