//! Finds loops of a source that never end because their test is a nonzero number.
use ft_edge::Shelf;
use ft_isa::{NoMemory, read_number};
use ft_lexer::{Kind, Lexer, Token};
use ft_mistakes::{Page, Place, SOURCE_LIMIT, load};

/// How much of `while (NUMBER)` has been read.
#[derive(Clone, Copy)]
enum Seen<'s> {
    /// Nothing of it.
    Nothing,
    /// `while`.
    While,
    /// `while (`.
    Open,
    /// `while (NUMBER`, with a number that is not 0.
    Test(Token<'s>),
}

impl<'s> Seen<'s> {
    /// The state after one more token.
    fn then(self, token: Token<'s>) -> Seen<'s> {
        match (self, token.kind) {
            (_, Kind::While) => Seen::While,
            (Seen::While, Kind::LParen) => Seen::Open,
            (Seen::Open, Kind::Number) if read_number(token.text) != Some(0) => Seen::Test(token),
            _ => Seen::Nothing,
        }
    }
}

/// The test of the first loop whose test is a nonzero number.
fn endless_test(source: &[u8]) -> Option<Token<'_>> {
    let mut lexer = Lexer::new(source);
    let mut seen = Seen::Nothing;
    for _ in 0..source.len() {
        let Some(Ok(token)) = lexer.next() else {
            return None;
        };
        if let Seen::Test(test) = seen
            && token.kind == Kind::RParen
        {
            return Some(test);
        }
        seen = seen.then(token);
    }
    None
}

/// Points to the loop that never ends, in a source that was stopped at its limit of steps or turns.
pub(crate) fn note_endless<S: Shelf>(
    page: &mut Page,
    name: &str,
    shelf: &mut S,
) -> Result<(), NoMemory> {
    let Some(source) = load(page.alloc(), name, SOURCE_LIMIT, shelf)? else {
        return Ok(());
    };
    let Some(test) = endless_test(source.as_slice()) else {
        return Ok(());
    };
    let place = Place::of(source.as_slice(), test.at);
    page.name(name)?;
    page.say(format_args!(
        ":{}:{}: note: this test is never 0, so the loop never ends\n",
        place.number(),
        place.column()
    ))?;
    place.show(page, test.text.len())
}
