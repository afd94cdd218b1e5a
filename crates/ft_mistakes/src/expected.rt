//! What is missing before an unexpected token of a source, and advice on idioms of other languages.
use crate::excerpt::part;
use ft_lexer::{Kind, Lexer, Token};

/// What precedes a place in a source.
#[derive(Clone, Copy)]
struct Before<'s> {
    /// The first token of the statement, declaration or test there.
    first: Option<Kind>,
    /// The text of that token.
    opening: &'s [u8],
    /// How many tokens of it precede the place.
    count: usize,
    /// Whether one of them is `=`.
    assigned: bool,
    /// How many of its parentheses are open.
    open: usize,
    /// How many braces are open.
    depth: usize,
    /// The last token.
    last: Option<Token<'s>>,
}

/// What is missing, and the text and end of the token before it.
#[derive(Clone, Copy)]
pub(crate) struct Lack<'s> {
    pub what: &'static str,
    pub text: &'s [u8],
    pub end: usize,
}

/// How many braces are open after a token.
fn deeper(depth: usize, kind: Kind) -> usize {
    match kind {
        Kind::LBrace => depth.saturating_add(1),
        Kind::RBrace => depth.saturating_sub(1),
        _ => depth,
    }
}

/// How many parentheses are open after a token.
fn opened(open: usize, kind: Kind) -> usize {
    match kind {
        Kind::LParen => open.saturating_add(1),
        Kind::RParen => open.saturating_sub(1),
        _ => open,
    }
}

impl<'s> Before<'s> {
    /// What precedes the token after this one.
    fn then(self, token: Token<'s>) -> Before<'s> {
        let last = Some(token);
        let depth = deeper(self.depth, token.kind);
        if matches!(token.kind, Kind::Semi | Kind::LBrace | Kind::RBrace) {
            return Before {
                last,
                depth,
                ..START
            };
        }
        Before {
            first: Some(self.first.unwrap_or(token.kind)),
            opening: if self.count == 0 {
                token.text
            } else {
                self.opening
            },
            count: self.count.saturating_add(1),
            assigned: self.assigned || token.kind == Kind::Assign,
            open: opened(self.open, token.kind),
            depth,
            last,
        }
    }
}

/// The state before the first token.
const START: Before<'static> = Before {
    first: None,
    opening: &[],
    count: 0,
    assigned: false,
    open: 0,
    depth: 0,
    last: None,
};

/// What precedes a place.
fn read_before(source: &[u8], at: usize) -> Before<'_> {
    let mut lexer = Lexer::new(part(source, 0, at));
    let mut before = START;
    for _ in 0..source.len() {
        let Some(Ok(token)) = lexer.next() else {
            break;
        };
        before = before.then(token);
    }
    before
}

/// The kind of the token at a place; `None` at the end.
fn kind_at(source: &[u8], at: usize) -> Option<Kind> {
    match Lexer::new(part(source, at, source.len())).next() {
        Some(Ok(token)) => Some(token.kind),
        _ => None,
    }
}

/// Whether a term may end with a token of this kind.
fn ends_term(kind: Kind) -> bool {
    matches!(
        kind,
        Kind::Name | Kind::Number | Kind::RParen | Kind::RBracket
    )
}

/// Whether this token, or the end, may follow a complete construct.
fn follows_whole(kind: Option<Kind>) -> bool {
    match kind {
        Some(kind) => matches!(
            kind,
            Kind::Name | Kind::Cell | Kind::Var | Kind::While | Kind::If | Kind::Else | Kind::RBrace
        ),
        None => true,
    }
}

/// What is missing after a term that ends a statement, a declaration or a test.
fn lacking_after_term(before: Before<'_>) -> Option<&'static str> {
    if before.open > 0 {
        return Some(")");
    }
    match before.first {
        Some(Kind::While) | Some(Kind::If) => Some("{"),
        Some(Kind::Var) => Some(";"),
        _ if before.assigned => Some(";"),
        _ => None,
    }
}

/// What is missing between a token of this kind and the next one.
fn lacking_after(before: Before<'_>, last: Kind, next: Option<Kind>) -> Option<&'static str> {
    match last {
        Kind::While | Kind::If => Some("("),
        Kind::Else => Some("{"),
        _ if ends_term(last) && follows_whole(next) => lacking_after_term(before),
        _ if ends_term(last) && before.open > 0 && next == Some(Kind::LBrace) => Some(")"),
        _ if ends_term(last) && before.open > 0 && next == Some(Kind::Semi) => Some(")"),
        _ => None,
    }
}

/// What is missing before a place with an unexpected token.
pub(crate) fn lack_at(source: &[u8], at: usize) -> Option<Lack<'_>> {
    let before = read_before(source, at);
    let last = before.last?;
    if habit(source, at).is_some() {
        return None;
    }
    let what = lacking_after(before, last.kind, kind_at(source, at))?;
    Some(Lack {
        what,
        text: last.text,
        end: last.at.saturating_add(last.text.len()),
    })
}

/// What to write instead of a word that begins a statement in another language.
fn habit_of_word(word: &[u8]) -> Option<&'static str> {
    match word {
        b"for" | b"do" | b"loop" | b"repeat" | b"until" => {
            Some("loops are written `while (..) { .. }`")
        }
        b"return" => Some("there is no `return`: a program ends after its last statement"),
        b"break" | b"continue" => Some(
            "there is no `break` or `continue`: a loop ends when its test is 0",
        ),
        b"elif" => Some(ELSE_IF),
        b"goto" | b"switch" => Some(STATEMENT),
        b"def" | b"fn" | b"func" | b"function" | b"void" => Some("there are no functions"),
        b"print" | b"println" | b"printf" | b"puts" | b"write" | b"echo" => Some(OUTPUT),
        _ => None,
    }
}

/// What a statement is.
const STATEMENT: &str =
    "a statement is an assignment, a `while`, or an `if` with or without `else`";

/// What to write for `else if`.
const ELSE_IF: &str = "write `else { if (..) { .. } }`";

/// What a source begins with.
const BEGINS: &str =
    "a source has declarations, such as `cell a = 0;`, and then statements, such as `a = 1;`";

/// What to do instead of calling a function that prints.
const OUTPUT: &str = "there are no calls or macros: an assignment to a cell is the output";

/// What to write instead of a macro such as `println!(..)` whose `!` is at a place; `None` if no macro is there.
pub(crate) fn instead_of_macro(source: &[u8], at: usize) -> Option<&'static str> {
    let last = read_before(source, at).last?;
    let is_called = matches!(source.get(at.saturating_add(1)), Some(b'(' | b'[' | b'{'));
    if last.kind != Kind::Name || !is_called {
        return None;
    }
    match habit_of_word(last.text) {
        Some(words) => Some(words),
        None => Some("there are no calls or macros"),
    }
}

/// What to write instead of a statement that begins with a word of another language; `None` for other statements.
fn instead_of_statement(before: Before<'_>) -> Option<&'static str> {
    if before.first == Some(Kind::Name) && !before.assigned {
        habit_of_word(before.opening)
    } else {
        None
    }
}

/// The message for a name with a character that is not allowed in names.
const NAMED: &str = "a name has only letters, digits and `_`";

/// The message for a declaration with a type.
const UNTYPED: &str = "a declaration is `var a;` or `cell a = 0;`, without a type";

/// What is wrong with a text that follows a name in its declaration; `None` if its first bytes do not show that.
fn instead_in_declaration(rest: &[u8]) -> Option<&'static str> {
    match rest {
        [b':', b'=', ..] => None,
        [b':', ..] => Some(UNTYPED),
        [b'.' | b'$' | b'@' | b'?' | b'\'', ..] => Some(NAMED),
        _ => None,
    }
}

/// What is wrong at a place with a byte that begins no token, judging by what precedes it; `None` if that shows
/// nothing.
pub(crate) fn instead_of_byte_at(source: &[u8], at: usize) -> Option<&'static str> {
    let before = read_before(source, at);
    if before.count == 2
        && matches!(before.first, Some(Kind::Cell | Kind::Var))
        && let Some(words) = instead_in_declaration(part(source, at, source.len()))
    {
        return Some(words);
    }
    match instead_of_statement(before) {
        None if source.get(at) == Some(&b',') => instead_of_comma(before, source, at),
        words => words,
    }
}

/// Whether the tokens at a place are a name and `=`.
fn begins_assignment(source: &[u8], at: usize) -> bool {
    let mut lexer = Lexer::new(part(source, at, source.len()));
    let Some(Ok(name)) = lexer.next() else {
        return false;
    };
    let Some(Ok(equals)) = lexer.next() else {
        return false;
    };
    name.kind == Kind::Name && equals.kind == Kind::Assign
}

/// What to write instead of the idiom that this token suggests after the first name of a statement.
fn habit_after_first(word: &[u8], next: Kind) -> Option<&'static str> {
    if next != Kind::Assign
        && let Some(words) = habit_of_word(word)
    {
        return Some(words);
    }
    match next {
        Kind::Plus | Kind::Minus | Kind::Star | Kind::And | Kind::Or | Kind::Xor => {
            Some(IN_FULL)
        }
        Kind::Name => Some(UNTYPED),
        Kind::LParen => Some("there are no calls or macros, and the only loop is `while`"),
        Kind::EqEq => Some("write `=` to assign"),
        _ => None,
    }
}

/// What to write for `a++` or `++a` inside an expression.
const STEPPED: &str = "write it as a separate statement, as in `a = a + 1;`";

/// What to write for `a += 1`.
const IN_FULL: &str = "write the assignment in full, as in `a = a + 1;`";

/// Whether these two bytes are `++` or `--`.
fn is_doubled(bytes: &[u8]) -> bool {
    matches!(bytes, b"++" | b"--")
}

/// What to write instead of `++` or a sign before a term, after a token of this kind.
fn habit_before_term(source: &[u8], at: usize, last: Kind) -> &'static str {
    if is_doubled(part(source, at.saturating_sub(1), at.saturating_add(1))) {
        return STEPPED;
    }
    match part(source, at, at.saturating_add(2)) {
        b"++" | b"--" if begins_statement(last) => IN_FULL,
        b"++" | b"--" => STEPPED,
        [b'+', ..] => "numbers have no sign",
        _ => "numbers have no sign: write `0 - 1` for `-1`",
    }
}

/// What to write for `a && b`. Comparisons bind less tightly than `&`.
const BOTH: &str =
    "there is no `&&`: nest `if`, or write `(a < b) & (c == d)`; a comparison is 0 or 1";

/// What to write for `a || b`.
const EITHER: &str = "there is no `||`: write `(a < b) | (c == d)`";

/// What to write for `a <= b`.
const AT_MOST: &str = "write `(b < a) == 0` for `a <= b`";

/// Whether a statement may begin after a token of this kind.
fn begins_statement(last: Kind) -> bool {
    matches!(last, Kind::Semi | Kind::LBrace | Kind::RBrace)
}

/// What to write instead of the idiom that a token suggests after the one before it.
fn habit_after(last: Kind, next: Kind) -> Option<&'static str> {
    match next {
        Kind::If if last == Kind::Else => Some(ELSE_IF),
        Kind::Assign if last == Kind::Less => Some(AT_MOST),
        Kind::Star if last == Kind::Star => Some("there is no power operator: multiply"),
        Kind::Plus if last == Kind::Plus => Some(STEPPED),
        Kind::Semi if begins_statement(last) => Some("there are no empty statements"),
        Kind::LBrace if begins_statement(last) => Some(
            "a block follows `while (..)`, `if (..)` or `else`",
        ),
        Kind::And if last == Kind::And => Some(BOTH),
        Kind::Or if last == Kind::Or => Some(EITHER),
        Kind::LParen if last == Kind::Name => Some("there are no calls or macros"),
        Kind::Var | Kind::Cell if begins_statement(last) => {
            Some("declarations come before the first statement")
        }
        Kind::Number | Kind::LParen if begins_statement(last) => Some(STATEMENT),
        _ => None,
    }
}

/// The message for an array with several initial values.
const SAME_VALUE: &str =
    "all cells of an array have the same initial value: write `= 0`, and assign the others, as in `a[1] = 3;`";

/// What is wrong with the initial value or the length in the declaration of a cell.
fn habit_of_cell(before: Before<'_>, next: Kind) -> Option<&'static str> {
    let last = before.last?.kind;
    match next {
        Kind::Minus if last == Kind::Assign => {
            Some("numbers have no sign: -1 is 18446744073709551615 (2^64 - 1)")
        }
        Kind::Name if matches!(last, Kind::Assign | Kind::LBracket) => Some("expected a number"),
        Kind::Plus | Kind::Minus | Kind::Star | Kind::Shl if before.assigned => {
            Some("a cell's initial value is a number: compute it in a statement")
        }
        _ => None,
    }
}

/// What to write instead of the idiom that this token suggests in a declaration or a test.
fn habit_inside(before: Before<'_>, next: Kind) -> Option<&'static str> {
    match (before.first, next) {
        (Some(Kind::Var), Kind::Assign) if before.count == 2 => {
            Some("assign a variable in a statement: `var a; a = 3;`")
        }
        (Some(Kind::Cell | Kind::Var), Kind::Number) if before.count == 1 => {
            Some("a name begins with a letter or `_`")
        }
        (Some(Kind::Cell | Kind::Var), Kind::Cell | Kind::Var | Kind::While | Kind::If | Kind::Else)
            if before.count == 1 => Some("a reserved word is not a name"),
        (Some(Kind::Cell | Kind::Var), Kind::Minus) if before.count == 2 => Some(NAMED),
        (Some(Kind::Name), Kind::Assign) if before.assigned && before.open == 0 => {
            Some("write one assignment per statement, as in `b = 3; a = b;`")
        }
        (Some(Kind::Var), Kind::LBracket) => Some("only cells can be arrays: `cell a[4] = 0;`"),
        (Some(Kind::Cell), Kind::Semi) if !before.assigned => {
            Some("a cell needs an initial value, as in `cell a = 0;` or `cell a[4] = 0;`")
        }
        (Some(Kind::Cell), Kind::LBrace) => Some(SAME_VALUE),
        (Some(Kind::Cell), _) => habit_of_cell(before, next),
        (Some(Kind::While | Kind::If), Kind::Assign) if before.open > 0 => {
            Some("write `==` to compare")
        }
        _ => None,
    }
}

/// What to write instead of an operator that is a word.
fn habit_of_operator(source: &[u8], at: usize) -> Option<&'static str> {
    if begins_assignment(source, at) {
        return None;
    }
    match part(source, at, at.saturating_add(4)) {
        b"and " => Some("nest `if`, or write `(a < b) & (c == d)`"),
        [b'o', b'r', b' ', _] => Some("write `(a < b) | (c == d)`"),
        _ => None,
    }
}

/// What to write instead of an idiom of another language, at an unexpected token.
pub(crate) fn habit(source: &[u8], at: usize) -> Option<&'static str> {
    let before = read_before(source, at);
    let next = kind_at(source, at)?;
    if next == Kind::RBrace && before.depth == 0 {
        return Some("no matching `{`");
    }
    let Some(last) = before.last else {
        return Some(BEGINS);
    };
    if next == Kind::RParen && before.open == 0 {
        return Some("no matching `(`");
    }
    if next == Kind::Assign && last.kind == Kind::Less {
        return Some(AT_MOST);
    }
    if last.kind == Kind::Number
        && next == Kind::Name
        && last.at.saturating_add(last.text.len()) == at
    {
        return Some("numbers are decimal");
    }
    if before.count == 1 && next == Kind::Minus && begins_assignment(source, at.saturating_add(1)) {
        return Some(NAMED);
    }
    if before.count == 1 && last.kind == Kind::Name {
        return habit_after_first(last.text, next);
    }
    match habit_inside(before, next) {
        Some(words) => Some(words),
        None if matches!(next, Kind::Plus | Kind::Minus) && !ends_term(last.kind) => {
            Some(habit_before_term(source, at, last.kind))
        }
        None if next == Kind::Name && ends_term(last.kind) => habit_of_operator(source, at),
        None => habit_after(last.kind, next),
    }
}

/// The innermost unclosed brace at the end of a source, and the last token.
pub(crate) fn unclosed(source: &[u8]) -> Option<(usize, Token<'_>)> {
    let end = read_before(source, source.len());
    let last = end.last?;
    if end.depth == 0 {
        return None;
    }
    Some((opened_at(source, end.depth)?, last))
}

/// The place of the last `{` that brings the number of open braces to `wanted`.
fn opened_at(source: &[u8], wanted: usize) -> Option<usize> {
    let mut lexer = Lexer::new(source);
    let mut depth: usize = 0;
    let mut found = None;
    for _ in 0..source.len() {
        let Some(Ok(token)) = lexer.next() else {
            break;
        };
        depth = deeper(depth, token.kind);
        if token.kind == Kind::LBrace && depth == wanted {
            found = Some(token.at);
        }
    }
    found
}

/// Whether the comma at a place separates a number's last three digits.
fn separates_digits(source: &[u8], at: usize) -> bool {
    matches!(
        part(source, at.saturating_sub(1), at.saturating_add(4)),
        [b'0'..=b'9', _, b'0'..=b'9', b'0'..=b'9', b'0'..=b'9']
    )
}

/// What to write instead of a comma; `None` if that is not known.
fn instead_of_comma(before: Before<'_>, source: &[u8], at: usize) -> Option<&'static str> {
    match before.first {
        // After the brace that opens a list, the first number is taken for the beginning of a statement.
        Some(Kind::Number) => Some(SAME_VALUE),
        Some(Kind::Cell | Kind::Var) => Some(
            "there are no lists: each name has its own declaration, as in `var a; var b;`",
        ),
        _ if before.open == 0 && separates_digits(source, at) => Some("numbers have no separators"),
        _ => None,
    }
}

/// What to write instead of a byte that begins no token, which follows these bytes.
pub(crate) fn instead_of(before: &[u8], byte: u8) -> &'static str {
    match byte {
        b'>' if before.ends_with(b">>") => ": write `>>`",
        b'>' => ": write `b < a` for `a > b`, and `(a < b) == 0` for `a >= b`",
        b'!' => ": write `(a == b) == 0` for `a != b`",
        b'/' => ": comments begin with `#`, and there is no division",
        b'%' => ": there is no division",
        b'"' | b'\'' => ": there are no strings or characters, only numbers",
        b'.' if matches!(before, [.., b'0'..=b'9' | b' ']) => ": numbers are integers",
        b':' => ": a block is written between `{` and `}`",
        b'~' => ": write `a ^ 18446744073709551615` for `~a`",
        b'?' => ": write `if (..) { .. } else { .. }`",
        0x80.. => ": the language is written in ASCII",
        _ => "",
    }
}
