//! Parses refusals from their lines.
use ft_isa::read_number;

/// A refusal, as its line states it.
#[derive(Clone, Copy, Debug, PartialEq, Eq)]
pub(crate) enum Refusal {
    /// The words are not a command.
    Usage,
    /// A source is refused: the number of the refusal, and a place, a count or a limit.
    Source(u64, u64),
    /// The bytes of an object, or of the tables that an assembly text describes, break this rule at this place.
    Object(u64, u64),
    /// The code type of the entry block does not allow a run to begin there.
    Entry,
    /// A cell's initial word does not have the cell's type.
    Cell(u64),
    /// The rule of an instruction does not apply: its block, its index in the block and the premise.
    Instr(u64, u64, u64),
    /// A fault list, a campaign or a script is refused: the number of the refusal, and a line, a product or a limit.
    List(u64, u64),
    /// An assembly text is refused: the number of the refusal, and a line or a limit.
    Text(u64, u64),
    /// A link map or a module is refused: the number of the refusal, and a line of the map, a module or a limit.
    Link(u64, u64),
    /// The linker cannot move an instruction: its module, its block and its index in the block.
    Code(u64, u64, u64),
}

/// Parses a number.
fn number(text: &str) -> Option<u64> {
    read_number(text.as_bytes())
}

/// Parses two numbers.
fn two(text: &str) -> Option<(u64, u64)> {
    let (first, second) = text.split_once(' ')?;
    Some((number(first)?, number(second)?))
}

/// Parses a refusal of the checker from the words after `check`.
fn check_of(text: &str) -> Option<Refusal> {
    if text == "entry" {
        return Some(Refusal::Entry);
    }
    if let Some(cell) = text.strip_prefix("cell ") {
        return Some(Refusal::Cell(number(cell)?));
    }
    let (block, rest) = text.strip_prefix("block ")?.split_once(' ')?;
    let (index, rest) = rest.strip_prefix("index ")?.split_once(' ')?;
    let premise = rest.strip_prefix("premise ")?;
    Some(Refusal::Instr(number(block)?, number(index)?, number(premise)?))
}

/// Parses a refusal of the linker from the words after `link`.
fn link_of(text: &str) -> Option<Refusal> {
    if let Some(place) = text.strip_prefix("5 ") {
        let (module, rest) = place.split_once(' ')?;
        let (block, index) = two(rest)?;
        return Some(Refusal::Code(number(module)?, block, index));
    }
    let (first, second) = two(text)?;
    Some(Refusal::Link(first, second))
}

impl Refusal {
    /// The refusal that a line, with its line feed, states; `None` if it is not a refusal.
    pub fn read(line: &[u8]) -> Option<Refusal> {
        let text = str::from_utf8(line).ok()?.strip_suffix("\n")?;
        if text == "usage" {
            return Some(Refusal::Usage);
        }
        let (word, rest) = text.split_once(' ')?;
        if word == "check" {
            return check_of(rest);
        }
        if word == "link" {
            return link_of(rest);
        }
        let (first, second) = two(rest)?;
        match word.as_bytes() {
            b"source" => Some(Refusal::Source(first, second)),
            b"object" => Some(Refusal::Object(first, second)),
            b"list" => Some(Refusal::List(first, second)),
            b"asm" => Some(Refusal::Text(first, second)),
            _ => None,
        }
    }

    /// The status of a call with this refusal.
    pub fn status(self) -> u8 {
        match self {
            Refusal::Usage => 2,
            Refusal::Source(..) => 6,
            Refusal::Object(..) => 7,
            Refusal::Entry | Refusal::Cell(_) | Refusal::Instr(..) => 8,
            Refusal::List(..) => 11,
            Refusal::Text(..) => 12,
            Refusal::Link(..) | Refusal::Code(..) => 13,
        }
    }
}
