//! Reads texts as link maps.
ghost use Rattle.std.specs.Prelude.{◌≡◌, ◌≤◌, List, length, IfOk};
ghost use Rattle.ft_link_map.specs.MapLines.{MapLine, AreSaid};
ghost use Rattle.ft_link_map.specs.MapAnswers.{answer_of, Gives};
ghost use Rattle.ft_link_map.specs.Sound.{IsSound};
ghost use Rattle.ft_link_map.specs.Held.{first_of};

use crate::draft::{Draft, Turn};
use crate::entry::read_entry;
use crate::link_map::LinkMap;
use crate::map_error::MapError;
use ft_text::read_line;
use std::alloc::Global;

/// The first repeated line, updated with the effect of the line with this number.
fn first_of(twice: Option<u32>, turn: Turn, number: u32) -> Option<u32>
    ensures { result ≡ first_of twice turn number }
{
    match (twice, turn) {
        (None, Turn::Again) => Some(number),
        _ => twice,
    }
}

/// The answer to the lines of a text.
fn read_lines(alloc: Global, text: &[u8]) -> Result<LinkMap, MapError>
    requires { length text.now ≤ 65536 }
    ensures { (said : List MapLine) → AreSaid text.now said → Gives result (answer_of said) }
{
    let mut draft = Draft::new(alloc);
    let mut twice = None;
    let mut number: u32 = 0;
    let mut rest = text;
    while let Some((line, after)) = read_line(rest) {
        number += 1;
        let Ok(turn) = draft.take(alloc, number, read_entry(line)) else {
            return Err(MapError::NoMemory);
        };
        if let Turn::Stuck = turn {
            return Err(MapError::Line { line: number });
        }
        twice = first_of(twice, turn, number);
        rest = after;
    }
    let Some(map) = draft.finish() else {
        return Err(MapError::Line { line: number + 1 });
    };
    match twice {
        Some(line) => Err(MapError::Twice { line }),
        None => Ok(map),
    }
}

/// Reads a link map: lines of the form `module FILE`, `export NAME B` or `import NAME B`, each ending with a line feed,
/// which is optional on the last. FILE is 1 to 255 bytes from `!` to `~`. NAME is 1 to 32 bytes, a letter or `_`
/// followed by letters, digits or `_`. B is a decimal number below 2^32 without leading zeros. `Line` reports the first
/// misplaced line; if there is none, `Twice` reports the first repeated one.
pub fn read_map(alloc: Global, text: &[u8]) -> Result<LinkMap, MapError>
    requires { length text.now ≤ 65536 }
    // The lines have a reading, and the result is the answer to it, unless memory runs out.
    ensures said { (said : List MapLine) × AreSaid text.now said × Gives result (answer_of said) }
    ensures exact { (said : List MapLine) → AreSaid text.now said → Gives result (answer_of said) }
    ensures sound { IfOk result IsSound }
{
    read_lines(alloc, text)
}
