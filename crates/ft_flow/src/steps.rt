//! The steps that lines spell.
ghost use Rattle.std.specs.Prelude.{◌≡◌};
ghost use Rattle.ft_flow.specs.LineWords.{line_words};
ghost use Rattle.ft_flow.specs.Named.{known_of};
ghost use Rattle.ft_flow.specs.Steps.{cell_of, exit_in, exit_rest, first_of, go_in, label_of, length_of, load_in};
ghost use Rattle.ft_flow.specs.Steps.{operation_in, plain_in, set_in, step_in, step_with, store_in, store_line, value_in};

use crate::fields::{end, index_of, is_same, number_of, pair_of, take_pair, take_past, take_word};
use crate::words::next_word;
use ft_isa::Op;
use ft_lower::Step3;

/// The names that steps may use: of cells and arrays, each with its first cell and its length, which is 0 for a cell; the
/// number of cells; and the names of the blocks.
#[derive(Drop)]
pub(crate) struct Names<'t> {
    pub names: Vec<&'t [u8]>,
    pub firsts: Vec<u32>,
    pub lengths: Vec<u32>,
    pub cells: u32,
    pub labels: Vec<&'t [u8]>,
}

impl Names<'_> {
    /// The length of what a name stands for.
    fn length_of(&self, word: &[u8]) -> u32
        ensures { result ≡ length_of (known_of self.now) word.now }
    {
        let i = index_of(&self.names, word);
        if i < self.lengths.len() {
            self.lengths[i]
        } else {
            0
        }
    }

    /// The first cell of what a name stands for; the number of cells if it stands for nothing.
    fn first_of(&self, word: &[u8]) -> u32
        ensures { result ≡ first_of (known_of self.now) word.now }
    {
        let i = index_of(&self.names, word);
        if i < self.firsts.len() {
            self.firsts[i]
        } else {
            self.cells
        }
    }

    /// The cell that a name stands for; the number of cells if it stands for none.
    fn cell_of(&self, word: &[u8]) -> u32
        ensures { result ≡ cell_of (known_of self.now) word.now }
    {
        if self.length_of(word) == 0 {
            self.first_of(word)
        } else {
            self.cells
        }
    }

    /// The number of the block with this name; the number of blocks if there is none.
    fn label_of(&self, word: &[u8]) -> u32
        ensures { result ≡ label_of (known_of self.now) word.now }
    {
        let i = index_of(&self.labels, word);
        if i < u32::MAX as usize {
            i as u32
        } else {
            u32::MAX
        }
    }

    /// Reads the rest of a load into pair `p`.
    fn load_of(&self, p: u8, name: &[u8], text: &[u8]) -> Option<Step3>
        ensures { result ≡ load_in (known_of self.now) p name.now (line_words text.now) }
    {
        let Some((word, rest)) = next_word(text) else {
            let cell = self.cell_of(name);
            return Some(Step3::Load { p, cell });
        };
        let Some(q) = pair_of(word) else {
            return None;
        };
        let first = self.first_of(name);
        let length = self.length_of(name);
        end(
            rest,
            Step3::LoadAt {
                p,
                q,
                first,
                length,
            },
        )
    }

    /// Reads the rest of a store of pair `q`.
    fn store_of(&self, q: u8, name: &[u8], text: &[u8]) -> Option<Step3>
        ensures { result ≡ store_in (known_of self.now) q name.now (line_words text.now) }
    {
        let spare = 0;
        let Some((word, rest)) = next_word(text) else {
            let cell = self.cell_of(name);
            return Some(Step3::Store { cell, q, spare });
        };
        let Some(i) = pair_of(word) else {
            return None;
        };
        let first = self.first_of(name);
        let length = self.length_of(name);
        end(
            rest,
            Step3::StoreAt {
                first,
                length,
                i,
                q,
                spare,
            },
        )
    }

    /// Reads what is put into pair `p`, given its first word.
    fn value_of(&self, p: u8, word: &[u8], text: &[u8]) -> Option<Step3>
        ensures { result ≡ value_in (known_of self.now) p word.now (line_words text.now) }
    {
        if is_same(word, b"load") {
            let Some((name, rest)) = take_word(text) else {
                return None;
            };
            return self.load_of(p, name, rest);
        }
        match Op::of_word(word) {
            Some(op) => operation_of(p, op, text),
            None => plain_of(p, word, text),
        }
    }

    /// Reads a step that sets a pair, given its first word.
    fn set_of(&self, word: &[u8], text: &[u8]) -> Option<Step3>
        ensures { result ≡ set_in (known_of self.now) word.now (line_words text.now) }
    {
        let Some(p) = pair_of(word) else {
            return None;
        };
        let Some(rest) = take_past(b"=", text) else {
            return None;
        };
        let Some((value, rest)) = take_word(rest) else {
            return None;
        };
        self.value_of(p, value, rest)
    }

    /// Reads a jump, after its first word.
    fn go_of(&self, text: &[u8]) -> Option<Step3>
        ensures { result ≡ go_in (known_of self.now) (line_words text.now) }
    {
        let Some((label, rest)) = take_word(text) else {
            return None;
        };
        let to = self.label_of(label);
        let spare = 0;
        end(rest, Step3::Go { spare, to })
    }

    /// Reads an exit, after its pair.
    fn exit_rest(&self, q: u8, text: &[u8]) -> Option<Step3>
        ensures { result ≡ exit_rest (known_of self.now) q (line_words text.now) }
    {
        let Some(rest) = take_past(b"==", text) else {
            return None;
        };
        let Some(rest) = take_past(b"0", rest) else {
            return None;
        };
        let Some(rest) = take_past(b"goto", rest) else {
            return None;
        };
        let Some((label, rest)) = take_word(rest) else {
            return None;
        };
        let to = self.label_of(label);
        let spare = 0;
        end(rest, Step3::Exit { q, spare, to })
    }

    /// Reads an exit, after its first word.
    fn exit_of(&self, text: &[u8]) -> Option<Step3>
        ensures { result ≡ exit_in (known_of self.now) (line_words text.now) }
    {
        let Some((q, rest)) = take_pair(text) else {
            return None;
        };
        self.exit_rest(q, rest)
    }

    /// Reads a store, after its first word.
    fn store_line(&self, text: &[u8]) -> Option<Step3>
        ensures { result ≡ store_line (known_of self.now) (line_words text.now) }
    {
        let Some((q, rest)) = take_pair(text) else {
            return None;
        };
        let Some((name, rest)) = take_word(rest) else {
            return None;
        };
        self.store_of(q, name, rest)
    }

    /// Reads a step, given its first word.
    fn step_with(&self, word: &[u8], text: &[u8]) -> Option<Step3>
        ensures { result ≡ step_with (known_of self.now) word.now (line_words text.now) }
    {
        if is_same(word, b"goto") {
            return self.go_of(text);
        }
        if is_same(word, b"if") {
            return self.exit_of(text);
        }
        if is_same(word, b"store") {
            return self.store_line(text);
        }
        if is_same(word, b"stop") {
            return end(text, Step3::Stop);
        }
        self.set_of(word, text)
    }

    /// The step that a line spells.
    pub(crate) fn step_of(&self, text: &[u8]) -> Option<Step3>
        ensures { result ≡ step_in (known_of self.now) (line_words text.now) }
    {
        let Some((word, rest)) = next_word(text) else {
            return None;
        };
        self.step_with(word, rest)
    }
}

/// Reads the operands of an operation.
fn operation_of(p: u8, op: Op, text: &[u8]) -> Option<Step3>
    ensures { result ≡ operation_in p op (line_words text.now) }
{
    let Some((q, rest)) = take_pair(text) else {
        return None;
    };
    let Some((s, rest)) = take_pair(rest) else {
        return None;
    };
    end(rest, Step3::Op { op, p, q, s })
}

/// Reads a pair to copy, or a number.
fn plain_of(p: u8, word: &[u8], text: &[u8]) -> Option<Step3>
    ensures { result ≡ plain_in p word.now (line_words text.now) }
{
    if let Some(q) = pair_of(word) {
        return end(text, Step3::Copy { p, q });
    }
    let Some(word) = number_of(word) else {
        return None;
    };
    end(text, Step3::Put { p, word })
}
