//! The registers, in arrays, which contracts see as a finite map.
ghost use Rattle.std.specs.Prelude.{◌≡◌, ◌<◌, ℕ, Decides, slice_index_or};
ghost use Rattle.ft_semantics.specs.State.{tabulate, green_zero, held, with_held};
ghost use Rattle.ft_machine.specs.Plain.{colour_in, registers_in};

use ft_isa::{Colour, Coloured, Reg};
use std::marker::Model;

/// What the 64 registers hold: the word and the colour of each.
#[derive(Drop)]
pub struct Registers {
    words: [u64; 64],
    colours: [Colour; 64],
}

impl Model for Registers {
    ghost use Rattle.std.specs.FinMap as map;
    ghost use Rattle.std.specs.Ordering.{nat_cmp};
    ghost use Rattle.std.specs.Coded.{coded_ℕ};
    ghost use Rattle.ft_isa.specs.contracts.colour.Coloured as coloured;
    ghost use Rattle.ft_semantics.specs.State as state;

    ghost Value = { state.Registers };

    ghost coded = { map.code {R = nat_cmp} coded_ℕ coloured.the_row.coded };

    ghost use Rattle.ft_machine.specs.Arrays.{registers_of};

    ghost view = { λ r. registers_of r.words r.colours };
}

impl Registers {
    /// Green 0 in each register.
    pub fn new() -> Registers
        ensures { result ≡ tabulate 64 (λ r. r) (λ _. green_zero) }
    {
        Registers {
            words: [0; 64],
            colours: [Colour::Green; 64],
        }
    }

    /// The registers with these words, and with these numbers for their colours: 0 is green, any other blue.
    pub fn of_words(words: &[u64; 64], colours: &[u8; 64]) -> Registers
        ensures { result ≡ registers_in words.now colours.now }
    {
        let mut all = [Colour::Green; 64];
        for r in 0..64 {
            all[r] = colour_in(colours[r]);
        }
        Registers {
            words: *words,
            colours: all,
        }
    }

    /// Writes the words, and a number for each colour.
    pub fn put_words(&self, words: &mut [u64; 64], colours: &mut [u8; 64])
        ensures { registers_in words.new colours.new ≡ self.now }
    {
        put_numbers(&self.colours, colours);
        *words = self.words;
    }

    /// What a register holds.
    #[inline(always)]
    pub fn get(&self, r: Reg) -> Coloured
        ensures { result ≡ held self.now r.number }
    {
        let n = r.number() as usize;
        Coloured {
            colour: self.colours[n],
            word: self.words[n],
        }
    }

    /// Puts a coloured word into a register.
    #[inline(always)]
    pub fn put(&mut self, r: Reg, value: Coloured)
        ensures { self.new ≡ with_held self.old r.number value }
    {
        let n = r.number() as usize;
        self.words[n] = value.word;
        self.colours[n] = value.colour;
    }

    /// Whether other registers hold the same.
    pub fn same_as(&self, other: &Registers) -> bool
        ensures { Decides result (self.now ≡ other.now) }
    {
        // Reading each array of colours tells the prover that it has 64 elements.
        let _first = self.colours[0];
        let _other = other.colours[0];
        if self.words.as_slice() != other.words.as_slice() {
            return false;
        }
        self.colours.as_slice() == other.colours.as_slice()
    }

    /// Copies what other registers hold.
    pub fn copy_from(&mut self, other: &Registers)
        ensures { self.new ≡ other.now }
    {
        self.words = other.words;
        self.colours = other.colours;
    }
}

/// The colour that a number stands for.
fn colour_in(number: u8) -> Colour
    ensures { result ≡ colour_in number }
{
    match number {
        0 => Colour::Green,
        _ => Colour::Blue,
    }
}

/// A number that stands for a colour.
fn number_of(colour: Colour) -> u8
    ensures { colour_in result ≡ colour }
{
    match colour {
        Colour::Green => 0,
        Colour::Blue => 1,
    }
}

/// Writes a number for each colour.
fn put_numbers(all: &[Colour; 64], colours: &mut [u8; 64])
    ensures { (i : ℕ) → i < 64 → colour_in (slice_index_or colours.new i 0) ≡ slice_index_or all.now i Colour.Green }
{
    for r in 0..64 {
        colours[r] = number_of(all[r]);
    }
}
