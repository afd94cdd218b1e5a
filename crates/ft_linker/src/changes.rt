//! Redirects the addresses of imported blocks in moves.
ghost use Rattle.std.specs.Prelude.{◌≡◌, [], ◌∷◌, List, Some, OnOk, map};
ghost use Rattle.std.specs.Option.{option_map};
ghost use Rattle.ft_modules.specs.Linked.{Change, change_at, changed_instr};

use ft_isa::{Base, Basic, Coloured, Instr};
use std::alloc::{AllocError, Global};
use std::collections::BTreeMap;

/// The new code address, where a block of this code type begins.
#[derive(Clone, Copy, Debug, PartialEq, Eq, Drop)]
pub struct Target {
    pub address: u64,
    pub code_type: u16,
}

/// Code addresses that are redirected.
#[derive(Drop)]
pub struct Changes {
    targets: BTreeMap<u64, Target>,
}

impl Changes {
    ghost use Rattle.ft_linker.specs.Changes.{Holds, target_of};

    /// No changes.
    pub fn new(alloc: Global) -> Changes
        ensures { Holds result [] }
    {
        Changes {
            targets: BTreeMap::new(alloc),
        }
    }

    /// Redirects an address, replacing any earlier change of it.
    pub fn send(&mut self, from: u64, target: Target) -> Result<(), AllocError>
        ensures { OnOk result ((c : Change) (cs : List Change) → c.from ≡ from → target_of c ≡ target → Holds self.old cs → Holds self.new (c ∷ cs)) }
    {
        self.targets.insert(from, target)?;
        Ok(())
    }

    /// Where an address is redirected, if it is.
    fn at(&self, address: u64) -> Option<Target>
        ensures { (cs : List Change) → Holds self.now cs → result ≡ option_map target_of (change_at cs address) }
    {
        self.targets.get(&address).copied()
    }

    /// The instruction, with the new address and code type if it is a move of a redirected address.
    fn change_instr(&self, instr: Instr) -> Instr
        ensures { (cs : List Change) → Holds self.now cs → result ≡ changed_instr cs instr }
    {
        match instr {
            Instr::Mov {
                rd,
                value,
                basic: Basic {
                    refs: 0,
                    base: Base::Code(_),
                },
            } => match self.at(value.word) {
                Some(target) => Instr::Mov {
                    rd,
                    value: Coloured {
                        colour: value.colour,
                        word: target.address,
                    },
                    basic: Basic {
                        refs: 0,
                        base: Base::Code(target.code_type),
                    },
                },
                None => instr,
            },
            other => other,
        }
    }

    /// Changes all moves of redirected addresses.
    pub fn change(&self, instrs: &mut [Instr])
        ensures { (cs : List Change) → Holds self.now cs → instrs.new ≡ map (changed_instr cs) instrs.old }
    {
        for instr in instrs.iter_mut() {
            *instr = self.change_instr(*instr);
        }
    }
}
