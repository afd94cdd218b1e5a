//! The machine without its store queue and cells: the loops over steps run on it.
ghost use Rattle.std.specs.Prelude.{◌≡◌, ◌≢◌, [], length, Decides, None};
ghost use Rattle.ft_isa.specs.Words.{cell_address};
ghost use Rattle.ft_types.specs.Objects.{init_of, instr_at};
ghost use Rattle.ft_types.specs.Spellable.{IsSpellable};
ghost use Rattle.ft_semantics.specs.State.{start, tabulate};
ghost use Rattle.ft_machine.specs.Processors.{state_with};
ghost use Rattle.ft_machine.specs.Inside.{Stands};

use crate::bank::RegisterFile;
use crate::first::entry_address;
use crate::registers::Registers;
use crate::stepping::instr_at;
use ft_isa::Instr;
use ft_semantics::Status;
use ft_types::Program;
use std::marker::Model;

/// Registers, the destination register d, the counters, the fetched instruction and the status. The store queue and the
/// words of the cells are arguments of each method that needs them. Contracts see it as a state without these two.
#[derive(Drop)]
pub struct Processor {
    pub(crate) file: RegisterFile,
    pub(crate) pc_green: u64,
    pub(crate) pc_blue: u64,
    pub(crate) fetched: Option<Instr>,
    pub(crate) status: Status,
}

impl Model for Processor {
    ghost use Rattle.std.specs.FinMap as map;
    ghost use Rattle.std.specs.Ordering.{nat_cmp};
    ghost use Rattle.ft_machine.specs.Processors.{ProcessorState};
    ghost use Rattle.ft_isa.specs.contracts.colour.Coloured as coloured;
    ghost use Rattle.std.specs.Coded.{codes, coded_ℕ};

    ghost Value = { ProcessorState };

    ghost coded = { Prim.hlevel (codes, map.code {R = nat_cmp} coded_ℕ coloured.the_row.coded) };

    ghost use Rattle.ft_machine.specs.Inside.{processor_of};

    ghost view = { processor_of };

    ghost use Rattle.std.specs.Prelude.{IfSome};
    ghost use Rattle.ft_machine.specs.Lengths.{HasNoEmptyRun};

    ghost invariant = { λ m. IfSome m.fetched HasNoEmptyRun };
}

impl Processor {
    /// The machine before the first step of a program, but for its queue, which is empty, and its cells.
    pub fn new<P: Program>(program: &P) -> Processor
        requires { IsSpellable (P.object program.now) }
        ensures { state_with result [] (tabulate (length (P.object program.now).cells) cell_address (init_of (P.object program.now)))
            ≡ start (P.object program.now) }
    {
        let entry = entry_address(program);
        Processor {
            file: RegisterFile {
                registers: Registers::new(),
                d: 0,
            },
            pc_green: entry,
            pc_blue: entry,
            fetched: None,
            status: Status::Running,
        }
    }

    /// The machine with these registers, counters and status. The fetched instruction is the one at the
    /// code address `fetched`, if one is there.
    pub fn resumed<P: Program>(
        program: &P,
        registers: Registers,
        d: u64,
        pc_green: u64,
        pc_blue: u64,
        fetched: u64,
        status: Status,
    ) -> Processor
        requires { IsSpellable (P.object program.now) }
        ensures { result ≡ record {
          registers = registers;
          d = d;
          pc_green = pc_green;
          pc_blue = pc_blue;
          fetched = instr_at (P.object program.now) fetched;
          status = status;
        } }
    {
        let fetched = instr_at(program, fetched);
        Processor {
            file: RegisterFile { registers, d },
            pc_green,
            pc_blue,
            fetched,
            status,
        }
    }

    /// Copies another machine's state but for its queue and cells, without allocating.
    pub(crate) fn copy_from(&mut self, other: &Processor)
        ensures { self.new ≡ other.now }
    {
        self.file.registers.copy_from(&other.file.registers);
        self.file.d = other.file.d;
        self.pc_green = other.pc_green;
        self.pc_blue = other.pc_blue;
        self.fetched = other.fetched;
        self.status = other.status;
    }

    /// Whether another machine is in the same state, but for queue and cells. It does not allocate.
    pub(crate) fn same_as(&self, other: &Processor) -> bool
        ensures { Decides result (self.now ≡ other.now) }
    {
        if !self.stands_as(other) {
            return false;
        }
        self.file.registers.same_as(&other.file.registers)
    }

    /// Whether another machine agrees with this one in all but its registers, queue and cells.
    fn stands_as(&self, other: &Processor) -> bool
        ensures { Decides result (Stands self.now other.now) }
    {
        if self.file.d != other.file.d {
            return false;
        }
        if self.pc_green != other.pc_green {
            return false;
        }
        if self.pc_blue != other.pc_blue {
            return false;
        }
        if self.status != other.status {
            return false;
        }
        same_fetched(self.fetched, other.fetched)
    }

    /// The registers.
    pub fn registers(&self) -> &Registers
        ensures { result.now ≡ self.now.registers }
    {
        &self.file.registers
    }

    /// The destination register.
    pub fn d(&self) -> u64
        ensures { result ≡ self.now.d }
    {
        self.file.d
    }

    /// The green program counter.
    pub fn pc_green(&self) -> u64
        ensures { result ≡ self.now.pc_green }
    {
        self.pc_green
    }

    /// The blue program counter.
    pub fn pc_blue(&self) -> u64
        ensures { result ≡ self.now.pc_blue }
    {
        self.pc_blue
    }

    /// The fetched instruction, if there is one.
    pub fn fetched(&self) -> Option<Instr>
        ensures { result ≡ self.now.fetched }
    {
        self.fetched
    }

    /// Whether an instruction is fetched.
    pub fn has_fetched(&self) -> bool
        ensures { Decides result (self.now.fetched ≢ None) }
    {
        self.fetched.is_some()
    }

    /// Whether what is fetched is what is at a code address.
    pub fn has_fetched_at<P: Program>(&self, program: &P, addr: u64) -> bool
        requires { IsSpellable (P.object program.now) }
        ensures { Decides result (self.now.fetched ≡ instr_at (P.object program.now) addr) }
    {
        same_fetched(self.fetched, instr_at(program, addr))
    }

    /// Whether the machine runs, is done, or was detected.
    pub fn status(&self) -> Status
        ensures { result ≡ self.now.status }
    {
        self.status
    }
}

/// Whether the same instruction is fetched, or none in both cases.
fn same_fetched(a: Option<Instr>, b: Option<Instr>) -> bool
    ensures { Decides result (a ≡ b) }
{
    a == b
}
