//! The fates of the words at all sites, from the last step of a run to its first.
ghost use Rattle.std.specs.Prelude.{◌≡◌, ◌<◌, ℕ, suc, List, Some, None, get_or, if◌then◌else◌};
ghost use Rattle.ft_isa.specs.Instructions.{is_register, number_of};
ghost use Rattle.ft_isa.specs.PlanText.{IsSite};
ghost use Rattle.ft_isa.specs.declared.plan.Site as sites;
ghost use Rattle.ft_isa.specs.declared.plan.Wild.{Wild};
ghost use Rattle.ft_types.specs.declared.object.Object.{Object};
ghost use Rattle.ft_access.specs.Access.{entry_after, reads_entry};
ghost use Rattle.ft_access.specs.Kept.{fate_at, fate_told};
ghost use Rattle.ft_access.specs.Lasting.{strike_at};
ghost use Rattle.ft_access.specs.Fates.{Fate, Unread, fate_before, representative};

use crate::access::{is_blue_jump, reads_counters, reads_d};
use ft_isa::{Instr, Reg, Site};
use ft_queue::ROOM;

/// How many registers there are.
const REGISTERS: usize = 64;

/// The step that reads half of a pending entry first, and the number of the entry then.
#[derive(Clone, Copy)]
struct EntryRead {
    step: u64,
    entry: u8,
}

/// The step that reads each register first, if one does.
#[derive(Drop)]
struct RegisterReads {
    steps: [Option<u64>; REGISTERS],
}

impl RegisterReads {
    ghost use Rattle.ft_access.specs.Kept.{step_of};

    /// Sets the step of a register, if one is given.
    fn set(&mut self, given: Option<Reg>, step: Option<u64>)
        ensures { (r : ℕ) → r < REGISTERS → step_of self.new r ≡ (if is_register (number_of given) r then step else step_of self.old r) }
    {
        match given {
            Some(register) => {
                self.steps[register.number() as usize] = step;
            },
            None => {},
        }
    }

    /// The step of a register.
    fn get(&self, register: Reg) -> Option<u64>
        ensures { result ≡ step_of self.now register.number }
    {
        self.steps[register.number() as usize]
    }
}

/// The step that reads a word first, and the site where the word is before that step.
#[derive(Clone, Copy, Debug, PartialEq, Eq)]
pub struct FirstRead {
    pub step: u64,
    pub site: Site,
}

/// A first read at this site, if a step is given.
fn read_at(site: Site, step: Option<u64>) -> Option<FirstRead>
    ensures { fate_told result ≡ fate_at site step }
{
    match step {
        Some(step) => Some(FirstRead { step, site }),
        None => None,
    }
}

/// Where the word at each site is read first: before which step, or never.
#[derive(Drop)]
pub struct Fates {
    registers: RegisterReads,
    d: Option<u64>,
    pc_green: Option<u64>,
    pc_blue: Option<u64>,
    entries: [Option<EntryRead>; ROOM],
}

/// The step that reads a word first, if this step reads or overwrites it, or leaves it.
fn read_or(reads: bool, overwrites: bool, step: u64, later: Option<u64>) -> Option<u64>
    ensures { result ≡ (if reads then Some step else if overwrites then None else later) }
{
    if reads {
        Some(step)
    } else if overwrites {
        None
    } else {
        later
    }
}

/// A read of an entry by this step.
fn entry_read(step: u64, entry: u8) -> Option<EntryRead>
    ensures { result ≡ Some (record { step = step; entry = entry }) }
{
    Some(EntryRead { step, entry })
}

/// The first reads of pending entries before a step that executes an instruction.
fn entries_before(
    instr: &Instr,
    step: u64,
    later: [Option<EntryRead>; ROOM],
) -> [Option<EntryRead>; ROOM]
    ensures { (e : ℕ) → e < ROOM →
        get_or result e None
        ≡ (if reads_entry instr.now e then Some (record { step = step; entry = e })
        else get_or later (entry_after instr.now e) None) }
{
    let is_green_load = match instr {
        Instr::Ld { colour, .. } => colour.is_green(),
        _ => false,
    };
    if is_green_load {
        [
            entry_read(step, 0),
            entry_read(step, 1),
            entry_read(step, 2),
            entry_read(step, 3),
            entry_read(step, 4),
            entry_read(step, 5),
            entry_read(step, 6),
            entry_read(step, 7),
        ]
    } else if instr.is_blue_store() {
        [
            entry_read(step, 0),
            later[0],
            later[1],
            later[2],
            later[3],
            later[4],
            later[5],
            later[6],
        ]
    } else {
        later
    }
}

impl Fates {
    ghost use Rattle.ft_access.specs.Kept.{AreFates, Holds, IsStep, fate_past, strike_told};

    /// No word is read.
    fn none() -> Fates
        ensures { Holds result (λ _. Unread) }
    {
        Fates {
            registers: RegisterReads {
                steps: [None; REGISTERS],
            },
            d: None,
            pc_green: None,
            pc_blue: None,
            entries: [None; ROOM],
        }
    }

    /// The fates before a step that fetches an instruction.
    fn before_fetch(&mut self, step: u64)
        ensures { (f : sites.Site → Fate) → Holds self.old f → Holds self.new (fate_past None step f) }
    {
        self.pc_green = Some(step);
        self.pc_blue = Some(step);
    }

    /// The fates before a step that executes an instruction.
    fn before_execution(&mut self, instr: &Instr, step: u64)
        ensures { (f : sites.Site → Fate) → Holds self.old f → Holds self.new (fate_past (Some instr.now) step f) }
    {
        self.registers.set(instr.written(), None);
        self.registers.set(instr.second_read(), Some(step));
        self.registers.set(instr.first_read(), Some(step));
        self.d = read_or(reads_d(instr), false, step, self.d);
        let reads = reads_counters(instr);
        let overwrites = is_blue_jump(instr);
        self.pc_green = read_or(reads, overwrites, step, self.pc_green);
        self.pc_blue = read_or(reads, overwrites, step, self.pc_blue);
        self.entries = entries_before(instr, step, self.entries);
    }

    /// The fates before a step, from those after it.
    fn before(&mut self, fetched: &Option<Instr>, step: u64)
        ensures { (f : sites.Site → Fate) → Holds self.old f → Holds self.new (fate_past fetched.now step f) }
    {
        match fetched {
            Some(instr) => self.before_execution(instr, step),
            None => self.before_fetch(step),
        }
    }

    /// The fates before a step, from those after it, if the machine still runs after it.
    fn back(&mut self, fetched: &Option<Instr>, step: u64, runs_on: bool)
        ensures { (f : sites.Site → Fate) → Holds self.old f → Holds self.new (fate_before fetched.now step runs_on f) }
    {
        if !runs_on {
            *self = Fates::none();
        }
        self.before(fetched, step);
    }

    /// The fates after the last step of a run: no word is read.
    pub fn new() -> Fates
        ensures { (o : Object) (w : List Wild) (n : ℕ) → AreFates o w n n result }
    {
        Fates::none()
    }

    /// Goes back over a step: from the fates after it to those before it. `fetched` is what is fetched before the step,
    /// and `runs_on` says whether the machine still runs after it.
    pub fn step_back(&mut self, fetched: &Option<Instr>, step: u64, runs_on: bool)
        ensures { (o : Object) (w : List Wild) (n : ℕ) → step < n → IsStep o w step fetched.now runs_on →
            AreFates o w n (suc step) self.old → AreFates o w n step self.new }
    {
        self.back(fetched, step, runs_on)
    }

    /// The first read of half of a pending entry, if it is read.
    fn read_of_entry(&self, entry: u8) -> Option<EntryRead>
        requires { entry < ROOM }
        ensures { result ≡ get_or self.now.entries entry None }
    {
        self.entries[entry as usize]
    }

    /// The first read of the word at a site.
    fn read_of(&self, site: Site) -> Option<FirstRead>
        requires { IsSite site }
        ensures { (f : sites.Site → Fate) → Holds self.now f → fate_told result ≡ f site }
    {
        match site {
            Site::R(register) => read_at(site, self.registers.get(register)),
            Site::D => read_at(site, self.d),
            Site::PcG => read_at(site, self.pc_green),
            Site::PcB => read_at(site, self.pc_blue),
            Site::QAddr(entry) => match self.read_of_entry(entry) {
                Some(read) => Some(FirstRead {
                    step: read.step,
                    site: Site::QAddr(read.entry),
                }),
                None => None,
            },
            Site::QVal(entry) => match self.read_of_entry(entry) {
                Some(read) => Some(FirstRead {
                    step: read.step,
                    site: Site::QVal(read.entry),
                }),
                None => None,
            },
        }
    }

    /// The first read of the word at a site, if a step reads it: with any word, the strike of that site just before that
    /// step represents the strike of this site. An entry's number is below `ROOM`.
    pub fn first_read(&self, site: Site) -> Option<FirstRead>
        requires { IsSite site }
        ensures { (o : Object) (w : List Wild) (n k v : ℕ) → AreFates o w n k self.now →
            strike_told result v ≡ representative o w n (strike_at k site v) }
    {
        self.read_of(site)
    }
}
