//! Examples of linked objects, of walks that fail and why they must, and of where machines are sent. Each function does
//! nothing: its clauses are computed from the definitions.
ghost use Rattle.std.specs.Prelude.{◌≡◌, None, Some, [], ◌∷◌, ◌++◌};
ghost use Rattle.std.specs.FinMap as finite;
ghost use Rattle.ft_isa.specs.declared.colour.Colour.TheVariants.{Blue, Green};
ghost use Rattle.ft_static.specs.declared.node.Shape.TheVariants as shape;
ghost use Rattle.ft_isa.specs.declared.instr.Instr.TheVariants.{Halt, JmpB, JmpG, Mov};
ghost use Rattle.ft_typing.specs.Accepted.{Refused, refusal};
ghost use Rattle.ft_typing.specs.Examples.{blue, green, nothing_known, one_block, r0, r1, r32, r33, stores_five, takes_address};
ghost use Rattle.ft_typing.specs.JumpExamples.{jumps, two_blocks, variable_held};
ghost use Rattle.ft_types.specs.Objects.{block_instrs};
ghost use Rattle.ft_typing.specs.declared.why.Why.TheVariants as premise;
ghost use Rattle.ft_isa.specs.BasicTypes.{code, int};
ghost use Rattle.ft_modules.specs.CodeWalk.{code_walk};
ghost use Rattle.ft_modules.specs.Examples.{caller, go, hands_address_over, holds_address, importing, indexes_by_address, knows_address, machine_at, names_cell, no_links, no_rows, only_stub, sent_from, storer, stores_address};
ghost use Rattle.ft_modules.specs.Linked.{linked};
ghost use Rattle.ft_modules.specs.LinkRefusals.{Cells, CodeOf, Missing, NoBlock, Rows, Stub, Types, link_refusal};

/// Two modules, linked: the jump to the stub goes to the exported block and claims its code type; if the entry block is
/// imported, the exported block is the entry. The numbers of the second module's nodes, code types, blocks and
/// substitution rows are raised; the numbers of cells are not.
pub fn examples_of_linking()
    ensures instrs { (linked (importing 1) caller (storer ∷ [])).instrs ≡ Mov r1 (code 1) (green 6) ∷ Mov r33 (code 1) (blue 6) ∷ JmpG r1 ∷ JmpB r33 no_rows ∷ Halt ∷ stores_five }
    ensures accepted { refusal (linked (importing 1) caller (storer ∷ [])) ≡ None }
    ensures entry { (linked (importing 0) only_stub (storer ∷ [])).entry ≡ 1 }
    ensures without { (linked no_links caller (storer ∷ [])).instrs ≡ (caller).instrs ++ stores_five }
    ensures types { (linked no_links storer (two_blocks 6 jumps ∷ [])).types ≡ nothing_known ∷ record nothing_known { memory = 1 } ∷ record variable_held { regs = record { reg = r0; colour = Green; basic = int; expr = 2 } ∷ record { reg = r32; colour = Blue; basic = int; expr = 2 } ∷ []; memory = 1 } ∷ [] }
    ensures blocks { (linked no_links storer (two_blocks 6 jumps ∷ [])).blocks ≡ record { start = 0; code_type = 0 } ∷ record { start = 7; code_type = 1 } ∷ record { start = 13; code_type = 2 } ∷ [] }
    ensures substs { (linked no_links storer (two_blocks 6 jumps ∷ [])).substs ≡ 3 ∷ [] }
    ensures nodes { (linked no_links storer (names_cell ∷ [])).nodes ≡ record { scope = 0; shape = shape.Memory } ∷ record { scope = 0; shape = shape.Memory } ∷ record { scope = 1; shape = shape.Var 0 } ∷ record { scope = 1; shape = shape.Rem 2 1 } ∷ [] }
    ensures cells { (linked no_links storer (names_cell ∷ [])).instrs ≡ stores_five ++ takes_address 0 1 }
{}

/// Walks of blocks: a code address that is only jumped to, one that is passed on as a number, one that is stored, one
/// that selects a cell of a run, and a jump to an address that no `mov` wrote.
pub fn examples_of_walks()
    ensures jumped_to { code_walk caller finite.empty 0 (block_instrs caller 0) ≡ None }
    ensures handed_over { code_walk hands_address_over finite.empty 0 (block_instrs hands_address_over 0) ≡ Some 5 }
    ensures stored { code_walk (one_block 0 stores_address) finite.empty 0 stores_address ≡ Some 4 }
    ensures index { code_walk (one_block 0 indexes_by_address) finite.empty 0 indexes_by_address ≡ Some 1 }
    ensures unknown { code_walk caller finite.empty 0 (JmpG r1 ∷ Halt ∷ []) ≡ Some 0 }
{}

/// Where a machine is sent before a step: from the stub at address 5 to the storer's block. It stays where it is if it
/// is at another address, if something is fetched, if the counters differ, or if it is in the storer.
pub fn examples_of_sending()
    ensures stub { sent_from (machine_at 0 5 5 None) ≡ machine_at 1 1 1 None }
    ensures elsewhere { sent_from (machine_at 0 4 4 None) ≡ machine_at 0 4 4 None }
    ensures fetched { sent_from (machine_at 0 5 5 (Some Halt)) ≡ machine_at 0 5 5 (Some Halt) }
    ensures apart { sent_from (machine_at 0 5 6 None) ≡ machine_at 0 5 6 None }
    ensures storer { sent_from (machine_at 1 5 5 None) ≡ machine_at 1 5 5 None }
{}

/// Why the walk looks at the target's rows: a module that passes on its code address as a number is accepted, but an
/// object in which it is linked after another module is not. And why it looks at every use of an address: a module that
/// stores its code address is accepted, and so is an object in which it is linked after another module, though there it
/// stores another word.
pub fn examples_of_addresses_as_numbers()
    ensures alone { refusal hands_address_over ≡ None }
    ensures behind_another { refusal (linked no_links storer (hands_address_over ∷ [])) ≡ Some (Refused 1 5 premise.RegisterUnlike) }
    ensures stored_alone { refusal (one_block 0 stores_address) ≡ None }
    ensures stored_behind { refusal (linked no_links storer (one_block 0 stores_address ∷ [])) ≡ None }
{}

/// Examples of refusals 3 to 5 and 7 to 10, and of modules that are not refused.
pub fn examples_of_link_refusals()
    ensures linked { link_refusal (importing 1) caller (storer ∷ []) ≡ None }
    ensures entry { link_refusal (importing 0) only_stub (storer ∷ []) ≡ None }
    ensures cells { link_refusal no_links storer (one_block 3 stores_five ∷ []) ≡ Some (Cells 1) }
    ensures code_cell { link_refusal no_links holds_address [] ≡ Some (Cells 0) }
    ensures rows { link_refusal no_links storer (knows_address ∷ []) ≡ Some (Rows 1) }
    ensures code { link_refusal no_links storer (hands_address_over ∷ []) ≡ Some (CodeOf 1 0 5) }
    ensures block { link_refusal (importing 7) caller (storer ∷ []) ≡ Some (NoBlock 2) }
    ensures stub { link_refusal (importing 0) caller (storer ∷ []) ≡ Some (Stub 2) }
    ensures missing { link_refusal (record (importing 1) { exports = [] }) caller (storer ∷ []) ≡ Some (Missing 2) }
    ensures types { link_refusal (record (importing 1) { exports = go 1 1 4 ∷ [] }) caller (two_blocks 6 jumps ∷ []) ≡ Some (Types 2) }
{}
