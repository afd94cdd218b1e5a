//! Examples of accepted objects, and of refused ones: at least one for each reason and each premise. Each function does
//! nothing: its clauses are computed from the definitions.
ghost use Rattle.std.specs.Prelude.{◌≡◌, None, Some, [], ◌∷◌, codes, take};
ghost use Rattle.ft_isa.specs.declared.colour.Colour.TheVariants.{Green, Blue};
ghost use Rattle.ft_isa.specs.declared.instr.Instr.TheVariants.{Idx, JmpB, JmpG, Mov, OpReg, OpWord, St};
ghost use Rattle.ft_isa.specs.declared.op.Op.TheVariants.{Add, Mul};
ghost use Rattle.ft_typing.specs.Accepted.{CellType, EntryType, Refused, refusal};
ghost use Rattle.ft_typing.specs.Examples.{blue, doubles, green, int_cell, nothing_known, one_block, out, over_cells, r0, r1, r2, r9, r32, r33, r34, reads_pending, refs_upwards, run_of_three, stores_five, stores_in_run, stores_nine_times, takes_address, two, with_instr};
ghost use Rattle.ft_typing.specs.JumpExamples.{branches, five, jumps, stores_and_jumps, two_blocks};
ghost use Rattle.ft_typing.specs.declared.why.Why.TheVariants as premise;
ghost use Rattle.ft_isa.specs.BasicTypes.{code, int, ref};

/// Accepted objects.
pub fn examples_of_acceptance()
    ensures one_store { refusal (one_block 0 stores_five) ≡ None }
    ensures pending_loads { refusal (one_block 0 reads_pending) ≡ None }
    ensures equal_forms { refusal (one_block 3 doubles) ≡ None }
    ensures jump { refusal (two_blocks 6 jumps) ≡ None }
    ensures branch { refusal (two_blocks 7 branches) ≡ None }
    ensures run { refusal (over_cells (run_of_three int 0) stores_in_run) ≡ None }
    ensures run_of_7_refs { refusal (over_cells (refs_upwards 0 9) (takes_address 7 1)) ≡ None }
    ensures part_of_a_run { refusal (over_cells (run_of_three (ref int) out) (takes_address 2 1)) ≡ None }
{}

/// Refused objects: for the entry's code type, for a cell, and for an instruction by each premise in turn.
pub fn examples_of_refusal()
    ensures entry_type { refusal (record (one_block 0 stores_five) { types = record nothing_known { ints = 1 } ∷ [] }) ≡ Some EntryType }
    ensures cell_type { refusal (record (one_block 0 stores_five) { cells = record (int_cell (codes "out") 0) { basic = code 0 } ∷ [] }) ≡ Some (CellType 0) }
    ensures untyped { refusal (one_block 0 (with_instr 4 (St Green r0 r9) stores_five)) ≡ Some (Refused 0 4 premise.Untyped) }
    ensures colour { refusal (one_block 0 (with_instr 3 (OpWord Add r33 r1 (blue 0)) stores_five)) ≡ Some (Refused 0 3 premise.Colour) }
    ensures basic_type { refusal (one_block 0 (with_instr 1 (Mov r1 (ref int) (green 5)) stores_five)) ≡ Some (Refused 0 1 premise.BasicType) }
    ensures not_ref { refusal (one_block 0 (with_instr 4 (St Green r1 r0) stores_five)) ≡ Some (Refused 0 4 premise.NotRef) }
    ensures not_code { refusal (one_block 0 (with_instr 4 (JmpG r1) stores_five)) ≡ Some (Refused 0 4 premise.NotCode) }
    ensures state_of_d { refusal (two_blocks 6 (with_instr 4 (Mov r9 int (green 0)) jumps)) ≡ Some (Refused 0 5 premise.StateOfD) }
    ensures queue_full { refusal (one_block 0 stores_nine_times) ≡ Some (Refused 0 10 premise.QueueFull) }
    ensures queue_empty { refusal (one_block 0 (with_instr 4 (Mov r2 int (green 0)) stores_five)) ≡ Some (Refused 0 5 premise.QueueEmpty) }
    ensures addresses { refusal (record (one_block 0 (with_instr 2 (Mov r32 (ref int) (blue two)) stores_five)) { cells = int_cell (codes "out") 0 ∷ int_cell (codes "two") 0 ∷ [] }) ≡ Some (Refused 0 5 premise.Addresses) }
    ensures values { refusal (one_block 3 (with_instr 5 (OpReg Mul r34 r33 r33) doubles)) ≡ Some (Refused 0 7 premise.Values) }
    ensures conditions { refusal (two_blocks 7 (with_instr 1 (Mov r32 int (blue 6)) branches)) ≡ Some (Refused 0 5 premise.Conditions) }
    ensures targets { refusal (two_blocks 6 (with_instr 3 (Mov r33 (code 0) (blue 1)) jumps)) ≡ Some (Refused 0 5 premise.Targets) }
    ensures register_unlike { refusal (two_blocks 6 (with_instr 1 (Mov r32 int (blue 6)) jumps)) ≡ Some (Refused 0 5 premise.RegisterUnlike) }
    ensures register_missing { refusal (two_blocks 6 (with_instr 1 (Mov r9 int (blue 5)) jumps)) ≡ Some (Refused 0 5 premise.RegisterUnlike) }
    ensures queue_unlike { refusal (one_block 0 (with_instr 5 (Mov r2 int (green 0)) stores_five)) ≡ Some (Refused 0 6 premise.QueueUnlike) }
    ensures memory_unlike { refusal (two_blocks 10 stores_and_jumps) ≡ Some (Refused 0 9 premise.MemoryUnlike) }
    ensures annotation { refusal (record (two_blocks 6 (with_instr 5 (JmpB r33 (record five { past = 0 })) jumps)) { substs = [] }) ≡ Some (Refused 0 5 premise.Annotation) }
    ensures block_end { refusal (one_block 0 (take 6 stores_five)) ≡ Some (Refused 0 5 premise.BlockEnd) }
    ensures untyped_in_run { refusal (over_cells (run_of_three int 0) (with_instr 1 (Idx r1 r9 0 3) stores_in_run)) ≡ Some (Refused 0 1 premise.Untyped) }
    ensures array { refusal (over_cells (run_of_three (ref int) out) stores_in_run) ≡ Some (Refused 0 1 premise.Array) }
    ensures array_of_8_refs { refusal (over_cells (refs_upwards 0 9) (takes_address 8 1)) ≡ Some (Refused 0 1 premise.Array) }
{}
