//! Mnemonics of other machines that jump, call, compare, stop or do nothing, and assembler directives.
use crate::elsewhere::Row;

/// The mnemonics, with the advice for each.
pub(super) const ROWS: &[Row] = &[
    (
        "ret rets retq iret call callq bl blr blx bsr jal jalr jsr rts",
        "there are no calls: `jmp_G` and `jmp_B` jump to an address in a register",
    ),
    ("nop noop", "delete the line"),
    ("hlt stop exit quit ebreak", "write `halt`"),
    ("end", "a run ends with `halt`, and the text with `entry B`"),
    (
        "j b br bra jr jump goto ljmp",
        "write `jmp_G` for green or `jmp_B` for blue",
    ),
    (
        "beq bne blt bltu bgt bgtu ble bleu bge bgeu beqz bnez bnz cbz cbnz je jne jz jnz jl jg jle jge ja jb jae jbe",
        "`eq` and `ltu` compare, and `bz_G` and `bz_B` branch if a register is 0",
    ),
    (
        "cmp cmpl cmpq cmn test tst",
        "there are no flags: `eq` and `ltu` write 1 or 0 into a register",
    ),
    (
        "slt slti setl setb",
        "write `ltu`, which compares unsigned words",
    ),
    (
        "svc swi syscall ecall",
        "there are no system calls: a store to a cell is an output",
    ),
    (
        "db dw dd dq section segment global globl extern org",
        "there are no directives: `cell NAME int WORD` declares a cell",
    ),
];
