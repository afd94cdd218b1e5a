//! Mnemonics of other machines that combine or shift bits.
use crate::elsewhere::Row;

/// The mnemonics, with the advice for each.
pub(super) const ROWS: &[Row] = &[
    (
        "not mvn",
        "write `xor` with 18446744073709551615 (2^64 - 1), as in `xor r1 r1 G 18446744073709551615`",
    ),
    ("eor", "write `xor`"),
    (
        "nor",
        "write `or`, and then `xor` with 18446744073709551615 (2^64 - 1)",
    ),
    ("sll slli lsl sal", "write `shl`"),
    ("srl srli lsr", "write `shr`"),
    (
        "sra srai sar asr",
        "`shr` fills with zeros: no shift preserves the sign",
    ),
    (
        "rol ror rotl rotr",
        "shift both ways with `shl` and `shr`, and combine with `or`",
    ),
];
