//! Doubled code: the instructions of a flow.
use ft_isa::Instr;

/// The instructions of a flow's steps in both colours, block by block; the place of each block's first instruction; and
/// the number of variables.
#[derive(Drop)]
pub struct Doubled {
    pub vars: u8,
    pub starts: Vec<u32>,
    pub instrs: Vec<Instr>,
}
