//! Operations on words.
ghost use Rattle.std.specs.Prelude.{◌≡◌};
ghost use Rattle.std.specs.Str.{bytes_eq};
ghost use Rattle.ft_isa.specs.Words.{apply};

/// An operation on two words.
#[derive(Clone, Copy, Debug, PartialEq, Eq, Hash, PartialOrd, Ord)]
pub enum Op {
    /// The sum modulo 2^64.
    Add,
    /// The difference modulo 2^64.
    Sub,
    /// The product modulo 2^64.
    Mul,
    /// 1 if the first word is less than the second, as unsigned numbers, and 0 otherwise.
    Ltu,
    /// 1 if the words are equal, and 0 otherwise.
    Eq,
    /// The bits set in both words.
    And,
    /// The bits set in one of the words, or in both.
    Or,
    /// The bits set in exactly one of the words.
    Xor,
    /// The first word times 2 to the power of the second, modulo 2^64: 0 if the second is 64 or more.
    Shl,
    /// The first word divided by 2 to the power of the second, rounded down: 0 if the second is 64 or more.
    Shr,
}

impl Op {
    ghost use Rattle.ft_isa.specs.Operations.{op_code, op_of, op_word, op_in};

    /// The operation's code in records.
    pub fn code(self) -> u8
        ensures { result ≡ op_code self }
    {
        match self {
            Op::Add => 0,
            Op::Sub => 1,
            Op::Mul => 2,
            Op::Ltu => 3,
            Op::Eq => 4,
            Op::And => 5,
            Op::Or => 6,
            Op::Xor => 7,
            Op::Shl => 8,
            Op::Shr => 9,
        }
    }

    /// The operation with this code; any code above 8 is `shr`.
    #[inline(always)]
    pub fn of_code(code: u32) -> Op
        ensures { result ≡ op_of code }
    {
        match code {
            0 => Op::Add,
            1 => Op::Sub,
            2 => Op::Mul,
            3 => Op::Ltu,
            4 => Op::Eq,
            5 => Op::And,
            6 => Op::Or,
            7 => Op::Xor,
            8 => Op::Shl,
            _ => Op::Shr,
        }
    }

    /// The operation's word in assembly texts.
    pub fn word(self) -> &'static [u8]
        ensures { result.now ≡ op_word self }
    {
        match self {
            Op::Add => b"add",
            Op::Sub => b"sub",
            Op::Mul => b"mul",
            Op::Ltu => b"ltu",
            Op::Eq => b"eq",
            Op::And => b"and",
            Op::Or => b"or",
            Op::Xor => b"xor",
            Op::Shl => b"shl",
            Op::Shr => b"shr",
        }
    }

    /// The operation that a word names; `None` if it names none.
    #[tactic(auto, unfolding(crate::specs::Operations::op_in))]
    pub fn of_word(word: &[u8]) -> Option<Op>
        ensures { result ≡ op_in word.now }
    {
        if is_same(word, b"add") {
            return Some(Op::Add);
        }
        if is_same(word, b"sub") {
            return Some(Op::Sub);
        }
        if is_same(word, b"mul") {
            return Some(Op::Mul);
        }
        if is_same(word, b"ltu") {
            return Some(Op::Ltu);
        }
        if is_same(word, b"eq") {
            return Some(Op::Eq);
        }
        if is_same(word, b"and") {
            return Some(Op::And);
        }
        if is_same(word, b"or") {
            return Some(Op::Or);
        }
        if is_same(word, b"xor") {
            return Some(Op::Xor);
        }
        if is_same(word, b"shl") {
            return Some(Op::Shl);
        }
        if is_same(word, b"shr") {
            return Some(Op::Shr);
        }
        None
    }
}

/// Whether two words are the same.
fn is_same(a: &[u8], b: &[u8]) -> bool
    ensures { result ≡ bytes_eq a.now b.now }
{
    a == b
}

/// The result of the operation on two words.
#[tactic(auto, unfolding(crate::specs::Words::apply))]
pub fn apply(op: Op, a: u64, b: u64) -> u64
    ensures { result ≡ apply op a b }
{
    match op {
        Op::Add => a.wrapping_add(b),
        Op::Sub => a.wrapping_sub(b),
        Op::Mul => a.wrapping_mul(b),
        Op::Ltu => u64::from(a < b),
        Op::Eq => u64::from(a == b),
        Op::And => a & b,
        Op::Or => a | b,
        Op::Xor => a ^ b,
        Op::Shl => if b < 64 { a << b } else { 0 },
        Op::Shr => if b < 64 { a >> b } else { 0 },
    }
}
