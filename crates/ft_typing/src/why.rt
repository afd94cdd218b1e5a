//! The premises of the typing rules.
ghost use Rattle.std.specs.Prelude.{◌≡◌};

use thiserror::Error;

/// The first failing premise of a typing rule. Premises are numbered from 1 in this order (`specs/Premise.antt`).
#[derive(Clone, Copy, Debug, PartialEq, Eq, Error)]
pub enum Why {
    /// A register that the rule reads has no type.
    #[error("a register that is read has no type")]
    Untyped,
    /// A register that the rule reads, or the word of an operation, does not have the colour that the rule requires.
    #[error("a register or a word has the wrong colour")]
    Colour,
    /// The stored value's type is not accepted as the cell's type, or the word of a `mov` does not have the claimed
    /// type.
    #[error("a word has the wrong basic type")]
    BasicType,
    /// The address register's basic type is not a `ref`.
    #[error("the address is not a ref")]
    NotRef,
    /// The target register's basic type is not `code`.
    #[error("the target is not code")]
    NotCode,
    /// d is not in the state that the rule requires.
    #[error("d is in the wrong state")]
    StateOfD,
    /// The static queue has 8 pairs.
    #[error("eight stores are pending")]
    QueueFull,
    /// The static queue is empty.
    #[error("no store is pending")]
    QueueEmpty,
    /// The address is not the same as the oldest pair's address.
    #[error("the green and blue addresses of a store differ")]
    Addresses,
    /// The value is not the same as the oldest pair's value.
    #[error("the green and blue values of a store differ")]
    Values,
    /// The tested value is not the same as d's test.
    #[error("the tested values of a branch differ")]
    Conditions,
    /// The code type differs from d's, or the target is not the same as d's form.
    #[error("the targets of a transfer differ")]
    Targets,
    /// For some register of the target's code type, the register here has no type, another colour, a basic type that is
    /// not accepted as the target's, or a form that is not the same as the target's expression under the substitution.
    #[error("a register does not match the target's type")]
    RegisterUnlike,
    /// The static queue differs in length from the target's, or a pair is not the same under the
    /// substitution; at `halt`, the static queue is not empty.
    #[error("the pending stores do not match the target's")]
    QueueUnlike,
    /// The memory form is not the same as the target's memory under the substitution.
    #[error("the memory does not match the target's")]
    MemoryUnlike,
    /// The substitution's number of rows is not the target's number of integer variables, or a row or its
    /// memory has a scope above this block's number of integer variables.
    #[error("the substitution does not fit the target or this block")]
    Annotation,
    /// A blue jump or `halt` is not the last instruction of its block, or the last instruction is neither.
    #[error("a block must end with a blue jump or halt, and contain no other")]
    BlockEnd,
    /// The cells of a run are not all of one basic type, or that type has 8 refs.
    #[error("the cells of a run differ in type, or no ref can refer to their type")]
    Array,
}

impl Why {
    ghost use Rattle.ft_typing.specs.Premise.{number_of};

    /// The number of the premise, from 1.
    pub fn number(self) -> u32
        ensures { result ≡ number_of self }
    {
        match self {
            Why::Untyped => 1,
            Why::Colour => 2,
            Why::BasicType => 3,
            Why::NotRef => 4,
            Why::NotCode => 5,
            Why::StateOfD => 6,
            Why::QueueFull => 7,
            Why::QueueEmpty => 8,
            Why::Addresses => 9,
            Why::Values => 10,
            Why::Conditions => 11,
            Why::Targets => 12,
            Why::RegisterUnlike => 13,
            Why::QueueUnlike => 14,
            Why::MemoryUnlike => 15,
            Why::Annotation => 16,
            Why::BlockEnd => 17,
            Why::Array => 18,
        }
    }
}
