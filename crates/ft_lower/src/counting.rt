//! How many blocks statements begin.
ghost use Rattle.std.specs.Prelude.{◌≡◌, ◌<◌, ◌^◌, ◌++◌, OnOk, IfOk};
ghost use Rattle.ft_syntax.specs.Plain.{none, plain_statement, plain_list};
ghost use Rattle.ft_scope.specs.Size.{same_slot};
ghost use Rattle.ft_lower.specs.Lowered.{block_count, body_counts};

use ft_scope::Slot;
use ft_syntax::Stmt;
use std::alloc::AllocError;

/// How many blocks statements begin. Pushes the counts for the bodies of loops and the sides of choices onto a stack,
/// from which they are popped in the order in which the statements are lowered.
#[cycle(count)]
pub fn count_blocks(counts: &mut Vec<u32>, all: &[Stmt<Slot>]) -> Result<u32, AllocError>
    requires few { block_count (plain_list same_slot all.now) < 2 ^ 32 }
    ensures blocks { IfOk result (λ n. n ≡ block_count (plain_list same_slot all.now)) }
    ensures counts { OnOk result (counts.new.items ≡ counts.old.items ++ body_counts (plain_list same_slot all.now)) }
{
    let mut blocks = 0;
    for i in (0..all.len()).rev() {
        blocks += count_statement(counts, &all[i])?;
    }
    Ok(blocks)
}

/// How many blocks a statement begins. A loop begins one for its test and one for what follows it, a choice one for its
/// second side and one for what follows it. The blocks that bodies and sides begin are counted too.
#[tactic(auto, using(crate::proofs::Forms::forms))]
#[cycle(count)]
fn count_statement(counts: &mut Vec<u32>, s: &Stmt<Slot>) -> Result<u32, AllocError>
    requires few { block_count (plain_statement same_slot s.now none) < 2 ^ 32 }
    ensures blocks { IfOk result (λ n. n ≡ block_count (plain_statement same_slot s.now none)) }
    ensures counts { OnOk result (counts.new.items ≡ counts.old.items ++ body_counts (plain_statement same_slot s.now none)) }
{
    match s {
        Stmt::Assign { .. } => Ok(0),
        Stmt::AssignAt { .. } => Ok(0),
        Stmt::While { body, .. } => {
            let inner = count_blocks(counts, body)?;
            counts.push(inner)?;
            Ok(2 + inner)
        }
        Stmt::If { yes, no, .. } => {
            let inner_no = count_blocks(counts, no)?;
            let inner_yes = count_blocks(counts, yes)?;
            counts.push(inner_no)?;
            counts.push(inner_yes)?;
            Ok(2 + inner_yes + inner_no)
        }
    }
}
