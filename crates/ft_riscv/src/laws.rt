//! Laws of the table, for all words. Each function does nothing: its clause is the law.
ghost use Rattle.ft_riscv.specs.Unambiguous.{IsUnambiguous};

/// A word stands for what any row that fits it spells: the order of the rows does not matter.
pub fn table_is_unambiguous()
    ensures { IsUnambiguous }
{}
