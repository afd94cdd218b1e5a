//! How a campaign ended.
use crate::totals::Totals;

/// How a campaign ended.
#[derive(Clone, Copy, Debug, PartialEq, Eq)]
pub enum CampaignEnd {
    /// Each fault has its verdict, and all lines were written.
    Finished(Totals),
    /// The number of faults times the number of steps is above 1,000,000,000.
    TooMuch {
        /// The product.
        product: u64,
    },
    /// A line could not be written.
    WriteFault,
    /// Memory ran out. Nothing was written.
    NoMemory,
}
