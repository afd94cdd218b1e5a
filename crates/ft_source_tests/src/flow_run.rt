//! A plain interpreter of flows.
use ft_isa::apply;
use ft_lower::{Flow, Step3, next_block};
use std::test::Fail;

/// The state of a run: the words of the pairs and the cells, the block and the place of the next step, the outputs so
/// far, each as a cell and a word, and whether the run is done.
#[derive(Drop)]
pub struct FlowRun {
    pairs: Vec<u64>,
    cells: Vec<u64>,
    block: usize,
    index: usize,
    pub out: Vec<(u32, u64)>,
    pub done: bool,
}

/// The word at a place, 0 if there is none.
fn word_at(words: &[u64], at: usize) -> u64 {
    match words.get(at) {
        Some(word) => *word,
        None => 0,
    }
}

/// Puts a word at a place, if that place exists.
fn set(words: &mut Vec<u64>, at: usize, word: u64) {
    if at < words.len() {
        words[at] = word;
    }
}

/// The cell that a word selects among `length` cells from number `first` on.
fn cell_of_run(first: u32, length: u32, word: u64) -> u32 {
    if length == 0 {
        return first;
    }
    let place = word % u64::from(length);
    first.wrapping_add(u32::try_from(place).unwrap_or(u32::MAX))
}

/// The steps of a block; none if there is no such block.
fn block_of(flow: &Flow, block: usize) -> &[Step3] {
    let mut left = flow.steps.as_slice();
    for _ in 0..block {
        if left.is_empty() {
            return left;
        }
        left = next_block(left).1;
    }
    if left.is_empty() {
        return left;
    }
    next_block(left).0
}

impl FlowRun {
    /// A run at its start.
    pub fn new(rt: &impl AllocGlobal, cells: &[u64]) -> Result<FlowRun, Fail> {
        Ok(FlowRun {
            pairs: Vec::from_elem(rt.alloc(), 0, 32)?,
            cells: Vec::from_slice(rt.alloc(), cells)?,
            block: 0,
            index: 0,
            out: Vec::new(rt.alloc()),
            done: false,
        })
    }

    /// The word of a pair.
    fn pair(&self, p: u8) -> u64 {
        word_at(&self.pairs, usize::from(p))
    }

    /// The word of a cell.
    fn cell(&self, k: u32) -> u64 {
        word_at(&self.cells, k as usize)
    }

    /// Puts a word into a pair.
    fn put(&mut self, p: u8, word: u64) {
        set(&mut self.pairs, usize::from(p), word);
    }

    /// Goes to the first step of a block.
    fn go(&mut self, to: u32) {
        self.block = to as usize;
        self.index = 0;
    }

    /// Puts the word of a pair into a cell, which is an output.
    fn store(&mut self, cell: u32, q: u8) -> Result<(), Fail> {
        let word = self.pair(q);
        set(&mut self.cells, cell as usize, word);
        self.out.push((cell, word))?;
        Ok(())
    }

    /// Runs one step.
    fn act(&mut self, step: Step3) -> Result<(), Fail> {
        self.index = self.index.wrapping_add(1);
        match step {
            Step3::Put { p, word } => self.put(p, word),
            Step3::Copy { p, q } => self.put(p, self.pair(q)),
            Step3::Op { op, p, q, s } => self.put(p, apply(op, self.pair(q), self.pair(s))),
            Step3::Load { p, cell } => self.put(p, self.cell(cell)),
            Step3::Store { cell, q, spare } => {
                self.store(cell, q)?;
                self.put(spare, 0);
            }
            Step3::LoadAt {
                p,
                q,
                first,
                length,
            } => {
                let cell = cell_of_run(first, length, self.pair(q));
                self.put(p, self.cell(cell));
            }
            Step3::StoreAt {
                first,
                length,
                i,
                q,
                spare,
            } => {
                self.store(cell_of_run(first, length, self.pair(i)), q)?;
                self.put(spare, 0);
            }
            Step3::Exit { q, spare, to } => {
                if self.pair(q) == 0 {
                    self.go(to);
                }
                self.put(spare, 0);
            }
            Step3::Go { spare, to } => {
                self.go(to);
                self.put(spare, 0);
            }
            Step3::Stop => self.done = true,
        }
        Ok(())
    }

    /// Runs until the run is done, but for at most `limit` steps.
    pub fn run(&mut self, flow: &Flow, limit: usize) -> Result<(), Fail> {
        for _ in 0..limit {
            if self.done {
                return Ok(());
            }
            let Some(step) = block_of(flow, self.block).get(self.index) else {
                return Ok(());
            };
            self.act(*step)?;
        }
        Ok(())
    }
}
