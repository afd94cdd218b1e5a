//! The past moments of a session.
ghost use Rattle.std.specs.Prelude.{◌≡◌, ℕ, ◌+◌, ◌-◌, ◌<◌, min, ◌∷◌, [], ◌++◌, take, drop, length, slice_get, All, IfOk, Some};
ghost use Rattle.ft_types.specs.Spellable.{IsSpellable};
ghost use Rattle.ft_debug.specs.Kept.{IsFull, HasMomentCells, HasCellsOf};

use crate::moment::Moment;
use circular_buffer::HeapCircularBuffer;
use ft_isa::{NoMemory, Wild};
use ft_types::Program;
use std::alloc::Global;
use std::mem;

/// The maximum number of past moments that are kept.
const ROOM: usize = 4_096;

/// The last moments of a session, up to 4,096, in a ring that is always full: its last `count` moments are the history,
/// and the others are spare.
#[derive(Drop)]
pub struct History<'w> {
    moments: HeapCircularBuffer<Moment<'w>>,
    count: usize,
}

impl<'w> History<'w> {
    /// No past moments, with room for 4,096.
    pub fn new<P: Program>(
        alloc: Global,
        program: &P,
        wild: &'w [Wild],
    ) -> Result<History<'w>, NoMemory>
        requires { IsSpellable (P.object program.now) }
        ensures full { IfOk result IsFull }
        ensures cells { IfOk result (λ h. All (HasMomentCells (length (P.object program.now).cells)) h.moments.items) }
        ensures none { IfOk result (λ h. h.count ≡ 0) }
    {
        let mut moments = HeapCircularBuffer::with_capacity(alloc, ROOM)?;
        for _ in 0..ROOM {
            match moments.try_push_back(Moment::new(alloc, program, wild)?) {
                Ok(()) => {}
                Err(_) => unreachable!(),
            }
        }
        Ok(History { moments, count: 0 })
    }

    /// How many moments are kept.
    pub fn len(&self) -> usize
        ensures { result ≡ self.now.count }
    {
        self.count
    }

    /// Keeps a moment as the newest, without allocating. If 4,096 are kept, the oldest is forgotten.
    pub fn keep(&mut self, moment: &Moment<'w>)
        requires full { IsFull self.old }
        requires cells { All (HasCellsOf moment.now) self.old.moments.items }
        ensures full { IsFull self.new }
        ensures moments { self.new.moments.items ≡ drop 1 self.old.moments.items ++ moment.now ∷ [] }
        ensures count { self.new.count ≡ min (self.old.count + 1) 4096 }
    {
        let Some(mut oldest) = self.moments.pop_front() else {
            unreachable!();
        };
        oldest.copy_from(moment);
        match self.moments.try_push_back(oldest) {
            Ok(()) => {}
            Err(_) => unreachable!(),
        }
        self.count = ROOM.min(self.count + 1);
    }

    /// Makes the newest moment of the history the present one, and removes it from the history.
    pub fn take_back(&mut self, present: &mut Moment<'w>)
        requires full { IsFull self.old }
        requires some { 0 < self.old.count }
        ensures full { IsFull self.new }
        ensures newest { slice_get self.old.moments.items 4095 ≡ Some present.new }
        ensures moments { self.new.moments.items ≡ present.old ∷ take 4095 self.old.moments.items }
        ensures count { self.new.count + 1 ≡ self.old.count }
    {
        let Some(newest) = self.moments.pop_back() else {
            unreachable!();
        };
        let past = mem::replace(present, newest);
        match self.moments.try_push_front(past) {
            Ok(()) => {}
            Err(_) => unreachable!(),
        }
        self.count -= 1;
    }
}
