//! A sink in memory, with room for a number of bytes, of which chosen calls fail.

ghost use Rattle.std.specs.Prelude.{◌≡◌, ◌⊎◌, ◌≤◌, ◌<◌, ◌-◌, ◌↔◌, [], ◌++◌, length, take, min, Some, IfOk, OnErr, OnOk, IsErr, IsTrue, is_err, if◌then◌else◌, vec_len, vec_capacity};
ghost use Rattle.perm_base.specs.Calls.{is_next_failing};
ghost use Rattle.perm_base.specs.Counts.{Rose, next_count};
ghost use Rattle.perm_base.specs.Pieces.{appended};

use crate::outside::{Failed, Sink};
use perm_tree::errors::NoMemory;
use std::alloc::Global;

/// Takes the output into memory.
#[derive(Debug, Drop)]
pub struct MemSink {
    /// What was taken.
    pub taken: Vec<u8>,
    /// How many bytes it takes in all; there is memory for them from the start.
    pub room: u64,
    /// How many bytes a write takes at most.
    pub step: u64,
    /// The numbers of the calls that are refused. The first call has the number 1.
    pub fail: Vec<u64>,
    /// How many calls were made. At the greatest `u64` the count stands still.
    pub calls: u64,
    /// How many calls were refused.
    pub faults: u64,
    pub ghost within_room: { vec_len taken ≤ room },
    pub ghost room_is_there: { room ≤ vec_capacity taken },
    pub ghost takes_some: { 0 < step },
}

impl MemSink {
    /// A sink that has taken nothing. The error is want of memory for `room` bytes.
    pub fn new(alloc: Global, room: u64, step: u64, fail: Vec<u64>) -> Result<MemSink, NoMemory>
        requires { 0 < step }
        ensures taken { IfOk result (λ sink. sink.taken.items ≡ []) }
        ensures room { IfOk result (λ sink. sink.room ≡ room) }
        ensures step { IfOk result (λ sink. sink.step ≡ step) }
        ensures fail { IfOk result (λ sink. sink.fail ≡ fail) }
        ensures calls { IfOk result (λ sink. sink.calls ≡ 0) }
        ensures faults { IfOk result (λ sink. sink.faults ≡ 0) }
    {
        let taken = Vec::with_capacity(alloc, room as usize)?;
        Ok(MemSink {
            taken,
            room,
            step,
            fail,
            calls: 0,
            faults: 0,
        })
    }
}

impl Sink for MemSink {
    ghost told = { λ sink. Some sink.taken.items };

    ghost faults = { λ sink. sink.faults };

    ghost write_gives = { λ old _ _ new. new.calls ≡ next_count old.calls };

    /// Takes no memory.
    fn write(&mut self, piece: &[u8]) -> Result<usize, Failed>
        requires { 0 < length piece.now }

        ensures not_fewer { self.old.faults ≤ self.new.faults }
        ensures no_fault { OnOk result (self.new.faults ≡ self.old.faults) }
        ensures given { self.new.calls ≡ next_count self.old.calls }

        ensures within { IfOk result (λ n. n ≤ length piece.now) }
        ensures some { IfOk result (λ n. 0 < n) }
        ensures taken { IfOk result (λ n.
            Some self.new.taken.items ≡ appended (Some self.old.taken.items) (take n piece.now)) }
        ensures kept { OnErr result (Some self.new.taken.items ≡ Some self.old.taken.items) }
        ensures failed { OnErr result (Rose self.old.faults self.new.faults) }

        // What the call does, exactly.
        ensures refused { IsErr result
            ↔ (IsTrue (is_next_failing self.old.fail.items self.old.calls)
            ⊎ (vec_len self.old.taken ≡ self.old.room)) }
        ensures gives { IfOk result (λ n. let free = self.old.room - vec_len self.old.taken in
            n ≡ min self.old.step (min free (length piece.now))) }
        ensures faults { self.new.faults
            ≡ (if is_err result then next_count self.old.faults else self.old.faults) }
        ensures room { self.new.room ≡ self.old.room }
        ensures step { self.new.step ≡ self.old.step }
        ensures fail { self.new.fail ≡ self.old.fail }
    {
        self.calls = self.calls.saturating_add(1);
        let free = self.room - self.taken.len() as u64;
        if free == 0 || self.fail.contains(&self.calls) {
            self.faults = self.faults.saturating_add(1);
            return Err(Failed);
        }
        let count = self.step.min(free).min(piece.len() as u64) as usize;
        match self.taken.extend_from_slice(&piece[..count]) {
            Ok(()) => Ok(count),
            Err(_) => unreachable!(),
        }
    }
}
