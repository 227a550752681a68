// A sink that keeps what is written.
ghost use Rattle.std.specs.Prelude.{◌≡◌, ◌↔◌, ◌++◌, [], true, Some, OnOk, OnErr, IsErrOf};
ghost use Rattle.tool_outside.specs.Memory.{SinkInMemory, is_listed, next_count};
ghost use Rattle.tool_outside.specs.Outside.{HasCause};
ghost use Rattle.tool_outside.specs.declared.sink.SinkFail.TheVariants.{Failed as sink_failed};

use crate::plan::Plan;
use crate::{Sink, SinkFail};
use std::alloc::Global;
use std::marker::Model;
use tla_values::List;

/// A sink that keeps what is written, for tests. The calls of `write` are numbered from 0 (the number
/// stands still at `2^64 - 1`), and those that are listed answer `Failed`. A refused write adds nothing.
#[derive(Drop)]
pub struct MemorySink {
    bytes: Vec<u8>,
    plan: Plan,
}

impl Model for MemorySink {
    ghost Value = { SinkInMemory };

    ghost view = { λ sink. record {
      written = sink.bytes.items;
      fails = sink.plan.fails;
      call = sink.plan.call;
      faults = sink.plan.faults;
    } };
}

impl MemorySink {
    /// Nothing is written; `fails` has the numbers of the calls that fail.
    pub fn new(alloc: Global, fails: List<u64>) -> MemorySink
        ensures { result ≡ record { written = []; fails = fails; call = 0; faults = 0 } }
    {
        MemorySink {
            bytes: Vec::new(alloc),
            plan: Plan::new(fails),
        }
    }

    /// What was written so far.
    pub fn bytes(&self) -> &[u8]
        ensures { result.now ≡ self.now.written }
    {
        &self.bytes
    }
}

impl Sink for MemorySink {
    ghost written = { λ sink. Some sink.written };

    ghost faults = { λ sink. sink.faults };

    fn write(&mut self, piece: &[u8]) -> Result<(), SinkFail>
        ensures added { OnOk result (self.new.written ≡ self.old.written ++ piece.now) }
        ensures refused { OnErr result (self.new.written ≡ self.old.written) }
        ensures listed { IsErrOf result sink_failed ↔ (is_listed self.old.fails self.old.call ≡ true) }
        ensures call { self.new.call ≡ next_count self.old.call }
        ensures fails { self.new.fails ≡ self.old.fails }
        ensures cause { HasCause sink_failed self.old.faults self.new.faults result }
    {
        if self.plan.call_fails() {
            return Err(SinkFail::Failed);
        }
        self.bytes.extend_from_slice(piece)?;
        Ok(())
    }
}
