// A sink over a writer of the system.
ghost use Rattle.std.specs.Prelude.{◌≡◌, ℕ, take, IfErr, OnOk, OnErr};
ghost use Rattle.std.specs.Io.KnownBytes.{Appends};
ghost use Rattle.tool_outside.specs.Outside.{HasCause};
ghost use Rattle.tool_outside.specs.declared.sink.SinkFail.TheVariants.{Failed as sink_failed};

use crate::{Sink, SinkFail};
use std::io::{self, ErrorKind, Write};

/// A sink over a writer, as the standard output. Each error of the writer is a fault, and so is a
/// write that takes nothing of a piece that isn't empty. It tells the bytes where the writer does,
/// which a writer of the system never does.
#[derive(Drop)]
pub struct HostSink<W: Write + Drop> {
    out: W,
    faults: u64,
}

impl<W: Write + Drop> HostSink<W> {
    /// A sink over `out`, with no fault so far.
    pub fn new(out: W) -> HostSink<W>
        ensures written { ⟦<HostSink<W> as Sink>⟧.written result ≡ W.contents out }
        ensures faults { ⟦<HostSink<W> as Sink>⟧.faults result ≡ 0 }
    {
        HostSink { out, faults: 0 }
    }
}

impl<W: Write + Drop> Sink for HostSink<W> {
    ghost written = { λ sink. W.contents sink.out };

    ghost faults = { λ sink. sink.faults };

    /// It takes no memory, and is refused by the writer alone.
    fn write(&mut self, piece: &[u8]) -> Result<(), SinkFail>
        ensures added { OnOk result (Appends (W.contents self.old.out) (W.contents self.new.out) piece.now) }
        ensures refused { OnErr result ((count : ℕ)
            × Appends (W.contents self.old.out) (W.contents self.new.out) (take count piece.now)) }
        ensures only_failed { IfErr result (λ fault. fault ≡ sink_failed) }
        ensures cause { HasCause sink_failed self.old.faults self.new.faults result }
    {
        match write_piece(&mut self.out, piece) {
            Ok(()) => Ok(()),
            Err(_) => {
                self.faults = self.faults.saturating_add(1);
                Err(SinkFail::Failed)
            }
        }
    }
}

// Writes the whole piece, in as many writes as it takes.
pub(crate) fn write_piece<W: Write>(out: &mut W, piece: &[u8]) -> io::Result<()>
    ensures added { OnOk result (Appends (W.contents out.old) (W.contents out.new) piece.now) }
    ensures refused { OnErr result ((count : ℕ)
        × Appends (W.contents out.old) (W.contents out.new) (take count piece.now)) }
{
    let mut at = 0;
    'pieces: while at < piece.len() {
        let count = out.write(&piece[at..])?;
        if count == 0 {
            return Err(io::Error::from(ErrorKind::WriteZero));
        }
        at += count;
    }
    Ok(())
}
