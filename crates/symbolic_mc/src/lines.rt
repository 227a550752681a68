// Bytes as lines, each with its line feed.
ghost use Rattle.std.specs.Prelude.{◌≢◌, ◌+◌, ◌<◌, ◌≤◌, ℕ, length, slice_index, OnOk, OnErr};
ghost use Rattle.std.specs.Io.KnownBytes.{Appends};
ghost use Rattle.tool_outside.specs.declared.sink.SinkFail.TheVariants.{Failed as sink_failed};
ghost use Rattle.tool_outside.specs.Outside.{HasCause};
ghost use Rattle.tool_outside.specs.Causes.{WritesPrefix};

use tool_outside::{Sink, SinkFail};

/// Writes the bytes, one write a line.
pub(crate) fn write_lines<K: Sink>(out: &mut K, bytes: &[u8]) -> Result<(), SinkFail>
    ensures added { OnOk result (Appends (K.written out.old) (K.written out.new) bytes.now) }
    ensures refused { OnErr result (WritesPrefix (K.written out.old) (K.written out.new) bytes.now) }
    ensures cause { HasCause sink_failed (K.faults out.old) (K.faults out.new) result }
{
    let mut at = 0;
    'lines: while at < bytes.len() {
        let end = line_end(bytes, at);
        out.write(&bytes[at..end])?;
        at = end;
    }
    Ok(())
}

// Where the line that begins at `at` ends, behind its line feed.
fn line_end(bytes: &[u8], at: usize) -> usize
    requires { at < length bytes.now }
    ensures behind { at < result }
    ensures within { result ≤ length bytes.now }
    ensures line { (k : ℕ) → at ≤ k → k + 1 < result → slice_index bytes.now k ≢ 10 }
{
    for i in at..bytes.len() {
        if bytes[i] == b'\n' {
            return i + 1;
        }
    }
    bytes.len()
}
