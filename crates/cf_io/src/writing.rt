ghost use Rattle.std.specs.Prelude.{◌+◌, ◌<◌, ◌≤◌, length, take, IfErr, OnOk, OnErr};
ghost use Rattle.std.specs.Io.KnownBytes.{Appends};
ghost use Rattle.cf_io.specs.Count.{Rises};

use crate::{Sink, WriteFault};

/// Writes the whole text, in as many pieces as the sink takes it in: at most one write a byte. It
/// takes no memory.
///
/// # Errors
///
/// `WriteFault` where a write failed. The sink then holds the first `written` bytes of the text
/// beyond what it held.
pub fn write_all<K: Sink>(sink: &mut K, text: &[u8]) -> Result<(), WriteFault>
    ensures whole { OnOk result (Appends (K.held sink.old) (K.held sink.new) text.now) }
    ensures front { IfErr result (λ fault. Appends (K.held sink.old) (K.held sink.new)
        (take fault.written text.now)) }
    ensures short { IfErr result (λ fault. fault.written < length text.now) }
    ensures cause { OnErr result (Rises (K.faults sink.old) (K.faults sink.new)) }

    // The counts.
    ensures faults { K.faults sink.old ≤ K.faults sink.new }
    ensures calls { K.calls sink.new ≤ K.calls sink.old + length text.now }
{
    let mut written = 0;
    while written < text.len() {
        match sink.write(&text[written..]) {
            Ok(count) => written += count,
            Err(_) => return Err(WriteFault { written }),
        }
    }
    Ok(())
}
