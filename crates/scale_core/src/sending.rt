//! Writes bytes to a sink until all are written or a write fails.

ghost use Rattle.std.specs.Prelude.{◌≡◌, ◌≤◌, ◌||◌, length, take, IfErr, OnOk};
ghost use Rattle.std.specs.Prelude.{is_ok, not, true};
ghost use Rattle.std.specs.Io.KnownBytes.{Appends};
ghost use Rattle.scale_core.specs.Sending.{Meets, Sends};

use crate::device::WriteOnce;
use crate::sink::{Sink, SinkFault};

/// A failed write, and how many bytes were written before it.
#[derive(Clone, Copy, Debug, PartialEq, Eq)]
pub struct WriteFault {
    /// What the writer did.
    pub reason: SinkFault,
    /// The number of bytes that were written.
    pub written: u64,
}

/// Writes all the bytes. If there are none, no write is made.
///
/// # Errors
///
/// With the number of bytes written in all, which begin `bytes`; the sink has failed for good.
///
/// - `Device` if the writer returns an error, also for an interrupted write.
/// - `WroteNothing` if the writer takes no byte of a part that is not empty.
///
/// Otherwise `failed()` is unchanged.
pub fn send<W: WriteOnce>(sink: &mut Sink<W>, bytes: &[u8]) -> Result<(), WriteFault>
    ensures ok { OnOk result (Appends (W.contents sink.old.device)
        (W.contents sink.new.device) bytes.now) }
    ensures part { IfErr result (λ f. f.written ≤ length bytes.now) }
    ensures err { IfErr result (λ f. Appends (W.contents sink.old.device)
        (W.contents sink.new.device) (take f.written bytes.now)) }
    // The writer did to the last write what the reason says.
    ensures met { IfErr result (λ f. Meets W.writes f.reason sink.new.device) }
    // Unless all were written, the write of the rest failed.
    ensures sent { Sends W.writes W.contents sink.old sink.new bytes.now }
    ensures failed { sink.new.failed ≡ sink.old.failed || not (is_ok result) }
    ensures none { length bytes.now ≡ 0 → (sink.new ≡ sink.old) × (is_ok result ≡ true) }
{
    let mut written = 0;
    'parts: while written < bytes.len() {
        match sink.put(&bytes[written..]) {
            Ok(count) => written += count,
            Err(reason) => {
                return Err(WriteFault {
                    reason,
                    written: written as u64,
                });
            }
        }
    }
    Ok(())
}
