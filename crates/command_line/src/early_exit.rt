//! What is reported if a job does not begin: its command line names none, or a file does not open.

ghost use Rattle.std.specs.Prelude.{◌≡◌, ◌⊎◌, ℕ, take, true};
ghost use Rattle.std.specs.Io.KnownBytes.{Appends, Keeps};
ghost use Rattle.command_line.specs.Explained.{IsStatusOf, device_line, reported_text};

use crate::device::Device;
use crate::jobs::JobFault;
use scale_core::{Sink, send};
use std::io::Write;

/// Reports on `err` that a file does not open, or that a write to the output failed, and returns
/// the status, 3. A failed write to `err` changes no status.
pub fn unopened<E: Write>(device: Device, err: &mut Sink<E>) -> u8
    ensures status { result ≡ 3 }
    ensures reported { (err.new.failed ≡ true)
        ⊎ Appends (E.contents err.old.device) (E.contents err.new.device) (device_line device) }
{
    let _ = send(err, device.line().as_bytes());
    3
}

/// Reports why a command line names no job, and returns the status: 0 if it asks for help or the
/// version, whose text goes to `out`; 2 for a usage error; 3 if that text could not be written; and
/// 4 if an allocation failed.
///
/// At 0 the complete text was appended to `out`, and `err` is untouched. At 3 a beginning of it
/// was, and `err` got the line of a failed output. Otherwise nothing was written to `out`, and
/// `err` got the text of `clap` or one line. A failed write to `err` changes no status. It
/// allocates nothing.
pub fn explain<W: Write, E: Write>(fault: JobFault, out: &mut Sink<W>, err: &mut Sink<E>) -> u8
    ensures status { IsStatusOf fault result }
    ensures shown { result ≡ 0 →
        Appends (W.contents out.old.device) (W.contents out.new.device) (reported_text fault) }
    ensures front { result ≡ 3 → (n : ℕ)
        × Appends (W.contents out.old.device) (W.contents out.new.device)
        (take n (reported_text fault)) }
    ensures silent { (result ≡ 2) ⊎ (result ≡ 4) →
        Keeps (W.contents out.old.device) (W.contents out.new.device) }
    ensures reported { (result ≡ 2) ⊎ (result ≡ 4) → (err.new.failed ≡ true)
        ⊎ Appends (E.contents err.old.device) (E.contents err.new.device) (reported_text fault) }
    ensures device { result ≡ 3 → out.new.failed ≡ true }
    ensures quiet { result ≡ 0 → err.new ≡ err.old }
    ensures unwritten { result ≡ 3 → (err.new.failed ≡ true)
        ⊎ Appends (E.contents err.old.device) (E.contents err.new.device)
        (device_line Device.Output) }
{
    match fault {
        JobFault::Line { error, text } => {
            if error.use_stderr() {
                let _ = send(err, text.as_bytes());
                return 2;
            }
            match send(out, text.as_bytes()) {
                Ok(()) => 0,
                Err(_) => unopened(Device::Output, err),
            }
        }
        JobFault::Usage => {
            let _ = send(err, b"scaleview: usage\n");
            2
        }
        JobFault::Memory(_) => {
            let _ = send(err, b"scaleview: memory\n");
            4
        }
    }
}
