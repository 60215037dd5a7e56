//! Decodes a value from all bytes of a reader.

ghost use Rattle.std.specs.Prelude.{◌≡◌, ◌⊎◌, [], true, IfOk, IfSome, IsErrOf};
ghost use Rattle.decode_core.specs.Decoding.{opening_fault};
ghost use Rattle.decode_core.specs.Streaming.{FailsAfter, FailsAt, FeedsAll, Forbids, IsOfQuery};
ghost use Rattle.decode_core.specs.Streaming.{IsUnderWay, Looks, StopsOpen, Streams, query_of};
ghost use Rattle.decode_core.specs.declared.fault.OpenFault.{OpenFault};
ghost use Rattle.decode_core.specs.declared.stream.StreamFault.TheVariants.{Decode, Device, Open};

use crate::decoder::{Decoder, Progress};
use crate::fault::{DecodeFault, OpenFault};
use scale_core::{ReadOnce, Source, SourceFault};
use std::alloc::Allocator;
use std::{error, fmt};
use types_core::TypeId;
use value_core::{Limits, Value};
use widths_core::Checked;

/// The greatest number of bytes that one read asks for.
const PIECE: usize = 4096;

/// Why the bytes of a reader are not a value. It is printed as the fault is, or as its name and
/// place.
#[derive(Clone, Copy, Debug, PartialEq, Eq)]
pub enum StreamFault {
    /// No decoder is made, and nothing was read.
    Open(OpenFault),
    /// The bytes are rejected, or end before the value does.
    Decode(DecodeFault),
    /// Another byte follows the value.
    TrailingBytes {
        /// The number of bytes of the value.
        at: u64,
    },
    /// A read failed, and the bytes before it leave the answer open.
    Device,
}

impl fmt::Display for StreamFault {
    ghost use Rattle.std.specs.Prelude.{Some};
    ghost use Rattle.decode_core.specs.Names.{stream_fault_text};

    ghost output = { λ fault. Some (stream_fault_text fault) };

    fn fmt<W: fmt::Write>(&self, f: &mut fmt::Formatter<W>) -> fmt::Result {
        match self {
            StreamFault::Open(fault) => write!(f, "{fault}"),
            StreamFault::Decode(fault) => write!(f, "{fault}"),
            StreamFault::TrailingBytes { at } => write!(f, "TrailingBytes at {at}"),
            StreamFault::Device => f.write_str("Device"),
        }
    }
}

impl error::Error for StreamFault {}

impl From<OpenFault> for StreamFault {
    ghost from_gives = { λ f r. r ≡ Open f };

    fn from(fault: OpenFault) -> StreamFault {
        StreamFault::Open(fault)
    }
}

impl From<DecodeFault> for StreamFault {
    ghost from_gives = { λ f r. r ≡ Decode f };

    fn from(fault: DecodeFault) -> StreamFault {
        StreamFault::Decode(fault)
    }
}

impl From<SourceFault> for StreamFault {
    ghost from_gives = { λ _ r. r ≡ Device };

    fn from(_fault: SourceFault) -> StreamFault {
        StreamFault::Device
    }
}

/// Reads one more byte, and returns whether there was one.
fn has_more<R: ReadOnce>(source: &mut Source<R>) -> Result<bool, StreamFault>
    ensures answers { Looks (FailsAt R.reads source.old.device source.new.device)
        (R.remaining source.old.device) (R.remaining source.new.device) result }
    ensures reported { IsErrOf result StreamFault.Device → source.new.failed ≡ true }
    ensures quiet { IsErrOf result StreamFault.Device ⊎ (source.new.failed ≡ source.old.failed) }
{
    let mut next = [0u8; 1];
    let count = source.pull(&mut next)?;
    Ok(count > 0)
}

/// Feeds a decoder that has taken nothing until its value is complete or no byte is left. Returns
/// whether a byte follows the value.
fn feed_all<A: Allocator, R: ReadOnce>(
    decoder: &mut Decoder<'_, A>,
    source: &mut Source<R>,
) -> Result<bool, StreamFault>
    requires { IsUnderWay decoder.old [] }
    ensures query { decoder.new.query ≡ decoder.old.query }
    ensures answers { FeedsAll decoder.new
        (FailsAfter R.reads source.old.device source.new.device)
        (R.remaining source.old.device) (R.remaining source.new.device) result }
    ensures reported { IsErrOf result StreamFault.Device → source.new.failed ≡ true }
    ensures quiet { IsErrOf result StreamFault.Device ⊎ (source.new.failed ≡ source.old.failed) }
{
    let mut part = [0u8; PIECE];
    'pieces: loop {
        let count = source.pull(&mut part)?;
        if count == 0 {
            return Ok(false);
        }
        if let Progress::Done { used } = decoder.feed(&part[..count])? {
            if used < count as u64 {
                return Ok(true);
            }
            return has_more(source);
        }
    }
}

/// Decodes a value of the root's type from all bytes of the reader. One read asks for at most 4096
/// bytes, and no input is kept. Everything else comes from the allocator and its clones.
///
/// # Errors
///
/// - `Open`, before anything is read, with any error of [`Decoder::new`];
/// - `Decode` with the decoder's error in these bytes, which is `Truncated` at their number if they
///   end within the value;
/// - `TrailingBytes` at the value's length if another byte follows it;
/// - `Device` if a read fails and the bytes before it leave the answer open: there are none, more
///   are needed, or they are exactly the value's. `failed()` is true then, and otherwise unchanged.
///
/// The reader loses what was read, at most 4096 bytes after the deciding one.
///
/// # Examples
///
/// A u32 from a reader over memory:
///
/// ```
/// let mut source = Source::new(b"\x2a\x00\x00\x00".as_slice());
/// let limits = Limits::default_limits();
/// let value = decode_all(alloc, &checked, TypeId(0), limits, &mut source)?;
/// assert_eq!(rt; value.root().what(), What::Unsigned(42));
/// ```
pub fn decode_all<'r, A: Allocator + Clone, R: ReadOnce>(
    alloc: A,
    checked: &'r Checked,
    root: TypeId,
    limits: Limits,
    source: &mut Source<R>,
) -> Result<Value<'r, A>, StreamFault>
    ensures answers { IfSome (R.remaining source.old.device)
        (λ bytes. Streams (opening_fault checked.now.types root.0 limits)
        (query_of checked.now.types root.0 limits)
        (FailsAfter R.reads source.old.device source.new.device) bytes
        (R.remaining source.new.device) result) }
    ensures same { IfOk result (IsOfQuery (query_of checked.now.types root.0 limits)) }
    ensures stopped { IsErrOf result StreamFault.Device →
        StopsOpen (query_of checked.now.types root.0 limits)
        (FailsAfter R.reads source.old.device source.new.device)
        (R.remaining source.old.device) (R.remaining source.new.device) }
    ensures open { (e : OpenFault) → result ≡ Err (StreamFault.Open e) →
        Forbids (opening_fault checked.now.types root.0 limits) e }
    ensures unread { (e : OpenFault) → result ≡ Err (StreamFault.Open e) → source.new ≡ source.old }
    ensures reported { IsErrOf result StreamFault.Device → source.new.failed ≡ true }
    ensures quiet { IsErrOf result StreamFault.Device ⊎ (source.new.failed ≡ source.old.failed) }
{
    let mut decoder = Decoder::new(alloc, checked, root, limits)?;
    if feed_all(&mut decoder, source)? {
        return Err(StreamFault::TrailingBytes {
            at: decoder.taken(),
        });
    }
    Ok(decoder.finish()?)
}
