//! The ways in which a row is checked.

/// The call that is checked on a row's input, and how the input is fed.
#[derive(Clone, Copy, Debug)]
pub(crate) enum Way {
    ReadCompact,
    CompactLen,
    PutCompact,
    WriteCompact,
    ReadRegistry,
    OpenMetadata,
    WriteRegistry,
    /// A shorter front of this length.
    Front(usize),
    CheckReferences,
    TypeLines,
    /// The target of the type at this position.
    CompactTarget(u32),
    /// The arm of this index of the type at this position.
    Arm(u32, u8),
    /// The creation of a decoder.
    Open,
    /// All bytes in one piece.
    Whole,
    /// Byte by byte, with an empty piece after each byte.
    Singly,
    /// Two pieces, the first of this length.
    TwoPieces(usize),
    /// Three pieces, which end at these places.
    ThreePieces(usize, usize),
    /// One byte more than the value has.
    FurtherByte,
    /// A reader of at most this many bytes a call.
    Reader(usize),
    DecodePieces,
    Encode,
    Tree,
    Text,
    Slice,
    Print,
    /// The command over devices of at most this many bytes a call.
    Command(usize),
    /// A call of a builder, by its number in the row.
    Call(usize),
    /// The end of a builder.
    Finish,
}
