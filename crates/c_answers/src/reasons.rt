//! The names of the codes.

ghost use Rattle.std.specs.Prelude.{◌≡◌};
ghost use Rattle.c_answers.specs.Reasons.{code_name};

/// The names of the codes from 0 on.
const CALLS: [&str; 7] = [
    "Ok",
    "More",
    "NoRoom",
    "OutOfMemory",
    "Lent",
    "NoHandle",
    "Taken",
];

/// The names of the codes from 101 on, which say why bytes hold no registry.
const REGISTRY: [&str; 14] = [
    "Truncated",
    "BadUtf8",
    "CompactNotShortest",
    "CompactTooLarge",
    "BadOption",
    "BadDefinition",
    "BadPrimitive",
    "IdOutOfPlace",
    "NotMetadata",
    "WrongVersion",
    "TrailingBytes",
    "UnknownType",
    "UnknownReference",
    "TooLarge",
];

/// The names of the codes from 201 on, which reject a type, a limit, a part or a name.
const OPENING: [&str; 5] = [
    "UnknownType",
    "LimitOutOfRange",
    "UnknownPart",
    "UnknownName",
    "NoBytes",
];

/// The names of the codes from 301 on, which say why bytes hold no value.
const VALUE: [&str; 14] = [
    "Truncated",
    "BadBool",
    "BadChar",
    "BadUtf8",
    "CompactNotShortest",
    "CompactTooLarge",
    "NoSuchVariant",
    "TooDeep",
    "NoFiniteValue",
    "BitSequence",
    "BadCompact",
    "TooLong",
    "TrailingBytes",
    "UnusedBits",
];

/// The names of the codes from 401 on, which say why records are no value.
const RECORDS: [&str; 9] = [
    "TooDeep",
    "NoFiniteValue",
    "BitSequence",
    "BadCompact",
    "WrongKind",
    "OutOfRange",
    "NoSuchVariant",
    "UnfinishedValue",
    "BadText",
];

/// Returns the name of a code, which is empty for a number that is no code.
pub fn code_name(code: u32) -> &'static str
    ensures { result.now ≡ code_name code }
{
    match code {
        0..=6 => CALLS[code as usize],
        101..=114 => REGISTRY[code as usize - 101],
        201..=205 => OPENING[code as usize - 201],
        301..=314 => VALUE[code as usize - 301],
        401..=409 => RECORDS[code as usize - 401],
        _ => "",
    }
}
