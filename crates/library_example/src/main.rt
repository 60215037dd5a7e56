//! An example of the library: an account, whose bytes arrive in pieces, is decoded, walked and
//! printed as JSON.
#![tactic(auto)]

use decode_core::{DecodeFault, Decoder, OpenFault, Progress};
use json_core::{PrintFault, print};
use registry_core::{RegistryFault, TypeId, read_registry};
use scale_core::Sink;
use std::alloc::Global;
use std::io::{self, Write};
use std::process::ExitCode;
use thiserror::Error;
use value_core::{Limits, Value, What};
use widths_core::{CheckFault, Checked};

/// A registry in its portable form: type 0 is a u32, type 1 a text, and type 2 a composite
/// `Account` of a `name` and a `nonce`.
const REGISTRY: [u8; 46] = *b"\x0c\
    \x00\x00\x00\x05\x05\x00\
    \x04\x00\x00\x05\x02\x00\
    \x08\x04\x1cAccount\x00\x00\x08\x01\x10name\x04\x00\x00\x01\x14nonce\x00\x00\x00\x00";

/// The type `Account`, by its position in the registry.
const ACCOUNT: TypeId = TypeId(2);

/// An account's bytes as a connection may deliver them, with two bytes that follow it.
const PIECES: [&[u8]; 3] = [b"\x0cAd", b"a\x07", b"\x00\x00\x00\x0cB"];

/// Why no account is shown. Its text is one line.
#[derive(Debug, Drop, Error)]
enum Failure {
    #[error("registry: {0}")]
    Registry(#[from] RegistryFault),
    #[error("registry: {0:?}")]
    Check(#[from] CheckFault),
    #[error("decoder: {0}")]
    Open(#[from] OpenFault),
    #[error("value: {0}")]
    Decode(#[from] DecodeFault),
    #[error("output: {0:?}")]
    Print(#[from] PrintFault),
    #[error("output: {0}")]
    Output(#[from] io::Error),
}

/// Reads the registry that the bytes begin with, and checks that its types refer to existing types.
fn open_registry(alloc: Global, bytes: &[u8]) -> Result<Checked, Failure> {
    let (registry, _) = read_registry(alloc, bytes)?;
    Checked::new(alloc, registry).map_err(|(fault, _)| Failure::Check(fault))
}

/// Decodes the account in these pieces, and reports the progress after each piece.
fn decode_account<'r, W: Write>(
    alloc: Global,
    checked: &'r Checked,
    pieces: &[&[u8]],
    out: &mut W,
) -> Result<Value<'r, Global>, Failure> {
    let mut decoder = Decoder::new(alloc, checked, ACCOUNT, Limits::default_limits())?;
    'pieces: for piece in pieces {
        match decoder.feed(piece)? {
            Progress::More => writeln!(out, "{} bytes taken, and more wanted", decoder.taken())?,
            Progress::Done { used } => {
                writeln!(out, "whole after {used} of {} bytes", piece.len())?;
                break 'pieces;
            }
        }
    }
    Ok(decoder.finish()?)
}

/// Reports the nodes directly below a value's root.
fn walk_account<W: Write>(account: &Value<'_, Global>, out: &mut W) -> Result<(), Failure> {
    'parts: for part in account.root().children() {
        match (part.what(), part.text()) {
            (What::Text, Some(text)) => writeln!(out, "a text: {text}")?,
            (What::Unsigned(number), _) => writeln!(out, "a number: {number}")?,
            _ => writeln!(out, "something else")?,
        }
    }
    Ok(())
}

/// Opens the registry, decodes the account, walks it and prints it.
fn show_account<W: Write + Drop>(alloc: Global, mut out: W) -> Result<(), Failure> {
    let checked = open_registry(alloc, &REGISTRY)?;
    let account = decode_account(alloc, &checked, &PIECES, &mut out)?;
    walk_account(&account, &mut out)?;
    print(alloc, &account, &mut Sink::new(&mut out))?;
    Ok(writeln!(out)?)
}

fn main(rt: HostRuntime) -> ExitCode {
    match show_account(rt.alloc(), rt.stdout()) {
        Ok(()) => ExitCode::SUCCESS,
        Err(failure) => {
            let _ = eprintln!(rt; "library_example: {failure}");
            ExitCode::FAILURE
        }
    }
}
