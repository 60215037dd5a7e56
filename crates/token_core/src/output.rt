//! A writer of JSON text, token by token.

ghost use Rattle.std.specs.Prelude.{◌≡◌, ◌+◌, ◌≤◌, ◌++◌, [], ◌∷◌, false, cond, codes, decimal};
ghost use Rattle.std.specs.Prelude.{length, take, string_bytes, OnOk, IfOk};
ghost use Rattle.std.specs.Fmt.{signed_decimal};
ghost use Rattle.hex.specs.Hex.{encode_lower};
ghost use Rattle.json.specs.Print.{quoted};
ghost use Rattle.json.specs.Token.{begin_object, end_object, begin_array, end_array, key, string};
ghost use Rattle.json.specs.Token.{number, boolean, null};
ghost use Rattle.token_core.specs.Digits.{bit_digits};
ghost use Rattle.token_core.specs.Places.{Appended};
ghost use Rattle.plain_core.specs.Plain.{AreEscapes};

use crate::digits::BLOCK;
use crate::places::{
    place_between, place_byte, place_bytes, place_comma, place_decimal, place_long,
};
use crate::strings::{place_bits_text, place_escaped, place_hex_text};
use growth_core::{Refused, extend_from_slice, make_room, with_capacity};
use plain_core::{Escapes, is_plain};
use std::alloc::Allocator;
use std::marker::Model;
use types_core::BitForm;

/// The most zeros that are appended beyond those that a token needs.
const AHEAD: usize = 16 * 1024;

/// The length in bytes from which on the capacity grows by a quarter.
const LONG: usize = 1024 * 1024;

/// Zeros to append, which tokens overwrite.
static ZEROS: [u8; 4096] = [0; 4096];

/// A writer of JSON text, token by token (RFC 8259). It places commas and colons; the caller nests
/// arrays and objects.
///
/// Beyond the room that it begins with, the capacity is at most 160 bytes more than twice the
/// text's length. It doubles, and from a mebibyte on it grows by a quarter. A method that appends a
/// token takes time in proportion to the token.
///
/// After an `Refused` the text is unspecified, and the writer is to be dropped.
#[derive(Drop)]
pub struct Output<A: Allocator> {
    /// The text, and zeros after it that tokens overwrite, so that a token asks for capacity once.
    bytes: Vec<u8, A>,
    len: usize,
    after_value: bool,
}

impl<A: Allocator> Model for Output<A> {
    ghost use Rattle.std.specs.Prelude.{length, take, ◌≤◌};
    ghost use Rattle.std.specs.Str.{IsUtf8};
    ghost use Rattle.token_core.specs.Tokens.{Text};

    ghost Value = { Text };

    ghost view = { λ o. record { text = take o.len o.bytes.items; after_value = o.after_value } };

    ghost invariant = { λ o. (o.len ≤ length o.bytes.items) × IsUtf8 (take o.len o.bytes.items) };
}

/// Ensures that `more` bytes follow the first `len`.
#[inline(always)]
fn ensure_bytes<A: Allocator>(
    bytes: &mut Vec<u8, A>,
    len: usize,
    more: usize,
) -> Result<(), Refused>
    requires { len ≤ length bytes.old.items }
    ensures ok { OnOk result (len + more ≤ length bytes.new.items) }
    ensures same { take len bytes.new.items ≡ take len bytes.old.items }
    ensures kept { length bytes.old.items ≤ length bytes.new.items }
{
    if more <= bytes.len() - len {
        return Ok(());
    }
    grow(bytes, more)
}

/// Appends `more` zeros at least, and up to `AHEAD` if the capacity suffices. The capacity doubles,
/// and from `LONG` bytes on it grows by a quarter.
#[cold]
#[inline(never)]
fn grow<A: Allocator>(bytes: &mut Vec<u8, A>, more: usize) -> Result<(), Refused>
    ensures ok { OnOk result (length bytes.old.items + more ≤ length bytes.new.items) }
    ensures same { take (length bytes.old.items) bytes.new.items ≡ bytes.old.items }
    ensures kept { length bytes.old.items ≤ length bytes.new.items }
{
    let len = bytes.len();
    if more > bytes.capacity() - len {
        let expected = if len < LONG { len } else { len / 4 };
        make_room(bytes, more, Some(expected))?;
    }
    let spare = bytes.capacity() - len;
    let mut missing = more.max(spare.min(AHEAD));
    'zeros: while missing > 0 {
        let step = missing.min(ZEROS.len());
        extend_from_slice(bytes, &ZEROS[..step])?;
        missing -= step;
    }
    Ok(())
}

/// Writes a text between quotes, escaped, after the first `len` bytes and a comma if one is wanted.
/// It returns the position after the text.
fn append_quoted<A: Allocator>(
    bytes: &mut Vec<u8, A>,
    len: usize,
    comma: bool,
    text: &[u8],
) -> Result<usize, Refused>
    requires { len ≤ length bytes.old.items }
    ensures ok { IfOk result (λ end. Appended bytes.old.items bytes.new.items len
        (cond comma (44 ∷ []) [] ++ quoted text.now) end) }
    ensures same { take len bytes.new.items ≡ take len bytes.old.items }
    ensures kept { length bytes.old.items ≤ length bytes.new.items }
{
    ensure_bytes(bytes, len, 2)?;
    let buffer = bytes.as_mut_slice();
    let first = place_comma(buffer, len, comma);
    let mut end = place_byte(buffer, first, b'"');
    let mut rest = text;
    'blocks: while !rest.is_empty() {
        let (block, after) = rest.split_at(rest.len().min(BLOCK));
        ensure_bytes(bytes, end, 6 * block.len())?;
        end = place_escaped(bytes.as_mut_slice(), end, block);
        rest = after;
    }
    ensure_bytes(bytes, end, 1)?;
    Ok(place_byte(bytes.as_mut_slice(), end, b'"'))
}

/// How a token stands to the values around it.
#[derive(Clone, Copy)]
enum Role {
    /// Begins a value or a member. A comma comes before it if a value ended there.
    Opening,
    /// Is a value. A comma comes before it if a value ended there.
    Value,
    /// Ends a value. No comma comes before it.
    Closing,
}

impl Role {
    ghost use Rattle.token_core.specs.Tokens.{takes_comma, ends_value};

    /// Returns whether a comma comes before such a token.
    #[inline(always)]
    fn takes_comma(self, after_value: bool) -> bool
        ensures { result ≡ takes_comma self after_value }
    {
        after_value && !matches!(self, Role::Closing)
    }

    /// Returns whether a value ends with such a token.
    #[inline(always)]
    fn ends_value(self) -> bool
        ensures { result ≡ ends_value self }
    {
        !matches!(self, Role::Opening)
    }
}

impl<A: Allocator> Output<A> {
    ghost use Rattle.token_core.specs.Tokens.{AddsTokens, put};

    /// Returns a writer whose text is empty, with a capacity of `room` bytes, from this allocator.
    ///
    /// # Errors
    ///
    /// `Refused` if an allocation fails.
    pub fn with_room(alloc: A, room: usize) -> Result<Output<A>, Refused>
        ensures { IfOk result (λ o. o ≡ record { text = []; after_value = false }) }
    {
        Ok(Output {
            bytes: with_capacity(alloc, room)?,
            len: 0,
            after_value: false,
        })
    }

    /// Returns the text.
    pub fn into_text(self) -> String<A>
        ensures { string_bytes result ≡ self.text }
    {
        let Output { mut bytes, len, .. } = self;
        bytes.truncate(len);
        unsafe { String::from_utf8_unchecked(bytes) }
    }

    /// Appends the characters of a token.
    #[inline(always)]
    fn put(&mut self, role: Role, characters: &str) -> Result<(), Refused>
        ensures { OnOk result (self.new ≡ put self.old role characters.now) }
    {
        ensure_bytes(&mut self.bytes, self.len, characters.len() + 1)?;
        let buffer = self.bytes.as_mut_slice();
        let at = place_comma(buffer, self.len, role.takes_comma(self.after_value));
        self.len = place_bytes(buffer, at, characters.as_bytes());
        self.after_value = role.ends_value();
        Ok(())
    }

    /// Appends characters that need no escape. `opening` is the first quote, after the `{` of an
    /// object. `closing` is the second quote, then a key's colon, and then the `[` of an array.
    #[inline(always)]
    fn put_plain(
        &mut self,
        role: Role,
        opening: &str,
        characters: &str,
        closing: &str,
    ) -> Result<(), Refused>
        requires { (length opening.now ≤ 2) × (length closing.now ≤ 3) }
        ensures { OnOk result (self.new ≡ put self.old role
            (opening.now ++ (characters.now ++ closing.now))) }
    {
        ensure_bytes(&mut self.bytes, self.len, characters.len() + 6)?;
        let buffer = self.bytes.as_mut_slice();
        let at = place_comma(buffer, self.len, role.takes_comma(self.after_value));
        let (opening, closing) = (opening.as_bytes(), closing.as_bytes());
        self.len = place_between(buffer, at, opening, characters.as_bytes(), closing);
        self.after_value = role.ends_value();
        Ok(())
    }

    /// Appends a text between quotes, escaped.
    #[inline(never)]
    fn put_escaped(&mut self, role: Role, text: &str) -> Result<(), Refused>
        ensures { OnOk result (self.new ≡ put self.old role (quoted text.now)) }
    {
        let comma = role.takes_comma(self.after_value);
        self.len = append_quoted(&mut self.bytes, self.len, comma, text.as_bytes())?;
        self.after_value = role.ends_value();
        Ok(())
    }

    /// Appends a key that needs an escape, and its colon.
    fn escaped_key(&mut self, name: &str) -> Result<(), Refused>
        ensures { AddsTokens result self.old self.new (key name.now ∷ []) }
    {
        self.put_escaped(Role::Opening, name)?;
        self.put(Role::Opening, ":")
    }

    /// Appends the `{` of an object.
    ///
    /// # Errors
    ///
    /// `Refused` if an allocation fails.
    #[inline(always)]
    pub fn begin_object(&mut self) -> Result<(), Refused>
        ensures { AddsTokens result self.old self.new (begin_object ∷ []) }
    {
        self.put(Role::Opening, "{")
    }

    /// Appends the `}` of the object that began last.
    ///
    /// # Errors
    ///
    /// `Refused` if an allocation fails.
    #[inline(always)]
    pub fn end_object(&mut self) -> Result<(), Refused>
        ensures { AddsTokens result self.old self.new (end_object ∷ []) }
    {
        self.put(Role::Closing, "}")
    }

    /// Appends the `[` of an array.
    ///
    /// # Errors
    ///
    /// `Refused` if an allocation fails.
    #[inline(always)]
    pub fn begin_array(&mut self) -> Result<(), Refused>
        ensures { AddsTokens result self.old self.new (begin_array ∷ []) }
    {
        self.put(Role::Opening, "[")
    }

    /// Appends the `]` of the array that began last.
    ///
    /// # Errors
    ///
    /// `Refused` if an allocation fails.
    #[inline(always)]
    pub fn end_array(&mut self) -> Result<(), Refused>
        ensures { AddsTokens result self.old self.new (end_array ∷ []) }
    {
        self.put(Role::Closing, "]")
    }

    /// Appends `null`.
    ///
    /// # Errors
    ///
    /// `Refused` if an allocation fails.
    #[inline(always)]
    pub fn null(&mut self) -> Result<(), Refused>
        ensures { AddsTokens result self.old self.new (null ∷ []) }
    {
        self.put(Role::Value, "null")
    }

    /// Appends `true` or `false`.
    ///
    /// # Errors
    ///
    /// `Refused` if an allocation fails.
    #[inline(always)]
    pub fn boolean(&mut self, x: bool) -> Result<(), Refused>
        ensures { AddsTokens result self.old self.new (boolean x ∷ []) }
    {
        self.put(Role::Value, if x { "true" } else { "false" })
    }

    /// Appends an unsigned number.
    ///
    /// # Errors
    ///
    /// `Refused` if an allocation fails.
    #[inline(always)]
    pub fn unsigned(&mut self, n: u64) -> Result<(), Refused>
        ensures { AddsTokens result self.old self.new (number (decimal n) ∷ []) }
    {
        ensure_bytes(&mut self.bytes, self.len, 21)?;
        let buffer = self.bytes.as_mut_slice();
        let at = place_comma(buffer, self.len, self.after_value);
        self.len = place_decimal(buffer, at, n);
        self.after_value = true;
        Ok(())
    }

    /// Appends a number.
    ///
    /// # Errors
    ///
    /// `Refused` if an allocation fails.
    #[inline(always)]
    pub fn signed(&mut self, n: i64) -> Result<(), Refused>
        ensures { AddsTokens result self.old self.new (number (signed_decimal n) ∷ []) }
    {
        let mut buffer = itoa::Buffer::new();
        self.put(Role::Value, buffer.format(n))
    }

    /// Appends an unsigned number as a text of its decimal digits.
    ///
    /// # Errors
    ///
    /// `Refused` if an allocation fails.
    pub fn quoted_unsigned(&mut self, n: u128) -> Result<(), Refused>
        ensures { AddsTokens result self.old self.new (string (decimal n) ∷ []) }
    {
        ensure_bytes(&mut self.bytes, self.len, 42)?;
        let buffer = self.bytes.as_mut_slice();
        let at = place_comma(buffer, self.len, self.after_value);
        let first = place_byte(buffer, at, b'"');
        let end = place_long(buffer, first, n);
        self.len = place_byte(buffer, end, b'"');
        self.after_value = true;
        Ok(())
    }

    /// Appends a number as a text of its decimal digits.
    ///
    /// # Errors
    ///
    /// `Refused` if an allocation fails.
    pub fn quoted_signed(&mut self, n: i128) -> Result<(), Refused>
        ensures { AddsTokens result self.old self.new (string (signed_decimal n) ∷ []) }
    {
        let mut buffer = itoa::Buffer::new();
        self.put_plain(Role::Value, "\"", buffer.format(n), "\"")
    }

    /// Appends a key and its colon. `escapes` tells whether the key needs an escape.
    ///
    /// # Errors
    ///
    /// `Refused` if an allocation fails.
    #[inline(always)]
    pub fn key(&mut self, name: &str, escapes: Escapes) -> Result<(), Refused>
        requires { AreEscapes escapes name.now }
        ensures { AddsTokens result self.old self.new (key name.now ∷ []) }
    {
        match escapes {
            Escapes::None => self.put_plain(Role::Opening, "\"", name, "\":"),
            Escapes::Needed => self.escaped_key(name),
        }
    }

    /// Appends the `{` of an object, its first key and the colon. `escapes` tells whether the key
    /// needs an escape.
    ///
    /// # Errors
    ///
    /// `Refused` if an allocation fails.
    #[inline(always)]
    pub fn begin_member(&mut self, name: &str, escapes: Escapes) -> Result<(), Refused>
        requires { AreEscapes escapes name.now }
        ensures { AddsTokens result self.old self.new (begin_object ∷ key name.now ∷ []) }
    {
        if let Escapes::None = escapes {
            return self.put_plain(Role::Opening, "{\"", name, "\":");
        }
        self.begin_object()?;
        self.escaped_key(name)
    }

    /// Appends the `{` of an object, its first key, the colon, and the `[` of an array. `escapes`
    /// tells whether the key needs an escape.
    ///
    /// # Errors
    ///
    /// `Refused` if an allocation fails.
    #[inline(always)]
    pub fn begin_array_member(&mut self, name: &str, escapes: Escapes) -> Result<(), Refused>
        requires { AreEscapes escapes name.now }
        ensures { AddsTokens result self.old self.new
            (begin_object ∷ key name.now ∷ begin_array ∷ []) }
    {
        if let Escapes::None = escapes {
            return self.put_plain(Role::Opening, "{\"", name, "\":[");
        }
        self.begin_object()?;
        self.escaped_key(name)?;
        self.begin_array()
    }

    /// Appends the `]` of an array and the `}` of the object whose last value it is.
    ///
    /// # Errors
    ///
    /// `Refused` if an allocation fails.
    #[inline(always)]
    pub fn end_array_member(&mut self) -> Result<(), Refused>
        ensures { AddsTokens result self.old self.new (end_array ∷ end_object ∷ []) }
    {
        self.put(Role::Closing, "]}")
    }

    /// Appends a text.
    ///
    /// # Errors
    ///
    /// `Refused` if an allocation fails.
    #[inline(always)]
    pub fn string(&mut self, text: &str) -> Result<(), Refused>
        ensures { AddsTokens result self.old self.new (string text.now ∷ []) }
    {
        if is_plain(text) {
            self.put_plain(Role::Value, "\"", text, "\"")
        } else {
            self.put_escaped(Role::Value, text)
        }
    }

    /// Appends a text of `0x` and two hexadecimal digits for each byte.
    ///
    /// # Errors
    ///
    /// `Refused` if an allocation fails.
    pub fn hex(&mut self, bytes: &[u8]) -> Result<(), Refused>
        ensures { AddsTokens result self.old self.new
            (string (codes "0x" ++ encode_lower bytes.now) ∷ []) }
    {
        // No vector has 2^64 - 1 bytes, so a room that is cut there is refused.
        let room = (2 * bytes.len()).saturating_add(5);
        ensure_bytes(&mut self.bytes, self.len, room)?;
        let buffer = self.bytes.as_mut_slice();
        let at = place_comma(buffer, self.len, self.after_value);
        self.len = place_hex_text(buffer, at, bytes);
        self.after_value = true;
        Ok(())
    }

    /// Appends a text of `0b` and the digit of each of this many bits, in order.
    ///
    /// # Errors
    ///
    /// `Refused` if an allocation fails.
    pub fn bits(&mut self, form: BitForm, bytes: &[u8], count: u32) -> Result<(), Refused>
        ensures { AddsTokens result self.old self.new
            (string (codes "0b" ++ bit_digits form bytes.now count) ∷ []) }
    {
        ensure_bytes(&mut self.bytes, self.len, count as usize + 5)?;
        let buffer = self.bytes.as_mut_slice();
        let at = place_comma(buffer, self.len, self.after_value);
        self.len = place_bits_text(buffer, at, form, bytes, count);
        self.after_value = true;
        Ok(())
    }
}
