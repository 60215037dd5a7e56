//! How a bit sequence is read where bits are allowed.

ghost use Rattle.std.specs.Prelude.{◌≡◌, ◌+◌, ◌-◌, ◌*◌, ◌^◌, ◌<◌, ◌≤◌, length};
ghost use Rattle.types_core.specs.Bits.{bit_form, bits_bytes, first_unused, is_clean, is_one};
ghost use Rattle.types_core.specs.Bits.{order_at, order_named, spare_bits, store_at};

use crate::definition::TypeDef;
use crate::kind::IntegerWidth;
use crate::primitive::Primitive;
use crate::type_id::TypeId;
use crate::type_info::TypeInfo;

/// The order in which bits stand in a word.
#[derive(Clone, Copy, Debug, PartialEq, Eq)]
pub enum BitOrder {
    /// Bit i of a word has the value 2^i.
    Lsb0,
    /// Bit i of a word of w bits has the value 2^(w - 1 - i).
    Msb0,
}

/// How a bit sequence is read: in words of this width, little-endian, whose bits have this order.
#[derive(Clone, Copy, Debug, PartialEq, Eq)]
pub struct BitForm {
    /// The width of a word, 8 to 64 bits.
    pub store: IntegerWidth,
    pub order: BitOrder,
}

impl BitForm {
    /// Returns how many bytes the words of this many bits have.
    pub fn bytes(self, count: u32) -> usize
        ensures exact { result ≡ bits_bytes self count }
        ensures bound { result < 2 ^ 32 }
    {
        let word = self.store.bytes();
        (count as usize).div_ceil(8 * word) * word
    }

    /// Returns how many bits of the words of this many bits are unused.
    pub fn unused(self, count: u32) -> u8
        ensures exact { result ≡ 8 * bits_bytes self count - count }
        ensures cover { count ≤ 8 * bits_bytes self count }
    {
        (8 * self.bytes(count)).saturating_sub(count as usize) as u8
    }

    /// Returns how many bits of the byte at a place stand for none of this many bits.
    fn spare(self, count: u32, place: usize) -> u32
        requires { place < bits_bytes self count }
        ensures exact { result ≡ spare_bits self count place }
        ensures bound { result ≤ 8 }
    {
        let end = 8 * (place + 1);
        match self.order {
            BitOrder::Lsb0 => end.saturating_sub(count as usize).min(8) as u32,
            BitOrder::Msb0 => {
                let len = self.bytes(count);
                let last = len.saturating_sub(self.store.bytes());
                if place < last {
                    return 0;
                }
                let over = (8 * len).saturating_sub(count as usize);
                over.saturating_sub(8 * (place - last)).min(8) as u32
            }
        }
    }

    /// Returns whether the bits of a byte that stand for none of this many bits are 0.
    fn is_clean(self, count: u32, place: usize, byte: u8) -> bool
        requires { place < bits_bytes self count }
        ensures { result ≡ is_clean self count place byte }
    {
        let spare = self.spare(count, place);
        match self.order {
            BitOrder::Lsb0 => u16::from(byte) < 2u16.pow(8 - spare),
            BitOrder::Msb0 => u16::from(byte) % 2u16.pow(spare) == 0,
        }
    }

    /// Returns how many of these bytes stand before the first one with an unused bit that is 1, if
    /// there is one. They are bytes of the words of `count` bits, from the byte at `from` on.
    pub fn unused_at(self, count: u32, from: usize, bytes: &[u8]) -> Option<usize>
        requires { from + length bytes.now ≤ bits_bytes self count }
        ensures { result ≡ first_unused self count from bytes.now }
    {
        'bytes: for (i, byte) in bytes.iter().enumerate() {
            if !self.is_clean(count, from + i, *byte) {
                return Some(i);
            }
        }
        None
    }

    /// Returns whether a bit is 1.
    pub fn bit(self, bytes: &[u8], bit: u32) -> bool
        ensures { result ≡ is_one self bytes.now bit }
    {
        let word = self.store.bytes();
        let bit = bit as usize;
        let (place, weight) = match self.order {
            BitOrder::Lsb0 => (bit / 8, bit % 8),
            BitOrder::Msb0 => {
                let in_word = bit % (8 * word);
                let place = bit / (8 * word) * word + (word - 1 - in_word / 8);
                (place, 7 - in_word % 8)
            }
        };
        match bytes.get(place) {
            Some(byte) => u16::from(*byte) / 2u16.pow(weight as u32) % 2 == 1,
            None => false,
        }
    }
}

/// Returns the width of the words that a type stores: those of u8, u16, u32 and u64 itself.
fn store_at(types: &[TypeInfo], id: TypeId) -> Option<IntegerWidth>
    ensures { result ≡ store_at types.now id.0 }
{
    match &types.get(id.0 as usize)?.shape {
        TypeDef::Primitive(Primitive::U8) => Some(IntegerWidth::Bits8),
        TypeDef::Primitive(Primitive::U16) => Some(IntegerWidth::Bits16),
        TypeDef::Primitive(Primitive::U32) => Some(IntegerWidth::Bits32),
        TypeDef::Primitive(Primitive::U64) => Some(IntegerWidth::Bits64),
        _ => None,
    }
}

/// Returns the order that a name stands for.
fn order_named(name: &str) -> Option<BitOrder>
    ensures { result ≡ order_named name.now }
{
    if name == "Lsb0" {
        Some(BitOrder::Lsb0)
    } else if name == "Msb0" {
        Some(BitOrder::Msb0)
    } else {
        None
    }
}

/// Returns the order that the last name of a composite without fields stands for.
fn order_at(types: &[TypeInfo], id: TypeId) -> Option<BitOrder>
    ensures { result ≡ order_at types.now id.0 }
{
    let info = types.get(id.0 as usize)?;
    match &info.shape {
        TypeDef::Composite(fields) if fields.len() == 0 => {
            order_named(info.path.as_slice().last()?.as_str())
        }
        _ => None,
    }
}

/// Returns how a bit sequence of this store and order is read, if both are known.
pub(crate) fn bit_form(types: &[TypeInfo], store: TypeId, order: TypeId) -> Option<BitForm>
    ensures { result ≡ bit_form types.now store.0 order.0 }
{
    Some(BitForm {
        store: store_at(types, store)?,
        order: order_at(types, order)?,
    })
}
