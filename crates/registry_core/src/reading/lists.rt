//! Lists that grow with the elements that were read, and have no spare capacity when they are
//! complete.

ghost use Rattle.std.specs.Prelude.{◌≡◌, ◌<◌, ◌≤◌, ◌+◌, ◌*◌, ◌++◌, ◌∷◌, [], is_ok, if◌then◌else◌};
ghost use Rattle.std.specs.Prelude.{max, OnOk, vec_len, vec_capacity};

use growth_core::{Refused, make_room_to_end};

/// Appends the next element of a list that claims to have `count`.
///
/// A full list reserves capacity for three times as many further elements as it has, and for 16 at
/// first. It never reserves more than are to come.
///
/// # Errors
///
/// `Refused` if the allocation fails; the list keeps its elements.
#[inline(always)]
pub(crate) fn append<T: Drop>(list: &mut Vec<T>, count: u32, value: T) -> Result<(), Refused>
    ensures items { list.new.items
        ≡ (if is_ok result then list.old.items ++ value ∷ [] else list.old.items) }
    // The capacity is bounded by the elements that were read, and by the number that is claimed.
    ensures read { vec_capacity list.new
        ≤ max (vec_capacity list.old) (vec_len list.old + max 16 (3 * vec_len list.old)) }
    ensures claimed { vec_len list.old < count →
        vec_capacity list.new ≤ max (vec_capacity list.old) count }
{
    if list.capacity() <= list.len() {
        make_room_to_end(list, count as usize)?;
    }
    list.push_reserved(value);
    Ok(())
}
