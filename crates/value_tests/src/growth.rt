//! The capacity to which a full vector grows.

use crate::expect::same;
use growth_core::{make_room, make_room_ahead, make_room_to_end};
use std::test::Fail;

// Each row of the first table: the length, how many elements are needed, how many are expected, and
// the capacity. Of the second: the length, how many are expected, and the capacity. Of the third:
// the length, the greatest length, and the capacity.
#[test]
fn a_full_vector_grows_in_proportion(rt: HostRuntime) -> Result<(), Fail> {
    let needed = [
        (0, 1, None, 16),
        (0, 100, None, 100),
        (40, 1, None, 60),
        (40, 30, None, 70),
        (80_000, 1, None, 100_000),
        (0, 1, Some(3), 3),
        (0, 1, Some(100), 16),
        (40, 1, Some(0), 45),
        (40, 1, Some(20), 60),
        (40, 1, Some(120), 160),
        (40, 1, Some(2_147_483_648), 160),
    ];
    'needed: for (len, more, expected, capacity) in needed {
        let mut list = vec![in rt.alloc(); 7u8; len]?;
        make_room(&mut list, more, expected)?;
        same(&rt, (list.len(), list.capacity()), (len, capacity));
    }
    let ahead = [(40, 0, 45), (40, 20, 60), (40, 121, 160), (0, 100, 16)];
    'ahead: for (len, expected, capacity) in ahead {
        let mut list = vec![in rt.alloc(); 7u8; len]?;
        make_room_ahead(&mut list, expected)?;
        same(&rt, (len, list.capacity()), (len, capacity));
    }
    let ends = [(0, 3, 3), (0, 100, 16), (40, 50, 50), (40, 1000, 160)];
    'ends: for (len, end, capacity) in ends {
        let mut list = vec![in rt.alloc(); 7u8; len]?;
        make_room_to_end(&mut list, end)?;
        same(&rt, (len, list.capacity()), (len, capacity));
    }
    Ok(())
}
