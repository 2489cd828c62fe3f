//! A table as it fills, and what stands in it then.

use crate::ValueTable;
use byte_values::{Change, KnownBytes};
use std::test::Fail;

/// Words so far apart have their lists on one shelf: 449 is 7 * 64 + 1, and 449 + 9 * 7 is 2 * 256.
const APART: u32 = 449;

/// Bytes that are all known.
fn all_known(value: u64) -> KnownBytes {
    KnownBytes { value, lanes: 0xff }
}

/// Of nine words of one shelf the last finds no place, until one is released. What the lost request gave nobody knows then.
#[test]
fn ninth_word_is_lost(rt: HostRuntime) -> Result<(), Fail> {
    let mut table = ValueTable::new(rt.alloc())?;
    for k in 0..8u32 {
        assert!(rt; table.begin(k * APART, 1, 1, all_known(0), 1), "word {k}");
    }
    let ninth = 8 * APART;
    assert!(rt; !table.has_room(ninth));
    assert!(rt; !table.begin(ninth, 9, 1, all_known(0), 1));
    assert_eq!(rt; table.lost(), 9);
    assert!(rt; table.list(ninth).is_none());
    assert!(rt; table.has_room(1));
    assert_eq!(rt; table.beside(ninth, 3), Some(3 * APART));
    assert_eq!(rt; table.beside(ninth, 8), None);
    table.release(3 * APART);
    assert_eq!(rt; table.beside(ninth, 3), None);
    let half = KnownBytes {
        value: 0,
        lanes: 0x0f,
    };
    assert!(rt; table.begin(ninth, 10, 1, half, 9));
    let list = table.list(ninth).ok_or("no list stands")?;
    assert_eq!(rt; list.compared_lanes(11, 0xff), 0x0e);
    Ok(())
}

/// A Put alone on its word settles once it has ended, and not before.
#[test]
fn put_settles(rt: HostRuntime) -> Result<(), Fail> {
    let mut table = ValueTable::new(rt.alloc())?;
    assert!(rt; table.begin(5, 1, 1, all_known(0x1122), 1));
    table.change(
        5,
        Change::Gives {
            number: 1,
            lanes: 1,
            known: all_known(0x55),
        },
    );
    table.change(5, Change::Sure(1));
    table.prune(5, 1, 1);
    assert_eq!(rt; table.settled(5), None);
    table.change(5, Change::Ends(1, 1));
    table.prune(5, 2, 1);
    assert_eq!(rt; table.settled(5), Some(all_known(0x1155)));
    assert_eq!(rt; table.settled(6), None);
    Ok(())
}

/// After a reset what a Put gave may be told, or what was there.
#[test]
fn reset_cuts_off(rt: HostRuntime) -> Result<(), Fail> {
    let mut table = ValueTable::new(rt.alloc())?;
    assert!(rt; table.begin(5, 1, 1, all_known(2), 1));
    table.change(
        5,
        Change::Gives {
            number: 1,
            lanes: 1,
            known: all_known(3),
        },
    );
    table.reset(1);
    let list = table.list(5).ok_or("no list stands")?;
    assert_eq!(rt; list.wrong_lanes(2, 2, 1), 0);
    assert_eq!(rt; list.wrong_lanes(2, 3, 1), 0);
    assert_eq!(rt; list.wrong_lanes(2, 4, 1), 1);
    Ok(())
}
