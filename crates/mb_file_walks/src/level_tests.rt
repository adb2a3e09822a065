use crate::volumes::{cost, fresh, put_on, read_on};
use mb_gathering::GatheredBlocks;
use std::process::Abort;
use std::test::Fail;

/// A part of a file, and how many blocks are in use once a byte stands in it, too.
struct Filled {
    part: u32,
    cost: u32,
}

/// One part after another, each before the ones that are there. Of the three numbers of a part under the triple index block,
/// 128 blocks of 128 blocks of 128 parts each, first the last one differs, then the middle one, then the first; of a part
/// under the double index block the last and then the first.
const PARTS: [Filled; 10] = [
    // the triple index block, two below it, and the part; the root has one block
    Filled {
        part: 16_522 + 16_384 + 128 + 1,
        cost: 5,
    },
    Filled {
        part: 16_522 + 16_384 + 128,
        cost: 6,
    },
    Filled {
        part: 16_522 + 16_384,
        cost: 8,
    },
    Filled {
        part: 16_522,
        cost: 11,
    },
    // the double index block, one below it, and the part
    Filled {
        part: 138 + 128 + 1,
        cost: 14,
    },
    Filled {
        part: 138 + 128,
        cost: 15,
    },
    Filled {
        part: 138,
        cost: 17,
    },
    // the single index block and the part
    Filled {
        part: 10 + 1,
        cost: 19,
    },
    Filled { part: 10, cost: 20 },
    Filled { part: 9, cost: 21 },
];

/// A part of a file of which one byte is another than 0.
fn bytes_of_part(byte: u8) -> [u8; 512] {
    let mut bytes = [0; 512];
    bytes[7] = byte;
    bytes
}

/// Puts a byte into each part, which is a hole before.
fn fills<R: Abort + AllocGlobal>(rt: &R, disk: &mut GatheredBlocks) -> Result<(), Fail> {
    let mut byte = 0u8;
    for filled in &PARTS {
        let at = filled.part.saturating_mul(512);
        let before = read_on(rt.alloc(), disk, at, 512)?;
        assert!(rt; before.as_slice().iter().all(|byte| *byte == 0));
        byte = byte.saturating_add(1);
        let _ = put_on(rt.alloc(), disk, at.saturating_add(7), &[byte])?;
        assert_eq!(rt; cost(disk), filled.cost, "at part {}", filled.part);
    }
    Ok(())
}

/// Reads each part, which has its byte alone.
fn has_bytes<R: Abort + AllocGlobal>(rt: &R, disk: &GatheredBlocks) -> Result<(), Fail> {
    let mut byte = 0u8;
    for filled in &PARTS {
        byte = byte.saturating_add(1);
        let read = read_on(rt.alloc(), disk, filled.part.saturating_mul(512), 512)?;
        let there = read.as_slice();
        assert!(rt; there.len() >= 8, "at part {}", filled.part);
        assert!(rt;
            bytes_of_part(byte).starts_with(there),
            "at part {}",
            filled.part
        );
    }
    Ok(())
}

/// A hole reads as zeros whatever leads to it: an index block that is missing at any of its levels, or an empty place of one
/// that is there. A byte put into it takes just the blocks that are missing, and no other part changes.
#[test]
fn holes_at_every_level(rt: HostRuntime) -> Result<(), Fail> {
    let mut disk = fresh(rt.alloc())?;
    fills(&rt, &mut disk)?;
    has_bytes(&rt, &disk)
}
