use crate::volumes::{Figures, Patch, all_broken, all_kept, broken, keeps, named};
use std::test::Fail;

/// A regular file in inode 3, without a name.
const FILE: Patch = (2, 129, 0x80);

// The figures with that file.
fn nameless(held: u32, free: u32) -> Figures {
    Figures {
        nodes: 2,
        held,
        free,
        nameless: 1,
    }
}

#[test]
fn modes_have_a_kind(rt: HostRuntime) -> Result<(), Fail> {
    let broken = [
        ([(2, 129, 0x10)].as_slice(), 2, 5),
        (&[(2, 1, 0x10)], 2, 5),
        (&[(3, 1, 0x10)], 3, 5),
    ];
    all_broken(&rt, &broken)?;
    let kept = [
        ([FILE].as_slice(), nameless(1, 95)),
        (&[(2, 129, 0x20)], nameless(1, 95)),
        (&[(2, 129, 0x60)], nameless(1, 95)),
        (&[(2, 1, 0x80)], named(2, 1, 95)),
    ];
    all_kept(&rt, &kept)
}

#[test]
fn addresses_of_files_are_open(rt: HostRuntime) -> Result<(), Fail> {
    let broken = [
        ([(2, 77, 3)].as_slice(), 2, 6),
        (&[(2, 77, 100)], 2, 6),
        (&[(2, 77, 5)], 5, 7),
        (&[FILE, (2, 141, 4)], 4, 7),
    ];
    all_broken(&rt, &broken)?;
    keeps(&rt, &[FILE, (1, 6, 45), (2, 141, 5)], nameless(2, 94))
}

#[test]
fn index_blocks_hold_an_address(rt: HostRuntime) -> Result<(), Fail> {
    let broken = [
        ([FILE, (1, 6, 45), (2, 171, 5)].as_slice(), 5, 6),
        (&[FILE, (1, 6, 45), (2, 171, 5), (5, 2, 6)], 6, 7),
        (&[FILE, (1, 6, 45), (2, 171, 5), (5, 2, 3)], 5, 6),
    ];
    all_broken(&rt, &broken)?;
    keeps(
        &rt,
        &[FILE, (1, 6, 44), (2, 171, 5), (5, 510, 6)],
        nameless(3, 93),
    )
}

#[test]
fn double_and_triple_index_blocks_are_gone_through(rt: HostRuntime) -> Result<(), Fail> {
    let broken = [
        ([FILE, (1, 6, 44), (2, 174, 5), (5, 2, 6)].as_slice(), 6, 6),
        (&[FILE, (1, 6, 43), (2, 177, 5), (5, 2, 6), (6, 2, 7)], 7, 6),
    ];
    all_broken(&rt, &broken)?;
    let kept = [
        (
            [FILE, (1, 6, 43), (2, 174, 5), (5, 2, 6), (6, 2, 7)].as_slice(),
            nameless(4, 92),
        ),
        (
            &[
                FILE,
                (1, 6, 42),
                (2, 177, 5),
                (5, 2, 6),
                (6, 2, 7),
                (7, 2, 8),
            ],
            nameless(5, 91),
        ),
    ];
    all_kept(&rt, &kept)
}

#[test]
fn sizes_of_files_are_in_their_range(rt: HostRuntime) -> Result<(), Fail> {
    let most = [FILE, (2, 136, 0x81), (2, 137, 0x40), (2, 139, 0x14)];
    keeps(&rt, &most, nameless(1, 95))?;
    let [a, b, c, d] = most;
    broken(&rt, &[a, b, c, d, (2, 138, 1)], 2, 8)
}

#[test]
fn parts_of_directories_are_those_below_the_size(rt: HostRuntime) -> Result<(), Fail> {
    let broken = [
        ([(2, 74, 16)].as_slice(), 2, 8),
        (&[(2, 74, 40)], 2, 8),
        (&[(2, 74, 16), (2, 75, 2)], 2, 8),
        (&[(1, 6, 45), (2, 80, 5)], 2, 8),
        (&[(1, 6, 45), (2, 74, 16), (2, 75, 2), (2, 83, 5)], 2, 8),
    ];
    all_broken(&rt, &broken)?;
    let kept = [
        ([(2, 74, 48)].as_slice(), named(1, 1, 95)),
        (&[(2, 74, 0), (2, 75, 2)], named(1, 1, 95)),
        (
            &[(1, 6, 45), (2, 74, 16), (2, 75, 2), (2, 80, 5)],
            named(1, 2, 94),
        ),
    ];
    all_kept(&rt, &kept)
}

#[test]
fn the_root_is_a_directory(rt: HostRuntime) -> Result<(), Fail> {
    broken(&rt, &[(2, 65, 0x81)], 2, 9)?;
    broken(&rt, &[(2, 64, 0), (2, 65, 0)], 2, 9)
}
