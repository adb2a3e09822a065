use crate::volumes::{Patch, all_broken, all_kept, keeps, named};
use std::test::Fail;

/// The root has a third slot.
const THIRD: Patch = (2, 74, 48);

#[test]
fn slots_lead_to_inodes_in_use(rt: HostRuntime) -> Result<(), Fail> {
    let broken = [
        ([(4, 16, 3)].as_slice(), 4, 10),
        (&[(4, 16, 1)], 4, 10),
        (&[(2, 1, 0x80), (4, 16, 1)], 4, 10),
        (&[THIRD, (4, 32, 17), (4, 34, 97)], 4, 10),
        (&[THIRD, (4, 33, 1), (4, 34, 97)], 4, 10),
    ];
    all_broken(&rt, &broken)?;
    keeps(&rt, &[THIRD, (4, 34, 97)], named(1, 1, 95))
}

#[test]
fn the_first_two_slots_are_dots(rt: HostRuntime) -> Result<(), Fail> {
    let broken = [
        ([(4, 0, 3)].as_slice(), 4, 11),
        (&[(4, 2, 97)], 4, 11),
        (&[(4, 3, 46)], 4, 11),
        (&[(4, 16, 0)], 4, 11),
        (&[(4, 19, 0)], 4, 11),
        (&[(4, 20, 46)], 4, 11),
        (&[THIRD, (4, 32, 2), (4, 34, 46)], 4, 11),
    ];
    all_broken(&rt, &broken)?;
    keeps(&rt, &[THIRD, (4, 34, 46)], named(1, 1, 95))
}

#[test]
fn names_are_names_and_stand_once(rt: HostRuntime) -> Result<(), Fail> {
    let broken = [
        ([THIRD, (4, 32, 2)].as_slice(), 4, 12),
        (&[THIRD, (4, 32, 2), (4, 34, 97), (4, 35, 47)], 4, 12),
        (&[THIRD, (4, 32, 2), (4, 34, 97), (4, 47, 97)], 4, 12),
        (&[THIRD, (4, 32, 2), (4, 34, 97)], 2, 13),
    ];
    all_broken(&rt, &broken)
}

/// Inode 3 is a regular file, which the root's third slot names `a`.
const FILE: [Patch; 4] = [(2, 129, 0x80), (2, 130, 1), (4, 32, 3), (4, 34, 97)];

#[test]
fn a_second_slot_of_one_name_is_found(rt: HostRuntime) -> Result<(), Fail> {
    let [a, b, c, d] = FILE;
    let same = [(2, 74, 64), a, b, c, d, (4, 48, 3), (4, 50, 97)];
    let other = [(2, 74, 64), a, b, c, d, (4, 48, 3), (4, 50, 98)];
    all_broken(&rt, &[(same.as_slice(), 4, 12), (other.as_slice(), 2, 14)])?;
    let one = [THIRD, a, b, c, d];
    let two = [(2, 74, 64), a, (2, 130, 2), c, d, (4, 48, 3), (4, 50, 98)];
    let figures = named(2, 1, 95);
    all_kept(&rt, &[(one.as_slice(), figures), (two.as_slice(), figures)])
}
