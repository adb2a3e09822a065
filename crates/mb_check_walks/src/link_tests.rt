use crate::volumes::{Figures, Patch, all_broken, broken, changed, keeps, named};
use std::test::Fail;

/// Inode 3 is a directory in block 5 with its two slots, its parent the root.
const DIRECTORY: [Patch; 10] = [
    (1, 6, 45),
    (2, 129, 0x40),
    (2, 130, 2),
    (2, 138, 32),
    (2, 141, 5),
    (5, 0, 3),
    (5, 2, 46),
    (5, 16, 2),
    (5, 18, 46),
    (5, 19, 46),
];

/// The root names it `a`, in its third slot.
const NAMED: [Patch; 4] = [(2, 66, 3), (2, 74, 48), (4, 32, 3), (4, 34, 97)];

// The volume with that directory, and some bytes more.
fn with(rt: &HostRuntime, name: &[Patch], more: &[Patch]) -> Result<Vec<Patch>, Fail> {
    let mut patches = DIRECTORY.to_vec(rt.alloc())?;
    patches.extend_from_slice(name)?;
    patches.extend_from_slice(more)?;
    Ok(patches)
}

// The first rule that it breaks is that one, at block 2.
fn broken_with(rt: &HostRuntime, name: &[Patch], more: &[Patch], rule: u8) -> Result<(), Fail> {
    let patches = with(rt, name, more)?;
    broken(rt, &patches, 2, rule)
}

// It breaks no rule, and the figures are these.
fn keeps_with(
    rt: &HostRuntime,
    name: &[Patch],
    more: &[Patch],
    wanted: Figures,
) -> Result<(), Fail> {
    let patches = with(rt, name, more)?;
    keeps(rt, &patches, wanted)
}

#[test]
fn a_directory_has_its_parent(rt: HostRuntime) -> Result<(), Fail> {
    keeps_with(&rt, &NAMED, &[], named(2, 2, 94))?;
    broken_with(&rt, &[], &[], 13)?;
    broken_with(&rt, &NAMED, &[(5, 16, 3)], 13)?;
    broken_with(&rt, &NAMED, &[(2, 74, 64), (4, 48, 3), (4, 50, 98)], 13)
}

#[test]
fn a_directory_is_reached_from_the_root(rt: HostRuntime) -> Result<(), Fail> {
    let own = [(2, 138, 48), (5, 16, 3), (5, 32, 3), (5, 34, 97)];
    broken_with(&rt, &[], &own, 13)
}

#[test]
fn nothing_leads_to_the_root(rt: HostRuntime) -> Result<(), Fail> {
    broken_with(&rt, &NAMED, &[(2, 138, 48), (5, 32, 2), (5, 34, 97)], 13)
}

#[test]
fn link_counts_are_the_slots(rt: HostRuntime) -> Result<(), Fail> {
    let counts = [
        ([(2, 66, 3)].as_slice(), 2, 14),
        (&[(2, 66, 1)], 2, 14),
        (&[(2, 129, 0x80), (2, 130, 1)], 2, 14),
    ];
    all_broken(&rt, &counts)?;
    keeps(&rt, &[(2, 1, 0x80), (2, 2, 5)], named(2, 1, 95))?;
    broken_with(&rt, &NAMED, &[(2, 130, 1)], 14)?;
    broken_with(&rt, &NAMED, &[(2, 66, 2)], 14)
}

#[test]
fn a_file_without_a_name_is_told(rt: HostRuntime) -> Result<(), Fail> {
    match changed(rt.alloc(), &[(2, 129, 0x80), (2, 1, 0x80)])? {
        Ok(figures) => {
            assert_eq!(rt; figures.nodes, 3);
            assert_eq!(rt; figures.nameless, 1, "inode 1 is none");
            Ok(())
        }
        Err(_) => Err("a rule is broken in a volume".into()),
    }
}
