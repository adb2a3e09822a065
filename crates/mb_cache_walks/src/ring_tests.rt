//! Examples, and moves against plain lists.
ghost use Rattle.std.specs.Prelude.{◌≡◌, ◌<◌, length};

use mb_frames::Rings;
use mb_kinds::NoMemory;
use rand_core::utils::NextWord;
use rand_pcg::Pcg32;
use std::alloc::Global;
use std::marker::Send;
use std::process::Abort;

// A page whose first bytes are the number.
fn numbered(number: u32) -> [u8; 512] {
    let mut bytes = [0; 512];
    bytes[..4].copy_from_slice(&number.to_le_bytes());
    bytes
}

fn is_numbered(bytes: Option<&[u8; 512]>, number: u32) -> bool {
    match bytes {
        Some(bytes) => *bytes == numbered(number),
        None => false,
    }
}

// Whether a page is that of a block, with a number.
fn is_of(page: Option<(u32, &[u8; 512])>, block: u32, number: u32) -> bool {
    match page {
        Some((at, bytes)) => at == block && *bytes == numbered(number),
        None => false,
    }
}

fn move_between(rt: &impl Abort, rings: &mut Rings) -> Result<(), NoMemory>
    requires { length rings.old.rings ≡ 2 }
{
    rings.reserve(4)?;
    let a = rings.put(0, 11, &numbered(1));
    let b = rings.put(0, 12, &numbered(2));
    let c = rings.put(0, 13, &numbered(3));
    let d = rings.put(1, 14, &numbered(4));
    rings.unlink(b);
    rings.splice(0, 1);
    assert!(rt; rings.page(0, 0).is_none());
    assert!(rt; is_numbered(rings.page(1, 0), 4));
    assert!(rt; is_numbered(rings.page(1, 1), 1));
    assert!(rt; is_numbered(rings.page(1, 2), 3));
    assert!(rt; rings.page(1, 3).is_none());
    assert_eq!(rt; rings.spare(9), 1);
    rings.write(&c, &numbered(5));
    assert!(rt; is_numbered(Some(rings.get(&a)), 1));
    assert!(rt; is_numbered(Some(rings.get(&c)), 5));
    assert!(rt; is_numbered(Some(rings.get(&d)), 4));
    rings.release(1);
    assert!(rt; rings.page(0, 0).is_none());
    assert!(rt; rings.page(1, 0).is_none());
    assert_eq!(rt; rings.spare(9), 4);
    Ok(())
}

#[test]
fn pages_move_between_rings(rt: HostRuntime) -> Result<(), NoMemory> {
    let mut rings = Rings::new(rt.alloc(), 2)?;
    move_between(&rt, &mut rings)
}

fn keep_blocks(rt: &impl Abort, rings: &mut Rings) -> Result<(), NoMemory>
    requires { length rings.old.rings ≡ 2 }
{
    assert!(rt; rings.first(0).is_none());
    assert!(rt; rings.last(0).is_none());
    rings.reserve(4)?;
    let a = rings.put(0, 11, &numbered(1));
    let b = rings.put(0, 12, &numbered(2));
    let c = rings.put(1, 13, &numbered(3));
    assert!(rt; is_of(rings.first(0), 11, 1));
    assert!(rt; is_of(rings.last(0), 12, 2));
    rings.fill(0, 7);
    assert!(rt; *rings.get(&a) == [7; 512]);
    assert!(rt; *rings.get(&b) == [7; 512]);
    assert!(rt; is_numbered(Some(rings.get(&c)), 3));
    rings.replace(0, 1, &numbered(4));
    rings.replace(0, 2, &numbered(5));
    assert!(rt; *rings.get(&a) == [7; 512]);
    rings.splice(0, 1);
    assert!(rt; is_of(rings.first(1), 13, 3));
    assert!(rt; is_of(rings.last(1), 12, 4));
    assert_eq!(rt; rings.block(&a), 11);
    rings.fill(0, 9);
    assert!(rt; is_of(rings.last(1), 12, 4));
    Ok(())
}

#[test]
fn pages_keep_their_blocks(rt: HostRuntime) -> Result<(), NoMemory> {
    let mut rings = Rings::new(rt.alloc(), 2)?;
    keep_blocks(&rt, &mut rings)
}

// Whether the ring holds the pages with these numbers.
fn agrees(rings: &Rings, ring: u32, numbers: &[u32]) -> bool
    requires { ring < length rings.now.rings }
{
    let mut index = 0;
    for number in numbers {
        if index == u32::MAX || !is_numbered(rings.page(ring, index), *number) {
            return false;
        }
        index += 1;
    }
    rings.page(ring, index).is_none()
}

// One move, of the rings and of the lists that stand for them.
fn step(
    alloc: Global,
    rings: &mut Rings,
    lists: &mut [Vec<u32>],
    random: &mut Pcg32,
    number: u32,
) -> Result<(), NoMemory>
    requires { length rings.old.rings ≡ 3 }
    ensures { length rings.new.rings ≡ 3 }
{
    rings.reserve(2)?;
    let ring = random.next_word() % 3;
    let other = random.next_word() % 3;
    let Some(list) = lists.get_mut(ring as usize) else {
        return Ok(());
    };
    match random.next_word() % 8 {
        0 => {
            rings.release(ring);
            list.clear();
        }
        1 => {
            if ring != other {
                rings.splice(ring, other);
                let moved = Vec::from_slice(alloc, list.as_slice())?;
                list.clear();
                if let Some(target) = lists.get_mut(other as usize) {
                    target.extend_from_slice(moved.as_slice())?;
                }
            }
        }
        2 | 3 => {
            let first = rings.put(ring, number, &numbered(number));
            let second = rings.put(ring, number, &numbered(0));
            rings.unlink(first);
            rings.write(&second, &numbered(number));
            list.push(number)?;
        }
        _ => {
            let _token = rings.put(ring, number, &numbered(number));
            list.push(number)?;
        }
    }
    Ok(())
}

#[test]
fn moves_agree_with_plain_lists(rt: HostRuntime) -> Result<(), NoMemory> {
    let alloc = rt.alloc();
    let mut rings = Rings::new(alloc, 3)?;
    let mut lists = vec![in alloc; Vec::new(alloc), Vec::new(alloc), Vec::new(alloc)]?;
    let mut random = Pcg32::new(42, 54);
    for number in 1..4000 {
        step(alloc, &mut rings, lists.as_mut_slice(), &mut random, number)?;
        if number % 40 == 0 {
            for ring in 0..3 {
                let list = lists.get(ring as usize);
                let is_same = match list {
                    Some(list) => agrees(&rings, ring, list.as_slice()),
                    None => false,
                };
                assert!(rt; is_same, "ring {ring} after move {number}");
            }
        }
    }
    Ok(())
}

fn may_cross<T: Send>(value: T) -> T
    ensures { result ≡ value }
{
    value
}

#[test]
fn rings_and_tokens_may_cross_threads(rt: HostRuntime) -> Result<(), NoMemory> {
    let mut rings = Rings::new(rt.alloc(), 1)?;
    rings.reserve(1)?;
    let token = may_cross(rings.put(0, 11, &numbered(1)));
    let rings = may_cross(rings);
    assert!(rt; is_numbered(Some(rings.get(&token)), 1));
    Ok(())
}
