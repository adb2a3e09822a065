ghost use Rattle.std.specs.Prelude.{◌<◌};

use crate::plain::{BLOCKS, FAILING, Page, Plain, put};
use mb_cache::{Cache, Flushed};
use mb_edge::{Bytes, Damage, Fails, MemDisk, Stroke};
use mb_iface::Changes;
use mb_kinds::NoMemory;
use rand_core::utils::NextWord;
use rand_pcg::Pcg32;
use std::alloc::Global;
use std::test::Fail;

const MOVES: u32 = 10000;

// A cache over a disk of ones.
fn over_disk(alloc: Global) -> Result<Cache<MemDisk>, Fail> {
    let image = Bytes::from_vec(vec![in alloc; 1; 6144]?);
    let mut failing = Vec::new(alloc);
    for count in 1..2001 {
        failing.push(count * FAILING)?;
    }
    let writes = Fails::from_vec(failing);
    let disk = MemDisk::new(
        alloc,
        image,
        12,
        Fails::new(alloc),
        Fails::new(alloc),
        writes,
    )?;
    match Cache::new(alloc, disk) {
        Ok(cache) => Ok(cache),
        Err(_disk) => Err(NoMemory.into()),
    }
}

fn random_page(random: &mut Pcg32) -> Page
    ensures { result.block < 12 }
{
    Page {
        block: random.next_word() % BLOCKS,
        byte: (random.next_word() % 256) as u8,
    }
}

fn install(
    alloc: Global,
    cache: &mut Cache<MemDisk>,
    plain: &mut Plain,
    random: &mut Pcg32,
) -> Result<(), Fail> {
    let mut asked = Vec::new(alloc);
    let mut changes = Changes::new(alloc);
    for _ in 0..3 {
        let page = random_page(random);
        put(&mut asked, page)?;
        changes.put(page.block, &[page.byte; 512])?;
    }
    cache.reserve(changes.len())?;
    cache.install(&changes);
    for page in asked.as_slice() {
        plain.install(*page)?;
    }
    Ok(())
}

fn damage(
    alloc: Global,
    cache: &mut Cache<MemDisk>,
    plain: &mut Plain,
    random: &mut Pcg32,
) -> Result<(), Fail> {
    let mut damage = Damage::new(alloc);
    let nth = random.next_word() % 4;
    let byte = (random.next_word() % 256) as u8;
    if nth == 0 {
        damage.push(Stroke::Wipe(byte))?;
        plain.wipe(byte);
    }
    let bytes = [byte.wrapping_add(1); 512];
    damage.push(Stroke::Page { nth, bytes })?;
    plain.replace(nth as usize, byte.wrapping_add(1));
    cache.damage(&damage);
    Ok(())
}

// Whether a write-back came to what it must.
fn flush(cache: &mut Cache<MemDisk>, plain: &mut Plain) -> bool {
    let flushed = cache.flush_one();
    if plain.sealed.is_empty() {
        return flushed == Flushed::Clean;
    }
    plain.writes = plain.writes.saturating_add(1);
    if plain.writes % FAILING == 0 {
        return flushed == Flushed::Device;
    }
    plain.write_back();
    flushed == Flushed::One
}

// One move of both. Returns whether the cache answered as it must.
fn step(
    alloc: Global,
    cache: &mut Cache<MemDisk>,
    plain: &mut Plain,
    random: &mut Pcg32,
) -> Result<bool, Fail> {
    match random.next_word() % 16 {
        0 => {
            cache.seal();
            plain.seal(alloc)?;
        }
        1 => {
            cache.drop_current();
            plain.current.clear();
        }
        2 | 3 | 4 | 5 => return Ok(flush(cache, plain)),
        6 => damage(alloc, cache, plain, random)?,
        7 => cache.forget_clean(),
        _ => install(alloc, cache, plain, random)?,
    }
    Ok(true)
}

// Whether each block is seen alike, and has the same stamp.
fn agrees(cache: &mut Cache<MemDisk>, plain: &Plain) -> bool {
    let mut bytes = [0; 512];
    for block in 0..BLOCKS {
        let read = cache.read(block, &mut bytes);
        if read.is_err() || bytes != plain.seen(block) || cache.stamp(block) != plain.stamp(block) {
            return false;
        }
    }
    true
}

// Moves both, and then writes every page back. Returns the number of the first move after which they differ.
fn walk(alloc: Global, cache: &mut Cache<MemDisk>, plain: &mut Plain) -> Result<Option<u32>, Fail> {
    let mut random = Pcg32::new(42, 54);
    for number in 0..MOVES {
        let answered = step(alloc, cache, plain, &mut random)?;
        if !answered || !agrees(cache, plain) {
            return Ok(Some(number));
        }
    }
    cache.seal();
    plain.seal(alloc)?;
    for _ in 0..2 * BLOCKS {
        if !flush(cache, plain) {
            return Ok(Some(MOVES));
        }
    }
    Ok(None)
}

fn is_written(disk: &MemDisk, plain: &Plain) -> bool {
    for (at, byte) in disk.bytes().iter().enumerate() {
        if plain.disk.get(at / 512) != Some(byte) {
            return false;
        }
    }
    plain.sealed.is_empty()
}

#[test]
fn moves_agree_with_plain_lists(rt: HostRuntime) -> Result<(), Fail> {
    let mut plain = Plain::new(rt.alloc())?;
    let mut cache = over_disk(rt.alloc())?;
    let differ = walk(rt.alloc(), &mut cache, &mut plain);
    let disk = cache.into_disk();
    assert_eq!(rt; differ?, None);
    assert!(rt; is_written(&disk, &plain));
    Ok(())
}
