//! Examples of two layers of pages.
use mb_kinds::NoMemory;
use mb_layers::Layers;
use std::process::Abort;

// A page whose first bytes are the number.
fn numbered(number: u32) -> [u8; 512] {
    let mut bytes = [0; 512];
    bytes[..4].copy_from_slice(&number.to_le_bytes());
    bytes
}

// Whether a page is the one with a number.
fn is_page(page: Option<&[u8; 512]>, number: u32) -> bool {
    match page {
        Some(bytes) => *bytes == numbered(number),
        None => false,
    }
}

// Whether a page is that of a block, with a number.
fn is_sealed(page: Option<(u32, &[u8; 512])>, block: u32, number: u32) -> bool {
    match page {
        Some((at, bytes)) => at == block && *bytes == numbered(number),
        None => false,
    }
}

fn lie_over(rt: &impl Abort, layers: &mut Layers) -> Result<(), NoMemory> {
    layers.reserve(4)?;
    layers.put(7, &numbered(1));
    layers.put(8, &numbered(2));
    layers.put(7, &numbered(3));
    assert!(rt; is_page(layers.get(7), 3));
    layers.seal();
    assert!(rt; is_sealed(layers.first_sealed(), 7, 3));
    assert!(rt; is_sealed(layers.last_sealed(), 8, 2));
    layers.put(7, &numbered(4));
    assert!(rt; is_page(layers.get(7), 4));
    layers.seal();
    assert!(rt; is_sealed(layers.first_sealed(), 8, 2));
    assert!(rt; is_sealed(layers.last_sealed(), 7, 4));
    layers.drop_sealed(7);
    assert!(rt; layers.get(7).is_none());
    assert!(rt; is_sealed(layers.last_sealed(), 8, 2));
    layers.drop_sealed(9);
    layers.drop_sealed(8);
    assert!(rt; layers.last_sealed().is_none());
    Ok(())
}

#[test]
fn current_pages_lie_over_sealed_ones(rt: HostRuntime) -> Result<(), NoMemory> {
    let mut layers = Layers::new(rt.alloc())?;
    lie_over(&rt, &mut layers)
}

fn drop(rt: &impl Abort, layers: &mut Layers) -> Result<(), NoMemory> {
    layers.reserve(8)?;
    layers.put(1, &numbered(1));
    layers.put(2, &numbered(2));
    layers.seal();
    layers.put(2, &numbered(3));
    layers.put(3, &numbered(4));
    layers.drop_current();
    assert!(rt; is_page(layers.get(1), 1));
    assert!(rt; is_page(layers.get(2), 2));
    assert!(rt; layers.get(3).is_none());
    layers.put(3, &numbered(5));
    layers.put(2, &numbered(6));
    layers.drop_sealed(2);
    layers.seal();
    assert!(rt; is_page(layers.get(2), 6));
    assert!(rt; is_page(layers.get(3), 5));
    assert!(rt; is_sealed(layers.first_sealed(), 1, 1));
    assert!(rt; is_sealed(layers.last_sealed(), 2, 6));
    Ok(())
}

#[test]
fn dropped_pages_show_the_sealed_ones(rt: HostRuntime) -> Result<(), NoMemory> {
    let mut layers = Layers::new(rt.alloc())?;
    drop(&rt, &mut layers)
}

fn strike(rt: &impl Abort, layers: &mut Layers) -> Result<(), NoMemory> {
    layers.reserve(4)?;
    layers.put(1, &numbered(1));
    layers.seal();
    layers.put(2, &numbered(2));
    layers.put(3, &numbered(3));
    layers.wipe(9);
    layers.replace(1, &numbered(4));
    layers.replace(2, &numbered(5));
    assert!(rt; is_page(layers.get(1), 1));
    assert!(rt; layers.get(2) == Some(&[9; 512]));
    assert!(rt; is_page(layers.get(3), 4));
    Ok(())
}

#[test]
fn strokes_reach_the_current_pages_alone(rt: HostRuntime) -> Result<(), NoMemory> {
    let mut layers = Layers::new(rt.alloc())?;
    strike(&rt, &mut layers)
}
