use mb_layout::{Chain, Dinode, Slot, Super, index_at, inode_block, inode_place, put_index};

/// Whether these bytes stand from a place on.
fn stand_at(block: &[u8; 512], at: usize, wanted: &[u8]) -> bool {
    match block.get(at..) {
        Some(rest) => rest.starts_with(wanted),
        None => false,
    }
}

/// Block 1 of a fresh volume of 100 blocks and 16 inodes, as far as its first free blocks.
fn fresh_super_block() -> [u8; 512] {
    let mut block = [0; 512];
    block[..16].copy_from_slice(&[
        0x04, 0x00, 0x00, 0x00, 0x64, 0x00, 0x2e, 0x00, 0x00, 0x00, 0x32, 0x00, 0x00, 0x00, 0x31,
        0x00,
    ]);
    block
}

/// Block 2 of that volume, with the root's inode.
fn fresh_inodes() -> [u8; 512] {
    let mut block = [0; 512];
    block[64..79].copy_from_slice(&[
        0xff, 0x41, 0x02, 0x00, 0x00, 0x00, 0x00, 0x00, 0x00, 0x00, 0x20, 0x00, 0x00, 0x04, 0x00,
    ]);
    block
}

fn is_fresh(block: &Super) -> bool {
    block.s_isize == 4
        && block.s_fsize == 100
        && block.s_nfree == 46
        && block.s_free[0] == 50
        && block.s_free[1] == 49
        && block.s_ninode == 0
}

#[test]
fn fresh_super_block_reads_field_by_field(rt: HostRuntime) {
    let fresh = Super::read(&fresh_super_block());
    assert!(rt; is_fresh(&fresh));
}

#[test]
fn super_block_writes_its_fields_and_keeps_the_rest(rt: HostRuntime) {
    let mut block = [0; 512];
    block[414] = 7;
    Super::read(&fresh_super_block()).write(&mut block);
    assert_eq!(rt; &block[..16], &fresh_super_block()[..16]);
    assert_eq!(rt; block[414], 7);
}

fn is_root(root: &Dinode) -> bool {
    root.mode == 0o040777
        && root.nlink == 2
        && root.uid == 0
        && root.gid == 0
        && root.size == 32
        && root.address(0) == 4
        && root.address(1) == 0
        && root.mtime == 0
}

#[test]
fn fresh_root_reads_field_by_field(rt: HostRuntime) {
    let root = Dinode::read(&fresh_inodes(), 1);
    assert!(rt; is_root(&root));
}

#[test]
fn dinode_writes_its_fields(rt: HostRuntime) {
    let mut root = Dinode::read(&[0; 512], 0);
    root.mode = 0o040777;
    root.nlink = 2;
    root.size = 32;
    root.set_address(0, 4);
    let mut block = [0; 512];
    root.write(&mut block, 1);
    assert_eq!(rt; block, fresh_inodes());
}

#[test]
fn directory_begins_with_its_own_slot(rt: HostRuntime) {
    let mut block = [0; 512];
    let mut name = [0; 14];
    name[0] = b'.';
    name[1] = b'.';
    Slot { ino: 2, name }.write(&mut block, 1);
    assert!(rt; stand_at(&block, 16, &[0x02, 0x00, 0x2e, 0x2e]));
    assert!(rt; Slot::read(&block, 1).name == name);
    assert!(rt; Slot::read(&block, 0).ino == 0);
}

#[test]
fn chain_and_index_blocks_hold_longs(rt: HostRuntime) {
    let mut block = [0; 512];
    let mut chain = Chain::read(&block);
    chain.count = 50;
    chain.list[49] = 0x0001_2345;
    chain.write(&mut block);
    assert!(rt; stand_at(&block, 0, &[50, 0]));
    assert!(rt; stand_at(&block, 198, &[0x01, 0x00, 0x45, 0x23]));
    put_index(&mut block, 127, 0x0001_2345);
    assert!(rt; stand_at(&block, 508, &[0x01, 0x00, 0x45, 0x23]));
    assert!(rt; index_at(&block, 127) == 0x0001_2345);
}

#[test]
fn inodes_stand_eight_in_a_block_from_block_2_on(rt: HostRuntime) {
    assert_eq!(rt;
        [1, 8, 9, 65_528].map(|ino| inode_block(ino)),
        [2, 2, 3, 8_192]
    );
    assert_eq!(rt; [1, 8, 9, 65_528].map(|ino| inode_place(ino)), [0, 7, 0, 7]);
}
