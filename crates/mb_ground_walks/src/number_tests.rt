use mb_word::{addr_at, long_at, put_addr, put_long, put_word, word_at};

#[test]
fn long_has_its_high_word_first(rt: HostRuntime) {
    let mut bytes = [0xff; 6];
    put_long(&mut bytes, 1, 0x0001_2345);
    assert_eq!(rt; bytes, [0xff, 0x01, 0x00, 0x45, 0x23, 0xff]);
    assert_eq!(rt; long_at(&bytes, 1), 0x0001_2345);
    assert_eq!(rt; word_at(&bytes, 3), 0x2345);
}

#[test]
fn address_has_its_high_byte_first(rt: HostRuntime) {
    let mut bytes = [0xff; 5];
    put_addr(&mut bytes, 1, 0x01_2345);
    assert_eq!(rt; bytes, [0xff, 0x01, 0x45, 0x23, 0xff]);
    assert_eq!(rt; addr_at(&bytes, 1), 0x01_2345);
    put_word(&mut bytes, 0, 0x0203);
    assert_eq!(rt; bytes, [0x03, 0x02, 0x45, 0x23, 0xff]);
}
