// Worked examples of the formats that the kernels read and write.

use lane_kernels::{add_where, bits_to_docs, fits128, pack128, running128, unpack128, width128};
use std::process::Abort;

/// 0, and then 127 times 1: the gaps of the documents 0, 2, .., 254.
fn even_gaps() -> [u32; 128] {
    let mut gaps = [1u32; 128];
    gaps[0] = 0;
    gaps
}

/// The bytes of these gaps: each is its one bit.
const PACKED: [u8; 16] = [
    0xfe, 0xff, 0xff, 0xff, 0xff, 0xff, 0xff, 0xff, 0xff, 0xff, 0xff, 0xff, 0xff, 0xff, 0xff, 0xff,
];

#[test]
fn packs_every_second_document(rt: HostRuntime) {
    let gaps = even_gaps();
    let width = width128(&gaps);
    assert!(rt; width == 1);
    let mut block = [0u8; 16];
    pack128(&gaps, width, &mut block);
    assert!(rt; block == PACKED);

    let mut unpacked = [7u32; 128];
    unpack128(&block, width, &mut unpacked);
    assert!(rt; unpacked == gaps);
}

#[test]
fn sums_every_second_document(rt: HostRuntime) {
    let mut gaps = even_gaps();
    assert!(rt; !fits128(0, &gaps, 254));
    assert!(rt; fits128(0, &gaps, 255));
    running128(0, &mut gaps);
    for i in 0..128 {
        assert!(rt; gaps[i] == 2 * i as u32);
    }
}

#[test]
fn reads_a_bitmap(rt: HostRuntime) {
    let mut docs = [0u32; 128];
    assert!(rt; bits_to_docs(&[0x12, 0x01], 0, &mut docs) == 3);
    assert!(rt; docs[0] == 1 && docs[1] == 4 && docs[2] == 8);
}

/// Bits 0, 2 and 7 are set: their slots 0, 7 and 9 become 3, 10 and 12.
fn check_nears(rt: &impl Abort, rows: &[(u32, bool)]) {
    for (from, near) in rows {
        // Slot 1 is 5, but its bit is not set.
        let mut slots = [0, 5, 7, 0, 0, 0, 0, 9];
        assert!(rt; add_where(&mut slots, &[0b1000_0101], 3, *from) == *near);
        assert!(rt; slots == [3, 5, 10, 0, 0, 0, 0, 12]);
    }
}

#[test]
fn adds_where_bits_are_set(rt: HostRuntime) {
    check_nears(&rt, &[(5, false), (8, true), (11, true), (13, false)]);
}
