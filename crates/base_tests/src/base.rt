// Each call that takes memory, once where there is enough, a feed one of whose reads fails, and gaps with their bytes.

use jass_base::{
    Cabinet, Feed, MemCabinet, MemFeed, NoMemory, PayloadFault, Row, Text, known_gap, put_gap,
    read_gap,
};
use std::alloc::Global;
use std::process::Abort;

/// The bytes `abc`, by one call that takes several and one that takes one.
fn letters(alloc: Global) -> Result<Row<u8>, NoMemory> {
    let mut row = Row::new(alloc);
    row.extend(b"ab")?;
    match row.push(b'c') {
        Ok(()) => Ok(row),
        Err((_, refused)) => Err(refused),
    }
}

fn filled(alloc: Global) -> Result<(), NoMemory> {
    let text = Text::from_str(alloc, "b.ciff")?;
    let row = letters(alloc)?;
    let mut files = MemCabinet::new(alloc, Row::new(alloc), Row::new(alloc));
    files.store(text.as_str(), row.as_slice())
}

#[test]
fn memory_that_is_there_is_taken(rt: HostRuntime) {
    assert!(&rt; filled(rt.alloc()).is_ok());
}

/// Six bytes, in a feed whose second read fails.
fn six_bytes(alloc: Global) -> Result<MemFeed, NoMemory> {
    let mut bytes = Row::new(alloc);
    bytes.extend(b"abcdef")?;
    let mut bad = Row::new(alloc);
    bad.extend(&[1])?;
    Ok(MemFeed::new(bytes, bad))
}

/// How many bytes are read, and which, where the read doesn't fail.
const READS: [(Option<usize>, &[u8]); 4] = [
    (Some(4), b"abcd"),
    (None, b""),
    (Some(2), b"ef"),
    (Some(0), b""),
];

/// Each read into four bytes gives what stands in its row.
fn check_reads(rt: &impl Abort, feed: &mut MemFeed, rows: &[(Option<usize>, &[u8])]) {
    let mut buf = [0u8; 4];
    for (count, front) in rows {
        assert!(rt; feed.read(&mut buf).ok() == *count && buf.starts_with(front));
    }
}

#[test]
fn a_feed_fails_where_it_is_told(rt: HostRuntime) {
    let Ok(mut feed) = six_bytes(rt.alloc()) else {
        panic!(&rt; "no memory")
    };
    check_reads(&rt, &mut feed, &READS);
}

/// Three gaps of one, four and five bytes.
fn three_gaps(alloc: Global) -> Result<Row<u8>, NoMemory> {
    let mut row = Row::new(alloc);
    put_gap(0, &mut row)?;
    put_gap(67_108_735, &mut row)?;
    put_gap(u32::MAX, &mut row)?;
    Ok(row)
}

const THREE_GAPS: [u8; 10] = [0x00, 0xff, 0xfe, 0xff, 0x1f, 0xff, 0xff, 0xff, 0xff, 0x0f];

#[test]
fn gaps_are_spelled(rt: HostRuntime) {
    let Ok(row) = three_gaps(rt.alloc()) else {
        panic!(&rt; "no memory")
    };
    assert!(&rt; row.as_slice() == THREE_GAPS.as_slice());
}

/// Bytes, and the gap at their front with the place behind it.
type GapRow<'a> = (&'a [u8], Result<(u32, usize), PayloadFault>);

const GAPS: [GapRow<'static>; 7] = [
    (&[0x05], Ok((5, 1))),
    (&[0xff, 0xfe, 0xff, 0x1f], Ok((67_108_735, 4))),
    (&[], Err(PayloadFault::Cut)),
    (&[0x80, 0x80, 0x80], Err(PayloadFault::Cut)),
    (&[0x80, 0x00], Err(PayloadFault::Shape)),
    (&[0x80, 0x80, 0x80, 0x80], Err(PayloadFault::Shape)),
    (&[0xff, 0xff, 0xff, 0xff, 0x01], Err(PayloadFault::Shape)),
];

/// The bytes are read as stands in each row, and known gaps give the same.
fn check_gaps(rt: &impl Abort, rows: &[GapRow<'_>]) {
    for (bytes, read) in rows {
        let found = read_gap(bytes, 0);
        assert!(rt; found == *read);
        if let Ok(known) = found {
            assert!(rt; known_gap(bytes, 0) == known);
        }
    }
}

#[test]
fn gaps_are_read(rt: HostRuntime) {
    check_gaps(&rt, &GAPS);
}
