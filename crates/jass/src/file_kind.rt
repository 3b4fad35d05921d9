use crate::host_cabinet::HostCabinet;
use jass_base::Cabinet;

/// What a file is by its first bytes; empty where they don't tell.
pub fn file_kind(files: &mut HostCabinet<'_>, name: &str) -> &'static str {
    let mut front = [0u8; 16];
    match files.read_at(name, 0, &mut front) {
        Ok(0) => "it is empty",
        Ok(_) => kind_of(&front),
        Err(_) => "",
    }
}

fn kind_of(front: &[u8]) -> &'static str {
    if front.starts_with(b"\x1f\x8b") {
        "it is compressed by gzip: unpack it first"
    } else if front.starts_with(b"BZh") {
        "it is compressed by bzip2: unpack it first"
    } else if front.starts_with(b"\xfd7zXZ") {
        "it is compressed by xz: unpack it first"
    } else if front.starts_with(b"\x28\xb5\x2f\xfd") {
        "it is compressed by zstd: unpack it first"
    } else if front.starts_with(b"PK\x03\x04") {
        "it is a zip archive: unpack it first"
    } else if front.starts_with(b"JASSIDX2") {
        "it begins as an index file does"
    } else if front.starts_with(b"JASSIDX1") {
        "it begins as an index file of version 1 does"
    } else if front.iter().all(|byte| is_printed(*byte)) {
        "it begins as a text does"
    } else {
        ""
    }
}

/// Whether a byte stands in texts of ASCII.
fn is_printed(byte: u8) -> bool {
    (byte >= 32 && byte < 127) || byte == 9 || byte == 10 || byte == 13
}
