#![tactic(auto)]

//! The two plain codecs of a segment's documents: their gaps as varints, and a bitmap. Of
//! each, the length and the bytes of a list's payload, the check of bytes that are to be a
//! payload, and a cursor that gives the documents in blocks.

pub mod bitmap;
pub mod varbyte;
