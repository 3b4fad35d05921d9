#![tactic(auto)]

//! Fields of the protobuf wire format, one at a time: the field at a place of a message's
//! body and the place behind it, or the first fault there.

mod fault;
mod field;
pub mod laws;
mod varint;

pub use fault::{WireFault, WireWhy};
pub use field::{Field, Value, next_field};
pub use varint::read_varint;
