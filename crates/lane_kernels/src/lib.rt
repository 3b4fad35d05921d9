// The kernels of the posting decoders, each over a fixed number of lanes: blocks of packed
// numbers, running sums of gaps, bitmaps and what is added where their bits are set, and searches
// for a zero. None takes memory or fails.
#![tactic(auto)]

mod adding;
mod bitmap;
mod bytes;
mod gaps;
mod lanes;
pub mod laws;
mod pack;
mod unpack;
mod width;
mod zeros;

pub use adding::add_where;
pub use bitmap::bits_to_docs;
pub use bytes::{small16, widen16};
pub use gaps::{fits128, running128};
pub use pack::pack128;
pub use unpack::unpack128;
pub use width::width128;
pub use zeros::{fill_zero, first_zero};
