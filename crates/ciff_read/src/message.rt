ghost use Rattle.ciff_read.specs.Private.Places.{ReadsMessage};

use crate::body::Body;
use crate::refusal::{CiffFault, CiffWhy, refused, refused_field};
use jass_base::limits::LONGEST_FILE;
use wire_fields::read_varint;

/// Reads the length of the message at a place.
pub fn read_length(bytes: &[u8], at: usize) -> Result<Body, CiffFault>
    ensures { ReadsMessage bytes.now at result }
{
    let (length, from) = match read_varint(bytes, at) {
        Ok(read) => read,
        Err(fault) => return Err(refused_field(fault)),
    };
    if from as u64 > LONGEST_FILE || length > LONGEST_FILE - from as u64 {
        return Err(refused(at, CiffWhy::Limit));
    }
    if length > (bytes.len() - from) as u64 {
        return Err(refused(at, CiffWhy::Cut));
    }
    Ok(Body {
        from,
        end: from + length as usize,
    })
}
