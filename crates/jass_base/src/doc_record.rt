ghost use Rattle.std.specs.Prelude.{◌<◌, ◌^◌};
ghost use Rattle.jass_base.specs.Limits.{IsName, IsText};

use crate::text::Text;

/// A document's name and its length in terms.
#[derive(Debug, Drop)]
pub struct DocRecord {
    /// 1 to 1,048,576 bytes, none at or below 0x20 and none 0x7F.
    pub name: Text,
    pub length: u32,
    pub ghost name_fits: { IsName name },
    pub ghost name_is_text: { IsText name },
    pub ghost length_in_range: { length < 2 ^ 31 },
}
