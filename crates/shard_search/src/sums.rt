ghost use Rattle.std.specs.Prelude.{◌≡◌, ◌≤◌, ◌*◌, length};
ghost use Rattle.jass_base.specs.declared.limits.TheConstants.{MOST_DOCUMENTS, MOST_POSTINGS};
ghost use Rattle.shard_search.specs.Sums.{FitDocuments, FitPostings};

use crate::stop::ShardStop;
use index_file::IndexFile;
use jass_base::limits::{MOST_DOCUMENTS, MOST_POSTINGS};

/// Whether the parts have few enough documents.
pub(crate) fn check_documents(parts: &[IndexFile]) -> Result<(), ShardStop>
    requires few { length parts.now ≤ 16 }
    ensures { FitDocuments parts.now result }
{
    let mut sum = 0u64;
    'parts: for i in 0..parts.len() {
        sum += u64::from(parts[i].docs());
        if sum > u64::from(MOST_DOCUMENTS) {
            return Err(ShardStop::Documents {
                part: i as u32,
                sum,
            });
        }
    }
    Ok(())
}

/// Whether the parts have few enough postings.
pub(crate) fn check_postings(parts: &[IndexFile]) -> Result<(), ShardStop>
    requires few { length parts.now ≤ 16 }
    ensures { FitPostings parts.now result }
{
    let mut sum = 0u64;
    'parts: for i in 0..parts.len() {
        parts[i].is_checked();
        sum += parts[i].totals().postings;
        if sum > MOST_POSTINGS {
            return Err(ShardStop::Postings {
                part: i as u32,
                sum,
            });
        }
    }
    Ok(())
}
