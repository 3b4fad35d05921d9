ghost use Rattle.std.specs.Prelude.{◌≡◌, Some, OnOk, OnErr};
ghost use Rattle.jass_base.specs.CiffText.{canonical_ciff};
ghost use Rattle.jass_base.specs.CiffViews.{collection_data};
ghost use Rattle.jass_base.specs.Outside.{Sets, Puts, HasCause, content_there, others_told};
ghost use Rattle.jass_top.specs.Standing.{LeavesFront};

use ciff_write::write_collection;
use jass_base::{Cabinet, Collection, FileSink, WriteFault};

/// Makes a file the canonical spelling of a collection.
pub fn write_file<C: Cabinet>(
    collection: &Collection,
    files: &mut C,
    name: &str,
) -> Result<(), WriteFault>
    ensures ok { OnOk result (Sets (C.told files.old) (C.told files.new) name.now
        (canonical_ciff (collection_data collection.now))) }
    ensures err { OnErr result (LeavesFront (Some name.now) (C.told files.old) (C.told files.new)
        (canonical_ciff (collection_data collection.now))) }
    ensures cause { HasCause (C.write_faults files.old) (C.write_faults files.new) result }
{
    match files.create(name) {
        Ok(()) => {}
        Err(_) => return Err(WriteFault),
    }
    let mut sink = FileSink { files, name };
    let written = write_behind(collection, &mut sink);
    let FileSink { files: _, name: _ } = sink;
    match written {
        Ok(()) => Ok(()),
        Err(_) => Err(WriteFault),
    }
}

/// Puts the canonical spelling of a collection behind the content of a file.
fn write_behind<'a, C: Cabinet>(
    collection: &Collection,
    sink: &mut FileSink<'a, C>,
) -> Result<(), WriteFault>
    ensures same_reference { sink.new.files.ghost_name ≡ sink.old.files.ghost_name }
    ensures same_name { sink.new.name.now ≡ sink.old.name.now }
    ensures put { Puts (content_there (C.told sink.old.files.now) sink.old.name.now)
        (content_there (C.told sink.new.files.now) sink.old.name.now)
        (canonical_ciff (collection_data collection.now)) result }
    ensures cause { HasCause (C.write_faults sink.old.files.now) (C.write_faults sink.new.files.now) result }
    ensures others { others_told (C.told sink.new.files.now) sink.old.name.now
        ≡ others_told (C.told sink.old.files.now) sink.old.name.now }
{
    write_collection(collection, sink)
}
