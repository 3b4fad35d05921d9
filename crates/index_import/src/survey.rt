ghost use Rattle.std.specs.Prelude.{◌≡◌, ◌≤◌, ◌⊎◌, [], length, IfErr, IfOk, IsErrOf, MatchResult, OnOk};
ghost use Rattle.jass_base.specs.Outside.{ForContent, IsMissing, Rose};
ghost use Rattle.ciff_read.specs.Plain.{IsPlain};
ghost use Rattle.ciff_read.specs.Walk.{Begins, IsOutside, KeepsRanges, StandsTold};
ghost use Rattle.index_import.specs.Private.OnlyReads.{OnlyReads};
ghost use Rattle.index_import.specs.Private.Surveying.{AreKept, EndsSurvey, IsReady, KeepsList, SurveyTold};
ghost use Rattle.jass_base.specs.declared.limits.TheConstants.{MOST_POSTINGS};

use crate::kept_docs::KeptDocs;
use crate::list_entry::ListEntry;
use ciff_read::laws::pieces_make_the_collection;
use ciff_read::{CiffFault, CiffWalk, Piece};
use jass_base::{Cabinet, NoMemory, PostingsList};
use std::alloc::Global;

/// How many postings are kept at the most, but for those of short lists.
const MOST_KEPT_POSTINGS: usize = 4_194_304;

/// What the first pass over a file keeps.
#[derive(Drop)]
pub(crate) struct Survey {
    pub walk: CiffWalk,
    /// The documents, in the order of the file.
    pub docs: KeptDocs,
    /// The lists that have postings, in the order of the file.
    pub lists: Vec<ListEntry>,
}

impl Survey {
    /// Keeps a list behind the others, where it has postings, and hands the memory of these back to
    /// the walk. The entry has them, too, where they are few or there is room for them; `room` tells
    /// for how many.
    #[inline(always)]
    fn keep_list(
        &mut self,
        alloc: Global,
        at: u64,
        list: PostingsList,
        room: &mut usize,
    ) -> Result<(), NoMemory>
        requires { length list.postings ≤ MOST_POSTINGS }
        ensures walk { self.new.walk ≡ self.old.walk }
        ensures docs { self.new.docs ≡ self.old.docs }
        ensures lists { OnOk result (KeepsList at list self.old.lists.items self.new.lists.items) }
    {
        if list.postings.is_empty() {
            return Ok(());
        }
        let (entry, postings) = ListEntry::new(alloc, at, list, *room);
        *room = room.saturating_sub(postings.len());
        self.walk.take_back(postings);
        self.lists.push(entry)?;
        Ok(())
    }

    /// Keeps the pieces of a file, of which none was read yet, to its end.
    fn read_pieces<C: Cabinet>(&mut self, alloc: Global, files: &mut C) -> Result<(), CiffFault>
        requires there { ¬ IsMissing (C.told files.old) self.old.walk.name }
        requires stands { StandsTold (C.told files.old) self.old.walk }
        requires begins { Begins self.old.walk.name self.old.walk }
        requires ranges { KeepsRanges self.old.walk }
        requires docs { self.old.docs ≡ [] }
        requires lists { self.old.lists.items ≡ [] }
        ensures ready { OnOk result (IsReady (C.told files.old) self.old.walk.name self.new.walk) }
        ensures kept { OnOk result (AreKept self.new.walk self.new.docs self.new.lists.items) }
        ensures plain { IfErr result IsPlain }
        ensures told { ForContent (C.told files.old) self.old.walk.name (λ content.
            EndsSurvey content self.new.walk self.new.docs self.new.lists.items result) }
        ensures reads { OnlyReads (C.told files.old) (C.told files.new) (C.read_faults files.old)
            (C.read_faults files.new) (C.write_faults files.old) (C.write_faults files.new) result }
    {
        pieces_make_the_collection();
        let mut room = MOST_KEPT_POSTINGS;
        'pieces: loop {
            let piece = match self.walk.next_piece(files) {
                Ok(piece) => piece,
                Err(fault) => return Err(fault),
            };
            match piece {
                Piece::Start {
                    header: _header,
                    ..
                } => {}
                Piece::List { at, list } => match self.keep_list(alloc, at, list, &mut room) {
                    Ok(()) => {}
                    Err(_) => return Err(CiffFault::NoMemory),
                },
                Piece::Doc { number, item } => match self.docs.push(number, item) {
                    Ok(()) => {}
                    Err(_) => return Err(CiffFault::NoMemory),
                },
                Piece::End => return Ok(()),
            }
        }
    }
}

/// Reads a file to its end, and judges it.
pub(crate) fn survey_file<C: Cabinet>(
    alloc: Global,
    files: &mut C,
    name: &str,
) -> Result<Survey, CiffFault>
    ensures ready { IfOk result (λ s. IsReady (C.told files.old) name.now s.walk) }
    ensures kept { IfOk result (λ s. AreKept s.walk s.docs s.lists.items) }
    ensures plain { IfErr result IsPlain }
    ensures told { SurveyTold (C.told files.old) name.now result }
    ensures missing { IsMissing (C.told files.old) name.now → MatchResult result (λ _. ⊥) IsOutside }
    ensures fault { IsErrOf result CiffFault.ReadFault
        → Rose (C.read_faults files.old) (C.read_faults files.new) ⊎ IsMissing (C.told files.old) name.now }
    ensures stays { C.told files.new ≡ C.told files.old }
    ensures later { C.read_faults files.old ≤ C.read_faults files.new }
    ensures others { C.write_faults files.old ≤ C.write_faults files.new }
{
    pieces_make_the_collection();
    let walk = CiffWalk::open(alloc, files, name)?;
    let mut survey = Survey {
        walk,
        docs: KeptDocs::new(alloc),
        lists: Vec::new(alloc),
    };
    match survey.read_pieces(alloc, files) {
        Ok(()) => Ok(survey),
        Err(fault) => {
            drop(survey);
            Err(fault)
        }
    }
}
