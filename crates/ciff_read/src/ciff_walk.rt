ghost use Rattle.std.specs.Prelude.{◌≡◌, ◌<◌, ◌≤◌, ◌⊎◌, length, true, Some, None, IfOk, IfErr, IsErrOf, MatchResult, OnErr, OnOk};
ghost use Rattle.jass_base.specs.CiffViews.{list_data};
ghost use Rattle.jass_base.specs.Lists.{HasDocsBelow};
ghost use Rattle.jass_base.specs.Outside.{Rose, IsMissing, ForContent};
ghost use Rattle.ciff_read.specs.Given.{PieceRanges, GivesTold, SameEnd};
ghost use Rattle.ciff_read.specs.Walk.{IsOutside, StandsTold, SameError, KeepsError};
ghost use Rattle.ciff_read.specs.Walk.{IsGiven, HasKept, HoldsList, FindsAgain, ChangesOnly, LeavesWalk};
ghost use Rattle.ciff_read.specs.Walk.{KeepsRanges, Opens, Begins};
ghost use Rattle.ciff_read.specs.Plain.{IsPlain};
ghost use Rattle.ciff_read.specs.Private.OnlyReads.{OnlyReads};
ghost use Rattle.ciff_read.specs.Private.Walk.{StaysHeld, LeavesOthers, ListGiven, IsListAgain, KeepsList};
ghost use Rattle.ciff_read.specs.Private.Walk.{LeavesFile, LeavesLists, LeavesPlace, DocGiven, MarksDoc, EndGiven, EndsAgain, StaysOver};

use crate::doc_set::DocSet;
use crate::kept_lists::{KeptLists, ListPlace};
use crate::piece::Piece;
use crate::reached_doc::reach_doc;
use crate::reached_header::reach_header;
use crate::reached_list::reach_list;
use crate::reaching::reach;
use crate::refusal::{CiffFault, CiffWhy, refused};
use jass_base::{Cabinet, DocRecord, Header, Posting, PostingsList, Row, Text};
use std::alloc::Global;
use std::marker::Model;
use whole_files::Window;

/// A CIFF file that is read piece by piece: the header, then one list at a time, then one
/// document's record at a time. It holds the bytes of one message, and keeps the term, the
/// place and the number of postings of each list that it has given, and the number of each
/// document.
#[derive(Drop)]
pub struct CiffWalk {
    alloc: Global,
    name: Text,
    window: Window,
    /// Until it is given.
    header: Option<Header>,
    lists: u32,
    docs: u32,
    /// The place of the next message.
    at: u64,
    kept: KeptLists,
    /// Which of them is read again next, where that is in their order.
    again: usize,
    /// The postings of the lists that were given.
    postings: u64,
    /// The numbers of the documents that were given, and how many these are.
    numbers: DocSet,
    given: u32,
    /// Whether the end was given.
    ended: bool,
    /// The error that was answered, and is answered again.
    answered: Option<CiffFault>,
    /// The memory of postings that were taken back.
    spare: Vec<Posting>,
}

impl Model for CiffWalk {
    ghost use Rattle.std.specs.Prelude.{◌≡◌};
    ghost use Rattle.std.specs.Option.{option_map};
    ghost use Rattle.jass_base.specs.CiffViews.{header_data};
    ghost use Rattle.ciff_read.specs.KeptLists.{kept_in};
    ghost use Rattle.ciff_read.specs.Walk.{WalkView};
    ghost use Rattle.ciff_read.specs.Private.Walk.{IsInRange};

    ghost Value = { WalkView };

    ghost view = { λ w. record {
      name = w.name;
      header = option_map header_data w.header;
      lists = w.lists;
      docs = w.docs;
      at = w.at;
      kept = kept_in w.kept;
      marks = w.numbers.words.items;
      given = w.given;
      ended = w.ended;
      answered = w.answered;
      start = w.window.start;
      bytes = w.window.bytes.items;
    } };

    ghost invariant = { λ w. IsInRange w.lists w.docs w.at w.given w.postings (kept_in w.kept) };
}

impl CiffWalk {
    /// Opens a walk over the file of a name, and reads the file's header. Memory may be
    /// refused instead.
    pub fn open<C: Cabinet>(alloc: Global, files: &mut C, name: &str) -> Result<CiffWalk, CiffFault>
        ensures begins { IfOk result (Begins name.now) }
        ensures opens { ForContent (C.told files.old) name.now (λ content. Opens content result) }
        ensures missing { IsMissing (C.told files.old) name.now → MatchResult result (λ _. ⊥) IsOutside }
        ensures ranges { IfOk result KeepsRanges }
        ensures plain { IfErr result IsPlain }
        ensures fault { IsErrOf result CiffFault.ReadFault
            → Rose (C.read_faults files.old) (C.read_faults files.new) ⊎ IsMissing (C.told files.old) name.now }
        ensures stays { C.told files.new ≡ C.told files.old }
        ensures later { C.read_faults files.old ≤ C.read_faults files.new }
        ensures others { C.write_faults files.old ≤ C.write_faults files.new }
    {
        let mut window = Window::new(alloc);
        reach(&mut window, files, name, 0, 1)?;
        let (head, at) = reach_header(alloc, &mut window, files, name)?;
        let Ok(name) = Text::from_str(alloc, name) else {
            return Err(CiffFault::NoMemory);
        };
        Ok(CiffWalk {
            alloc,
            name,
            window,
            header: Some(head.header),
            lists: head.lists,
            docs: head.docs,
            at,
            kept: KeptLists::new(alloc),
            again: 0,
            postings: 0,
            numbers: DocSet::new(alloc),
            given: 0,
            ended: false,
            answered: None,
            spare: Vec::new(alloc),
        })
    }

    /// Gives the next piece of the file, in the order of the file: the header, then the lists,
    /// then the documents' records. `End` comes once the file was read to its end, and again at
    /// each later call, without reading. After an error each later call answers the same error
    /// without reading.
    pub fn next_piece<C: Cabinet>(&mut self, files: &mut C) -> Result<Piece, CiffFault>
        requires there { IsMissing (C.told files.old) self.old.name → ⊥ }
        requires stands { StandsTold (C.told files.old) self.old }
        ensures told { GivesTold (C.told files.old) self.old self.new result }
        ensures stands { StandsTold (C.told files.old) self.new }
        ensures ranges { IfOk result (PieceRanges self.old self.new) }
        ensures within { KeepsRanges self.new }
        ensures ok { OnOk result (self.new.answered ≡ None) }
        ensures plain { IfErr result (λ fault. self.old.answered ≡ None → IsPlain fault) }
        ensures keeps { KeepsError self.new result }
        ensures same { SameError self.old self.new files.old files.new result }
        ensures ended { SameEnd self.old self.new files.old files.new result }
        ensures fault { IsErrOf result CiffFault.ReadFault
            → Rose (C.read_faults files.old) (C.read_faults files.new)
            ⊎ (self.old.answered ≡ Some CiffFault.ReadFault) }
        ensures stays { C.told files.new ≡ C.told files.old }
        ensures later { C.read_faults files.old ≤ C.read_faults files.new }
        ensures others { C.write_faults files.old ≤ C.write_faults files.new }
        ensures name { self.new.name ≡ self.old.name }
        ensures totals { (self.new.lists ≡ self.old.lists) × (self.new.docs ≡ self.old.docs) }
    {
        if let Some(fault) = self.answered {
            return Err(fault);
        }
        match self.read_piece(files) {
            Ok(piece) => Ok(piece),
            Err(fault) => {
                self.answered = Some(fault);
                Err(fault)
            }
        }
    }

    /// Reads a list again that was given, by the place that came with it. It may be called after
    /// `End`. Changed comes only where the list that is found has another number of postings than
    /// the one that was given, and says both numbers. After an error each later call answers the
    /// same error without reading.
    pub fn list_again<C: Cabinet>(
        &mut self,
        files: &mut C,
        at: u64,
    ) -> Result<PostingsList, CiffFault>
        requires there { IsMissing (C.told files.old) self.old.name → ⊥ }
        requires stands { StandsTold (C.told files.old) self.old }
        requires given { IsGiven self.old.kept at }
        ensures told { FindsAgain (C.told files.old) self.old at result }
        ensures stands { StandsTold (C.told files.old) self.new }
        ensures counted { IfOk result (λ list. HasKept self.old.kept at (length list.postings)) }
        ensures below { IfOk result (HasDocsBelow self.old.docs) }
        ensures holds { IfOk result (λ list. HoldsList self.new at (list_data list)) }
        ensures changed { IfErr result (λ fault. self.old.answered ≡ None → ChangesOnly self.new at fault) }
        ensures ok { OnOk result (self.new.answered ≡ None) }
        ensures keeps { KeepsError self.new result }
        ensures same { SameError self.old self.new files.old files.new result }
        ensures leaves { LeavesWalk self.old self.new }
        ensures fault { IsErrOf result CiffFault.ReadFault
            → Rose (C.read_faults files.old) (C.read_faults files.new)
            ⊎ (self.old.answered ≡ Some CiffFault.ReadFault) }
        ensures stays { C.told files.new ≡ C.told files.old }
        ensures later { C.read_faults files.old ≤ C.read_faults files.new }
        ensures others { C.write_faults files.old ≤ C.write_faults files.new }
    {
        if let Some(fault) = self.answered {
            return Err(fault);
        }
        match self.find_again(files, at) {
            Ok(list) => Ok(list),
            Err(fault) => {
                self.answered = Some(fault);
                Err(fault)
            }
        }
    }

    /// Takes the postings of a list back, once they are of no more use, so that their memory is
    /// that of a later list's.
    pub fn take_back(&mut self, postings: Row<Posting>)
        ensures { self.new ≡ self.old }
    {
        self.spare = postings.into_vec();
    }

    /// Reads the next piece of a walk that has answered no error.
    fn read_piece<C: Cabinet>(&mut self, files: &mut C) -> Result<Piece, CiffFault>
        ensures told { GivesTold (C.told files.old) self.old self.new result }
        ensures ranges { IfOk result (PieceRanges self.old self.new) }
        ensures plain { IfErr result IsPlain }
        ensures over { StaysOver (C.told files.old) self.old self.new }
        ensures ended { SameEnd self.old self.new files.old files.new result }
        ensures leaves { LeavesFile self.old self.new }
        ensures reads { OnlyReads (C.told files.old) (C.told files.new) self.old.name (C.read_faults files.old)
            (C.read_faults files.new) (C.write_faults files.old) (C.write_faults files.new) result }
    {
        match self.header.take() {
            Some(header) => Ok(Piece::Start {
                header,
                lists: self.lists,
                docs: self.docs,
            }),
            None => self.read_message(files),
        }
    }

    /// Reads the next piece behind the header.
    fn read_message<C: Cabinet>(&mut self, files: &mut C) -> Result<Piece, CiffFault>
        requires { self.old.header ≡ None }
        ensures told { GivesTold (C.told files.old) self.old self.new result }
        ensures ranges { IfOk result (PieceRanges self.old self.new) }
        ensures plain { IfErr result IsPlain }
        ensures over { StaysOver (C.told files.old) self.old self.new }
        ensures ended { SameEnd self.old self.new files.old files.new result }
        ensures leaves { LeavesFile self.old self.new }
        ensures reads { OnlyReads (C.told files.old) (C.told files.new) self.old.name (C.read_faults files.old)
            (C.read_faults files.new) (C.write_faults files.old) (C.write_faults files.new) result }
    {
        if (self.kept.len() as u64) < u64::from(self.lists) {
            let at = self.at;
            return match self.next_list(files) {
                Ok(list) => Ok(Piece::List { at, list }),
                Err(fault) => Err(fault),
            };
        }
        if self.given < self.docs {
            return match self.next_doc(files) {
                Ok((number, item)) => Ok(Piece::Doc { number, item }),
                Err(fault) => Err(fault),
            };
        }
        match self.at_last(files) {
            Ok(()) => Ok(Piece::End),
            Err(fault) => Err(fault),
        }
    }

    /// Reads a list again that was given, in a walk that has answered no error.
    fn find_again<C: Cabinet>(&mut self, files: &mut C, at: u64) -> Result<PostingsList, CiffFault>
        requires stands { StandsTold (C.told files.old) self.old }
        requires given { IsGiven self.old.kept at }
        ensures told { FindsAgain (C.told files.old) self.old at result }
        ensures counted { MatchResult result (IsListAgain self.new at) (ChangesOnly self.new at) }
        ensures held { StaysHeld (C.told files.old) self.old self.new }
        ensures leaves { LeavesWalk self.old self.new }
        ensures answered { self.new.answered ≡ self.old.answered }
        ensures reads { OnlyReads (C.told files.old) (C.told files.new) self.old.name (C.read_faults files.old)
            (C.read_faults files.new) (C.write_faults files.old) (C.write_faults files.new) result }
    {
        let (list, _end, _rises) = reach_list(
            self.alloc,
            &mut self.spare,
            &mut self.window,
            files,
            self.name.as_str(),
            at,
            self.docs,
            0,
            None,
        )?;
        let (count, index) = self.kept.count_at(at, self.again);
        self.again = index + 1;
        let kept = u64::from(count);
        let found = list.postings.len() as u64;
        if kept != found {
            return Err(refused(at as usize, CiffWhy::Changed { kept, found }));
        }
        Ok(list)
    }

    /// Gives the next list.
    fn next_list<C: Cabinet>(&mut self, files: &mut C) -> Result<PostingsList, CiffFault>
        requires { length self.old.kept < self.old.lists }
        ensures given { IfOk result (KeepsList self.old self.new) }
        ensures plain { IfErr result IsPlain }
        ensures exact { ListGiven (C.told files.old) self.old self.new result }
        ensures held { StaysHeld (C.told files.old) self.old self.new }
        ensures leaves { LeavesOthers self.old self.new }
        ensures reads { OnlyReads (C.told files.old) (C.told files.new) self.old.name (C.read_faults files.old)
            (C.read_faults files.new) (C.write_faults files.old) (C.write_faults files.new) result }
    {
        let at = self.at;
        let (list, end, rises) = reach_list(
            self.alloc,
            &mut self.spare,
            &mut self.window,
            files,
            self.name.as_str(),
            at,
            self.docs,
            self.postings,
            Some(&self.kept),
        )?;
        let count = list.postings.len() as u32;
        let place = ListPlace { at, count };
        match self.kept.add(self.alloc, list.term.as_str(), place, rises) {
            Ok(()) => {}
            Err(_) => return Err(CiffFault::NoMemory),
        }
        self.postings += u64::from(count);
        self.at = end;
        Ok(list)
    }

    /// Gives the next document's record with its number.
    fn next_doc<C: Cabinet>(&mut self, files: &mut C) -> Result<(u32, DocRecord), CiffFault>
        requires { self.old.given < self.old.docs }
        ensures given { IfOk result (MarksDoc self.old self.new) }
        ensures plain { IfErr result IsPlain }
        ensures stays { self.new.ended ≡ self.old.ended }
        ensures forward { self.old.at ≤ self.new.at }
        ensures exact { DocGiven (C.told files.old) self.old self.new result }
        ensures held { StaysHeld (C.told files.old) self.old self.new }
        ensures leaves { LeavesLists self.old self.new }
        ensures reads { OnlyReads (C.told files.old) (C.told files.new) self.old.name (C.read_faults files.old)
            (C.read_faults files.new) (C.write_faults files.old) (C.write_faults files.new) result }
    {
        let (number, item, end) = reach_doc(
            self.alloc,
            &mut self.window,
            files,
            self.name.as_str(),
            self.at,
            self.docs,
            &self.numbers,
        )?;
        match self.numbers.insert(number) {
            Ok(()) => {}
            Err(_) => return Err(CiffFault::NoMemory),
        }
        self.given += 1;
        self.at = end;
        Ok((number, item))
    }

    /// Sees to it that nothing is left behind the last message, unless that was seen before.
    fn at_last<C: Cabinet>(&mut self, files: &mut C) -> Result<(), CiffFault>
        ensures exact { EndGiven (C.told files.old) self.old result }
        ensures plain { IfErr result IsPlain }
        ensures ended { OnOk result (self.new.ended ≡ true) }
        ensures unended { OnErr result (self.new.ended ≡ self.old.ended) }
        ensures again { EndsAgain self.old self.new files.old files.new result }
        ensures held { StaysHeld (C.told files.old) self.old self.new }
        ensures leaves { LeavesLists self.old self.new }
        ensures place { LeavesPlace self.old self.new }
        ensures reads { OnlyReads (C.told files.old) (C.told files.new) self.old.name (C.read_faults files.old)
            (C.read_faults files.new) (C.write_faults files.old) (C.write_faults files.new) result }
    {
        if self.ended {
            return Ok(());
        }
        reach(&mut self.window, files, self.name.as_str(), self.at, 1)?;
        if self.window.bytes.len() > (self.at - self.window.start) as usize {
            return Err(refused(self.at as usize, CiffWhy::Trailing));
        }
        self.ended = true;
        Ok(())
    }
}
