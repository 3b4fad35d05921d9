use crate::file_kind::file_kind;
use crate::host_cabinet::HostCabinet;
use crate::host_sink::HostSink;
use crate::refusal_advice::refusal_advice;
use crate::word_advice::{meaning_of_form, nearest, place_in_shards, wanted_at};
use jass_base::{Failed, Sink, read_decimal};
use jass_words::{Name, Row};
use std::alloc::Global;
use std::io;
use std::io::Write;

/// What more is said of a note at a terminal, and where.
#[derive(Drop)]
pub struct Advice<'a, W: Write + Drop> {
    /// Where it is put: behind the note.
    pub out: HostSink<W>,
    pub alloc: Global,
    /// The words of the command line.
    pub words: &'a [String],
    /// Why the host failed last, if it did.
    pub reason: Option<io::Error>,
}

impl<'a, W: Write + Drop> Advice<'a, W> {
    /// Says more of a note: what a person needs to go on.
    pub fn on(&mut self, note: &str, files: &mut HostCabinet<'_>) -> Result<(), Failed> {
        let Some((note, _)) = note.split_once('\n') else {
            return Ok(());
        };
        if let Some(place) = note.strip_prefix("word ") {
            return self.on_word(place);
        }
        if let Some((name, refusal)) = note.rsplit_once(": refusal ") {
            return self.on_refusal(name, refusal, files);
        }
        if note.ends_with(" fault") {
            return self.on_fault();
        }
        match note {
            "no memory" => self.line(&[
                "a smaller k, fewer frames or a smaller collection takes less",
            ]),
            "input limit" => self.line(&["send `end`, and start it anew"]),
            _ => Ok(()),
        }
    }

    /// What was wanted where the first bad word stands, which is counted from 1.
    fn on_word(&mut self, place: &str) -> Result<(), Failed> {
        let words = self.words;
        let place = read_decimal(place.as_bytes()).unwrap_or(0) as usize;
        match words.get(place.saturating_sub(1)) {
            Some(word) if word.len() < 200 => self.line(&["the word is ", word.as_str()])?,
            Some(_) => {}
            None => self.line(&["a word is missing"])?,
        }
        match words.first() {
            Some(word) if place > 1 => match Name::of(word.as_str()) {
                Some(name) => self.on_form(
                    name.row(),
                    self.place_in_form(name, place.saturating_sub(2)),
                ),
                None => self.on_name(word.as_str()),
            },
            Some(word) => self.on_name(word.as_str()),
            None => self.line(&["jass --help shows the commands"]),
        }
    }

    /// The place in the form of a command of the word at a place behind its name.
    fn place_in_form(&self, name: Name, place: usize) -> usize {
        match (name, self.words.get(1)) {
            (Name::Shards, Some(word)) => {
                let parts = read_decimal(word.as_bytes()).unwrap_or(2) as usize;
                place_in_shards(place, parts)
            }
            _ => place,
        }
    }

    /// The command that may be meant by a first word.
    fn on_name(&mut self, word: &str) -> Result<(), Failed> {
        match nearest(word) {
            Some(name) => self.line(&["did you mean ", name.row().word, "?"])?,
            None => {}
        }
        self.line(&["jass --help shows the commands"])
    }

    /// What a command wants at a place behind its name, and how it is called.
    fn on_form(&mut self, row: Row, place: usize) -> Result<(), Failed> {
        let wanted = wanted_at(row.form, place);
        let meaning = meaning_of_form(wanted);
        if wanted.starts_with('[') {
            self.line(&["here an option may stand, each key once, or nothing"])?;
        } else if wanted == "" {
            self.line(&["no word may stand here"])?;
        } else if meaning == "" {
            self.line(&["here stands ", wanted])?;
        } else {
            self.line(&["here stands ", wanted, ": ", meaning])?;
        }
        self.line(&["usage: jass ", row.word, " ", row.form])
    }

    /// What a refusal says, what to do, and what the file is by its first bytes.
    fn on_refusal(
        &mut self,
        name: &str,
        refusal: &str,
        files: &mut HostCabinet<'_>,
    ) -> Result<(), Failed> {
        let number = match refusal.split_once(' ') {
            Some((number, _)) => number,
            None => refusal,
        };
        let advice = refusal_advice(number);
        if advice != "" {
            self.line(&[advice])?;
        }
        let kind = file_kind(files, name);
        if kind != "" {
            self.line(&[kind])?;
        }
        Ok(())
    }

    /// The host's reason of the last call that failed.
    fn on_fault(&mut self) -> Result<(), Failed> {
        let Some(reason) = self.reason else {
            return Ok(());
        };
        match reason.to_string(self.alloc) {
            Ok(text) => self.line(&[text.as_str()]),
            Err(_) => Ok(()),
        }
    }

    /// Puts a line, two blanks in.
    fn line(&mut self, parts: &[&str]) -> Result<(), Failed> {
        self.out.put(b"  ")?;
        for part in parts {
            self.out.put(part.as_bytes())?;
        }
        self.out.put(b"\n")
    }
}
