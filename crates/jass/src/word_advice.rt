use jass_words::{NAMES, Name};

/// What may stand at a place behind a command's name, counted from 0, by the words that the help shows there.
pub fn wanted_at(form: &str, place: usize) -> &str {
    for (n, word) in form.split(' ').enumerate() {
        if n == place {
            return word;
        }
    }
    match form.rsplit_once(' ') {
        Some((_, last)) => open_ended(last),
        None => open_ended(form),
    }
}

/// The place in the form of `shards` of the word at a place behind its name, where it names so many parts: the form has
/// three words for them.
pub fn place_in_shards(place: usize, parts: usize) -> usize {
    if place == 0 {
        0
    } else if place <= parts {
        1
    } else {
        place.saturating_sub(parts).saturating_add(3)
    }
}

/// The last word of a form where more may stand behind it: options and terms; else nothing.
fn open_ended(last: &str) -> &str {
    if last.starts_with('[') || last == "TERM.." {
        last
    } else {
        ""
    }
}

/// What a word of the help stands for; empty where it says so itself.
pub fn meaning_of_form(word: &str) -> &'static str {
    match word {
        "K" | "[k=K]" => "a number of documents, 1 to 100000",
        "BUDGET" | "[budget=B,..]" => "a number of postings, or all",
        "[tag=TAG]" => "1 to 64 visible ASCII characters",
        "TERM.." => "1 to 255 terms",
        "frames=N" => "a number of frames, 1 to 1048576, as frames=65536",
        "N" => "a number of parts, 2 to 16",
        "SEED" => "a number below 2147483648",
        "DOCS" | "TERMS" => "a number, 1 to 1048576",
        "QUERIES"
        | "RUN*"
        | "RUN"
        | "REPORTS"
        | "INDEX"
        | "INDEX*"
        | "INDEX1"
        | "CIFF"
        | "CIFF*"
        | "FROM"
        | "TO*"
        | "OLD"
        | "NEW*" => "a file's name, other than those before it",
        _ => "",
    }
}

/// The command whose name is nearest to a word: it begins so, or begins as the word does for two letters at the least.
pub fn nearest(word: &str) -> Option<Name> {
    let mut best = None;
    let mut most = 1;
    for name in NAMES {
        let same = same_front(name.row().word, word);
        if same > most {
            most = same;
            best = Some(name);
        }
    }
    best
}

/// How many first bytes two words have in common.
fn same_front(one: &str, other: &str) -> usize {
    let mut count: usize = 0;
    for (a, b) in one.bytes().zip(other.bytes()) {
        if a != b {
            return count;
        }
        count = count.saturating_add(1);
    }
    count
}
