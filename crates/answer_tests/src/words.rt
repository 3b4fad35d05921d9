// The words of commands, and where they are at fault.

use jass_words::read_words;
use std::alloc::Global;
use std::process::Abort;

/// The words between the blanks of a line.
pub(super) fn words_of(rt: &impl Abort, alloc: Global, line: &str) -> Vec<String> {
    let mut words = Vec::new(alloc);
    for word in line.split_whitespace() {
        put_word(rt, alloc, &mut words, word);
    }
    words
}

/// Appends a word.
fn put_word(rt: &impl Abort, alloc: Global, words: &mut Vec<String>, word: &str) {
    let word = String::from_str(alloc, word).expect(rt, "no memory");
    words.push(word).expect(rt, "no memory");
}

/// The number of the first bad word, or 0 where the words are a command.
fn bad_word(rt: &impl Abort, alloc: Global, line: &str) -> u32 {
    let words = words_of(rt, alloc, line);
    let which = match read_words(words.as_slice()) {
        Ok(_) => 0,
        Err(fault) => fault.which,
    };
    drop(words);
    which
}

/// Lines of words, each with the number of its first bad word.
const LINES: [(&str, u32); 66] = [
    ("once b 3 all a", 0),
    ("once b 100000 18446744073709551615 a b", 0),
    ("rewrite a b", 0),
    ("", 1),
    ("once", 2),
    ("once b 0 all a", 3),
    ("once b 100001 all a", 3),
    ("once b 3 18446744073709551616 a", 4),
    ("once b 3 all", 5),
    ("rewrite", 2),
    ("rewrite a", 3),
    ("rewrite a a", 3),
    ("rewrite a b c", 4),
    ("import a b", 0),
    ("import a b bits=16 weights=bm25", 0),
    ("import a b weights=tf bits=raw", 0),
    ("import a", 3),
    ("import a a", 3),
    ("import a b bits=0", 4),
    ("import a b bits=17", 4),
    ("import a b weights=bm26", 4),
    ("import a b bits=8 bits=8", 5),
    ("import a b bits=8 weights=tf c", 6),
    ("check", 2),
    ("check a", 0),
    ("check a b", 3),
    ("export a b", 0),
    ("migrate a", 3),
    ("migrate a b c", 4),
    ("search i q", 4),
    ("search i q i", 4),
    ("search i q q", 4),
    ("search i q r", 0),
    ("search i q r k=100000 tag=a=b mode=folded budget=all,0", 0),
    ("search i q r budget=2,all k=2", 0),
    ("search i q r k=0", 5),
    ("search i q r until=final k=2", 0),
    (
        "search i q r k=2 mode=folded budget=1,all tag=t until=budget",
        0,
    ),
    ("search i q r until=Final", 5),
    ("search i q r until=", 5),
    ("search i q r until=final until=final", 6),
    ("exhaust i q r until=final", 5),
    ("audit i q r s until=final", 6),
    ("shards 2 a b q r until=final", 7),
    ("exhaust i q r tag=a k=2 mode=folded", 0),
    ("exhaust i q q", 4),
    ("exhaust i q r k=2 budget=all", 6),
    ("search i q r budget=2,,3", 5),
    (
        "search i q r budget=1,2,3,4,5,6,7,8,9,10,11,12,13,14,15,16",
        0,
    ),
    (
        "search i q r budget=1,2,3,4,5,6,7,8,9,10,11,12,13,14,15,16,17",
        5,
    ),
    ("search i q r tag=", 5),
    ("search i q r mode=Folded", 5),
    ("search i q r k=1 k=1", 6),
    ("search i q r k=1 mode=plain k", 7),
    ("trial 1 4 1 1", 0),
    ("trial 2147483647 1048576 1048576 10000", 0),
    ("trial 2147483648 4 1 1", 2),
    ("trial 1 0 1 1", 3),
    ("trial 1 4 1048577 1", 4),
    ("trial 1 4 1 10001", 5),
    ("trial 1 4 1", 5),
    ("trial 1 4 1 1 1", 6),
    ("--help", 0),
    ("--help rewrite", 2),
    ("--version", 0),
    ("--version 2", 2),
];

/// Each line has the first bad word that is told of it.
fn check_lines(rt: &impl Abort, alloc: Global, lines: &[(&str, u32)]) {
    for (line, which) in lines {
        assert!(rt; bad_word(rt, alloc, line) == *which, "{line}");
    }
}

#[test]
fn bad_words_are_counted(rt: HostRuntime) {
    check_lines(&rt, rt.alloc(), &LINES);
}
