// Trials, with puts that fail, on the output and on the notes. What the greater ones print was
// computed by a program of another language, from the definitions alone.

use super::{check_left, ran};
use std::alloc::Global;
use std::process::Abort;

/// Words, the puts on the output that fail, the status, the output and the note.
type Trial<'a> = (&'a str, &'a [u64], u8, &'a [u8], &'a [u8]);

const TRIALS: [Trial<'static>; 6] = [
    (
        "trial 1 4 1 1",
        &[],
        0,
        b"documents 4 terms 1 postings 4 segments 3 codecs 2 0 1 0\nbudget 1000 postings 4 final 1 scores 2130\nbudget 10000 postings 4 final 1 scores 2130\nbudget all postings 4 final 1 scores 2130\n",
        b"",
    ),
    (
        "trial 5 1 1 0",
        &[],
        0,
        b"documents 1 terms 1 postings 1 segments 1 codecs 1 0 0 0\nbudget 1000 postings 0 final 0 scores 0\nbudget 10000 postings 0 final 0 scores 0\nbudget all postings 0 final 0 scores 0\n",
        b"",
    ),
    (
        "trial 3 20000 40 25",
        &[],
        0,
        b"documents 20000 terms 40 postings 85537 segments 3644 codecs 2486 29 0 1129\nbudget 1000 postings 24700 final 0 scores 96713\nbudget 10000 postings 109869 final 23 scores 106044\nbudget all postings 113161 final 25 scores 106147\n",
        b"",
    ),
    (
        "trial 7 1 60 30",
        &[],
        0,
        b"documents 1 terms 3 postings 3 segments 3 codecs 3 0 0 0\nbudget 1000 postings 4 final 30 scores 4\nbudget 10000 postings 4 final 30 scores 4\nbudget all postings 4 final 30 scores 4\n",
        b"",
    ),
    ("trial 1 4 1 1", &[0], 5, b"", b"output: write fault\n"),
    ("trial 2147483648 4 1 1", &[], 2, b"", b"word 2\n"),
];

/// A trial ends as told where no put on the notes fails, or the first does.
fn check_trial(rt: &impl Abort, alloc: Global, trial: Trial<'_>, bad_notes: &[u64]) {
    let (words, bad_puts, status, out, notes) = trial;
    let left = ran(rt, alloc, &[], words, &[], bad_puts, bad_notes);
    let notes = if bad_notes.is_empty() { notes } else { b"" };
    check_left(rt, words, &left, status, out, notes);
}

/// Each trial ends so; where its note can't be put, all else is the same.
fn check_trials(rt: &impl Abort, alloc: Global, trials: &[Trial<'_>]) {
    for trial in trials {
        check_trial(rt, alloc, *trial, &[]);
        check_trial(rt, alloc, *trial, &[0]);
    }
}

#[test]
fn trials_print_a_summary(rt: HostRuntime) {
    check_trials(&rt, rt.alloc(), &TRIALS);
}
