// Audits of the run and the reports of `cat dog` and of a word that no document has, over the file of four documents
// with these two terms, for two hits within 2 postings and then all.

ghost use Rattle.std.specs.Prelude.{◌≡◌, ◌<◌};

use index_file::IndexFile;
use jass_base::{Budget, Row, Steps};
use query_reader::{Mode, read_queries};
use run_audit::{Search, Verdict, check_answers};
use std::alloc::Global;
use std::marker::Brand;
use std::process::Abort;
use std::sync::ledger::{Blank, Ledger};
use trec_run::read_run;

/// Documents d0 to d3; `cat`: (0,3), (1,1), (3,1); `dog`: (2,3), (1,2).
const FILE: [u8; 135] = [
    0x4a, 0x41, 0x53, 0x53, 0x49, 0x44, 0x58, 0x32, 0x87, 0x00, 0x00, 0x00, 0x00, 0x00, 0x00, 0x00,
    0x04, 0x00, 0x00, 0x00, 0x02, 0x00, 0x00, 0x00, 0x05, 0x00, 0x00, 0x00, 0x00, 0x00, 0x00, 0x00,
    0x03, 0x00, 0x00, 0x00, 0x00, 0x00, 0x00, 0x00, 0x02, 0x00, 0x00, 0x00, 0x64, 0x30, 0x02, 0x00,
    0x00, 0x00, 0x64, 0x31, 0x02, 0x00, 0x00, 0x00, 0x64, 0x32, 0x02, 0x00, 0x00, 0x00, 0x64, 0x33,
    0x00, 0x00, 0x03, 0x00, 0x63, 0x61, 0x74, 0x02, 0x00, 0x00, 0x00, 0x03, 0x00, 0x01, 0x00, 0x00,
    0x00, 0x00, 0x01, 0x00, 0x00, 0x00, 0x01, 0x00, 0x02, 0x00, 0x00, 0x00, 0x00, 0x02, 0x00, 0x00,
    0x00, 0x00, 0x00, 0x03, 0x00, 0x64, 0x6f, 0x67, 0x02, 0x00, 0x00, 0x00, 0x03, 0x00, 0x01, 0x00,
    0x00, 0x00, 0x00, 0x01, 0x00, 0x00, 0x00, 0x02, 0x00, 0x01, 0x00, 0x00, 0x00, 0x00, 0x01, 0x00,
    0x00, 0x00, 0x00, 0x01, 0x01, 0x02, 0x01,
];

const QUERIES: &[u8] = b"301\tCAT  dog\r\n\n302 zzz\n";

const BUDGETS: [Budget; 2] = [Budget::Postings(2), Budget::All];

const RUN: &[u8] =
    b"301 Q0 d0 1 3 jass.1\n301 Q0 d2 2 3 jass.1\n301 Q0 d0 1 3 jass.2\n301 Q0 d1 2 3 jass.2\n";

const REPORTS: &[u8] = b"301 postings 2 segments 2 of 4 cutoff 3 next 2 bound 3 unknown 0 open
301 postings 5 segments 4 of 4 cutoff 1 next 0 bound 0 unknown 0 final
302 postings 0 segments 0 of 0 cutoff 0 next 0 bound 0 unknown 1 final
302 postings 0 segments 0 of 0 cutoff 0 next 0 bound 0 unknown 1 final
";

/// A run and reports, and the verdict on them.
struct Audit {
    run: &'static [u8],
    reports: &'static [u8],
    verdict: Verdict,
}

const AUDITS: [Audit; 13] = [
    Audit {
        run: RUN,
        reports: REPORTS,
        verdict: Verdict::Yes,
    },
    // Other blanks, line ends and lines without bytes; no LF at the end.
    Audit {
        run: b"301  Q0 d0\t1 3 jass.1\r\n\n301 Q0 d2 2 03 jass.1\n301 Q0 d0 1 3 jass.2\n 301 Q0 d1 2 3 jass.2",
        reports: REPORTS,
        verdict: Verdict::Yes,
    },
    // Another document, rank, score, tag and id.
    Audit {
        run: b"301 Q0 d0 1 3 jass.1\n301 Q0 d2 2 3 jass.1\n301 Q0 d2 1 3 jass.2\n301 Q0 d1 2 3 jass.2\n",
        reports: REPORTS,
        verdict: Verdict::Run { line: 3 },
    },
    Audit {
        run: b"301 Q0 d0 1 3 jass.1\n\n301 Q0 d2 3 3 jass.1\n301 Q0 d0 1 3 jass.2\n301 Q0 d1 2 3 jass.2\n",
        reports: REPORTS,
        verdict: Verdict::Run { line: 2 },
    },
    Audit {
        run: b"301 Q0 d0 1 4 jass.1\n301 Q0 d2 2 3 jass.1\n301 Q0 d0 1 3 jass.2\n301 Q0 d1 2 3 jass.2\n",
        reports: REPORTS,
        verdict: Verdict::Run { line: 1 },
    },
    Audit {
        run: b"301 Q0 d0 1 3 jass.1\n301 Q0 d2 2 3 jass.1\n301 Q0 d0 1 3 jass.2\n301 Q0 d1 2 3 jass.1\n",
        reports: REPORTS,
        verdict: Verdict::Run { line: 4 },
    },
    Audit {
        run: b"301 Q0 d0 1 3 jass.1\n302 Q0 d2 2 3 jass.1\n301 Q0 d0 1 3 jass.2\n301 Q0 d1 2 3 jass.2\n",
        reports: REPORTS,
        verdict: Verdict::Run { line: 2 },
    },
    // A line too few, a line too many, and none.
    Audit {
        run: b"301 Q0 d0 1 3 jass.1\n301 Q0 d2 2 3 jass.1\n301 Q0 d0 1 3 jass.2\n",
        reports: REPORTS,
        verdict: Verdict::Run { line: 4 },
    },
    Audit {
        run: b"301 Q0 d0 1 3 jass.1\n301 Q0 d2 2 3 jass.1\n301 Q0 d0 1 3 jass.2\n301 Q0 d1 2 3 jass.2\n302 Q0 d1 1 1 jass.1\n",
        reports: REPORTS,
        verdict: Verdict::Run { line: 5 },
    },
    Audit {
        run: b"",
        reports: REPORTS,
        verdict: Verdict::Run { line: 1 },
    },
    // Reports that differ, none, and without the last LF; they come before the run.
    Audit {
        run: b"",
        reports: b"301 postings 2 segments 2 of 4 cutoff 3 next 2 bound 2 unknown 0 open\n",
        verdict: Verdict::Report { line: 1 },
    },
    Audit {
        run: RUN,
        reports: b"",
        verdict: Verdict::Report { line: 1 },
    },
    Audit {
        run: RUN,
        reports: b"301 postings 2 segments 2 of 4 cutoff 3 next 2 bound 3 unknown 0 open\n",
        verdict: Verdict::Report { line: 2 },
    },
];

/// The index of the file.
fn index_of(rt: &impl Abort, alloc: Global) -> IndexFile {
    let mut row = Row::new(alloc);
    row.extend(&FILE).expect(rt, "no memory");
    IndexFile::from_bytes(alloc, row).expect(rt, "refused")
}

/// The verdict of an audit.
fn judged<L: Ledger>(
    rt: &impl Abort,
    alloc: Global,
    index: &IndexFile,
    audit: &Audit,
    blank: Blank,
) -> Verdict
    requires name { blank.name ≡ L.name }
    requires parts { blank.parts ≡ L.parts }
    requires some { 0 < blank.parts }
{
    let mut steps = Steps::<L>::new(blank);
    let queries = read_queries(alloc, QUERIES, Mode::Folded, index).expect(rt, "refused");
    let run = read_run(alloc, audit.run).expect(rt, "refused");
    let search = Search {
        k: 2,
        budgets: &BUDGETS,
        tag: "jass",
    };
    check_answers(
        alloc,
        index,
        queries.as_slice(),
        &search,
        run.as_slice(),
        audit.reports,
        &mut steps,
    )
    .expect(rt, "no memory")
}

/// Each audit has its verdict.
fn check_audits(rt: &impl Abort, alloc: Global, audits: &[Audit]) {
    let index = index_of(rt, alloc);
    for audit in audits {
        let verdict = judged::<Brand>(rt, alloc, &index, audit, Blank::new(1));
        assert!(rt; verdict == audit.verdict);
    }
}

#[test]
fn audits_of_two_queries(rt: HostRuntime) {
    check_audits(&rt, rt.alloc(), &AUDITS);
}
