ghost use Rattle.std.specs.Prelude.{◌≡◌, ◌++◌, codes};
ghost use Rattle.jass_base.specs.Outside.{Wrote};
ghost use Rattle.ranking_model.specs.Report.{report_line, grade_word};
ghost use Rattle.gathered_text.specs.Gathering.{Gathers};

use gathered_text::{Buffer, flush, gather_all};
use itoa::Buffer as Digits;
use jass_base::{Grade, Report, Sink, WriteFault};

/// Puts the report line of an answer on the sink, with the query's id in front and the
/// number of unknown mentions. After a WriteFault a prefix of the line was put.
pub fn put_report<S: Sink>(
    out: &mut S,
    id: &str,
    unknown: u32,
    report: Report,
) -> Result<(), WriteFault>
    ensures { Wrote S.written S.faults S.rest out.old out.new (report_line id.now report unknown) result }
{
    let mut buffer = Buffer::new();
    gather_report(out, &mut buffer, id, unknown, report)?;
    flush(out, &mut buffer)
}

/// Gathers the report line of an answer, as `put_report` puts it. After a WriteFault a prefix of what was gathered
/// before and the line was put.
pub fn gather_report<S: Sink>(
    out: &mut S,
    buffer: &mut Buffer,
    id: &str,
    unknown: u32,
    report: Report,
) -> Result<(), WriteFault>
    ensures { Gathers S.written S.faults S.rest out.old out.new buffer.old buffer.new
        (report_line id.now report unknown) result }
{
    let mut postings = Digits::new();
    let mut segments = Digits::new();
    let mut of = Digits::new();
    let mut cutoff = Digits::new();
    let mut next = Digits::new();
    let mut bound = Digits::new();
    let mut mentions = Digits::new();
    gather_columns(
        out,
        buffer,
        id.as_bytes(),
        postings.format(report.postings).as_bytes(),
        segments.format(report.segments).as_bytes(),
        of.format(report.of).as_bytes(),
        cutoff.format(report.cutoff).as_bytes(),
        next.format(report.next).as_bytes(),
        bound.format(report.bound).as_bytes(),
        mentions.format(unknown).as_bytes(),
        word_of(report.grade).as_bytes(),
    )
}

/// The word that is printed for a grade.
fn word_of(grade: Grade) -> &'static str
    ensures { result.now ≡ grade_word grade }
{
    match grade {
        Grade::Final => "final",
        Grade::Set => "set",
        Grade::Open => "open",
    }
}

/// Gathers the columns of a report line, which have one lifetime so that they lie in one array.
fn gather_columns<'x, S: Sink>(
    out: &mut S,
    buffer: &mut Buffer,
    id: &'x [u8],
    postings: &'x [u8],
    segments: &'x [u8],
    of: &'x [u8],
    cutoff: &'x [u8],
    next: &'x [u8],
    bound: &'x [u8],
    unknown: &'x [u8],
    grade: &'x [u8],
) -> Result<(), WriteFault>
    ensures { Gathers S.written S.faults S.rest out.old out.new buffer.old buffer.new
        (id.now ++ (codes " postings " ++ (postings.now
        ++ (codes " segments " ++ (segments.now
        ++ (codes " of " ++ (of.now ++ (codes " cutoff "
        ++ (cutoff.now ++ (codes " next "
        ++ (next.now ++ (codes " bound " ++ (bound.now
        ++ (codes " unknown " ++ (unknown.now ++ (codes " " ++ (grade.now ++ codes "\n"))))))))))))))))) result }
{
    gather_all(
        out,
        buffer,
        &[
            id,
            b" postings ",
            postings,
            b" segments ",
            segments,
            b" of ",
            of,
            b" cutoff ",
            cutoff,
            b" next ",
            next,
            b" bound ",
            bound,
            b" unknown ",
            unknown,
            b" ",
            grade,
            b"\n",
        ],
    )
}
