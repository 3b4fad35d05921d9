ghost use Rattle.std.specs.Prelude.{◌≡◌, ◌≤◌, ◌++◌, codes, flat_map, length, IfOk, OnOk};
ghost use Rattle.ranking_model.specs.Report.{grade_word, report_line};
ghost use Rattle.run_audit.specs.Private.Places.{Advances};

use crate::place::Place;
use itoa::Buffer as Digits;
use jass_base::{Grade, NoMemory, Query, Report, Row};
use std::alloc::Global;

/// Compares the report line of an answer to a query with what comes next in the reports.
pub fn check_report(
    alloc: Global,
    reports: &[u8],
    query: &Query,
    report: Report,
    place: &mut Place,
) -> Result<(), NoMemory>
    requires within { place.old.at ≤ length reports.now }
    ensures within { place.new.at ≤ length reports.now }
    ensures advances { OnOk result (Advances reports.now place.old place.new
        (report_line query.now.id report query.now.unknown)) }
{
    let line = report_text(alloc, query.id.as_str(), query.unknown, report)?;
    place.compare(reports, line.as_slice());
    Ok(())
}

/// The report line of an answer.
fn report_text(alloc: Global, id: &str, unknown: u32, report: Report) -> Result<Row<u8>, NoMemory>
    ensures { IfOk result (λ line. line ≡ report_line id.now report unknown) }
{
    let mut postings = Digits::new();
    let mut segments = Digits::new();
    let mut of = Digits::new();
    let mut cutoff = Digits::new();
    let mut next = Digits::new();
    let mut bound = Digits::new();
    let mut mentions = Digits::new();
    columns_text(
        alloc,
        id.as_bytes(),
        postings.format(report.postings).as_bytes(),
        segments.format(report.segments).as_bytes(),
        of.format(report.of).as_bytes(),
        cutoff.format(report.cutoff).as_bytes(),
        next.format(report.next).as_bytes(),
        bound.format(report.bound).as_bytes(),
        mentions.format(unknown).as_bytes(),
        word_of(report.grade).as_bytes(),
    )
}

/// The word that is printed for a grade.
fn word_of(grade: Grade) -> &'static str
    ensures { result.now ≡ grade_word grade }
{
    match grade {
        Grade::Final => "final",
        Grade::Set => "set",
        Grade::Open => "open",
    }
}

/// The columns of a report line, which have one lifetime so that they lie in one array.
fn columns_text<'x>(
    alloc: Global,
    id: &'x [u8],
    postings: &'x [u8],
    segments: &'x [u8],
    of: &'x [u8],
    cutoff: &'x [u8],
    next: &'x [u8],
    bound: &'x [u8],
    unknown: &'x [u8],
    grade: &'x [u8],
) -> Result<Row<u8>, NoMemory>
    ensures { IfOk result (λ line. line ≡
        id.now ++ (codes " postings " ++ (postings.now
        ++ (codes " segments " ++ (segments.now
        ++ (codes " of " ++ (of.now ++ (codes " cutoff "
        ++ (cutoff.now ++ (codes " next "
        ++ (next.now ++ (codes " bound " ++ (bound.now
        ++ (codes " unknown " ++ (unknown.now ++ (codes " " ++ (grade.now ++ codes "\n"))))))))))))))))) }
{
    joined(
        alloc,
        &[
            id,
            b" postings ",
            postings,
            b" segments ",
            segments,
            b" of ",
            of,
            b" cutoff ",
            cutoff,
            b" next ",
            next,
            b" bound ",
            bound,
            b" unknown ",
            unknown,
            b" ",
            grade,
            b"\n",
        ],
    )
}

/// Pieces of a text, one behind the other.
pub fn joined(alloc: Global, pieces: &[&[u8]]) -> Result<Row<u8>, NoMemory>
    ensures { IfOk result (λ text. text ≡ flat_map (λ piece. piece.now) pieces.now) }
{
    let mut text = Row::new(alloc);
    for piece in pieces {
        text.extend(piece)?;
    }
    Ok(text)
}
