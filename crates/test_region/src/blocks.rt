//! A block that is cut at each of its lines: by the end of the script, by a failed read, and by the most bytes of a
//! script.

use crate::runs::{comments, count_lines, is_answered};
use cx_script::{RunFault, SourceKind, Summary};
use std::alloc::{AllocError, Global};
use test_devices::PieceIn;

/// The most bytes of a script.
const MOST: usize = 16_777_216;

/// Where a script is cut: between its blocks, inside one that began with a line, or after a faulty source.
#[derive(Clone, Copy)]
enum Stands {
    Outside,
    Inside(usize),
    Faulty(usize, SourceKind),
}

/// A cut: its place, how many lines are in front of it, how much of the transcript is written, and where in its blocks
/// the script is cut.
type Cut = (usize, usize, usize, Stands);

/// The answer of a run that ends so outside a block, where the script is cut so after some other lines.
fn answer_at(
    stands: Stands,
    others: usize,
    ends: Result<Summary, RunFault>,
) -> Result<Summary, RunFault> {
    match (stands, ends) {
        (Stands::Faulty(line, kind), _) => Err(RunFault::Source(others.saturating_add(line), kind)),
        (Stands::Inside(line), Ok(_)) => Err(RunFault::BadLine(others.saturating_add(line))),
        _ => ends,
    }
}

/// The answer of a run that ends so where a script with no fault would end, so many lines after some other lines.
fn ends(stands: Stands, others: usize, lines: usize) -> Result<Summary, RunFault> {
    let lines = others.saturating_add(lines);
    answer_at(stands, others, Ok(Summary { lines }))
}

/// Whether a script that ends after a front of it is answered as is due, and where a read fails there.
fn is_cut(alloc: Global, front: &[u8], (lines, stands): (usize, Stands), text: &[u8]) -> bool {
    let failed = answer_at(stands, 0, Err(RunFault::Read));
    is_answered(
        alloc,
        PieceIn::new(front, usize::MAX),
        ends(stands, 0, lines),
        text,
    ) && is_answered(alloc, PieceIn::failing(front, usize::MAX), failed, text)
}

/// Whether a script that follows comments, and has no more room after a front of it, is answered as is due.
fn is_full(
    alloc: Global,
    script: &[u8],
    (others, is_whole): (usize, bool),
    cut: Cut,
    text: &[u8],
) -> bool {
    let (_, lines, _, stands) = cut;
    let answer = if is_whole {
        ends(stands, others, lines)
    } else {
        answer_at(stands, others, Err(RunFault::ReadBound))
    };
    is_answered(alloc, PieceIn::new(script, usize::MAX), answer, text)
}

/// Whether a script is answered as is due where it is cut at this place: it ends there, a read fails there, and it has
/// no more room after comments, which `long` has in front of the script.
fn is_as_due(alloc: Global, script: &[u8], long: &[u8], cut: Cut, transcript: &[u8]) -> bool {
    let (at, lines, written, stands) = cut;
    if at > script.len() || written > transcript.len() || at > MOST || MOST > long.len() {
        return false;
    }
    let text = &transcript[..written];
    let others = count_lines(&long[at..MOST]);
    is_cut(alloc, &script[..at], (lines, stands), text)
        && is_full(alloc, &long[at..], (others, at == script.len()), cut, text)
}

/// Comments of as many bytes as a script may have, and then a script.
fn after_comments(alloc: Global, script: &[u8]) -> Result<Vec<u8>, AllocError> {
    let mut long = comments(alloc, MOST, 1)?;
    long.extend_from_slice(script)?;
    Ok(long)
}

/// How many cuts are as they should be before the first that isn't.
fn count_due(
    alloc: Global,
    script: &[u8],
    cuts: &[Cut],
    transcript: &[u8],
) -> Result<usize, AllocError> {
    let long = after_comments(alloc, script)?;
    for (number, cut) in cuts.iter().enumerate() {
        if !is_as_due(alloc, script, &long, *cut, transcript) {
            return Ok(number);
        }
    }
    Ok(cuts.len())
}

/// A script with an image.
const IMAGE: &[u8] = b"TERMINAL T001\nIMAGE A 80\n00\n0a0B\n\n/*\nTERMINAL T002\n";

const OF_IMAGE: &[u8] =
    b"TERMINAL T001 DEFINED\nPROGRAM A AT 010000 LENGTH 000003\nTERMINAL T002 DEFINED\n";

const CUTS_OF_IMAGE: [Cut; 8] = [
    (0, 0, 0, Stands::Outside),
    (14, 1, 22, Stands::Outside),
    (25, 2, 22, Stands::Inside(2)),
    (28, 3, 22, Stands::Inside(2)),
    (33, 4, 22, Stands::Inside(2)),
    (34, 5, 22, Stands::Inside(2)),
    (37, 6, 56, Stands::Outside),
    (51, 7, 78, Stands::Outside),
];

#[test]
fn an_image_s_block_is_cut_at_each_line(rt: HostRuntime) {
    let due = count_due(rt.alloc(), IMAGE, &CUTS_OF_IMAGE, OF_IMAGE);
    assert!(rt; due == Ok(CUTS_OF_IMAGE.len()));
}

/// A script with a source whose second line is faulty: that is reported at the end of the block, and not before.
const SOURCE: &[u8] =
    b"TERMINAL T001\nSOURCE P LIST\nP        CSECT\n1A       BR    14\n         END\n/*\nTERMINAL T002\n";

const CUTS_OF_SOURCE: [Cut; 8] = [
    (0, 0, 0, Stands::Outside),
    (14, 1, 22, Stands::Outside),
    (28, 2, 22, Stands::Inside(2)),
    (43, 3, 22, Stands::Inside(2)),
    (61, 4, 22, Stands::Inside(2)),
    (74, 5, 22, Stands::Inside(2)),
    (77, 6, 22, Stands::Faulty(4, SourceKind::BadName)),
    (91, 7, 22, Stands::Faulty(4, SourceKind::BadName)),
];

#[test]
fn a_source_s_block_is_cut_at_each_line(rt: HostRuntime) {
    let text = b"TERMINAL T001 DEFINED\n";
    let due = count_due(rt.alloc(), SOURCE, &CUTS_OF_SOURCE, text);
    assert!(rt; due == Ok(CUTS_OF_SOURCE.len()));
}
