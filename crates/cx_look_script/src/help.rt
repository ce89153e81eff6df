//! What HELP writes of its table, and what is written for a bad look.
ghost use Rattle.std.specs.Prelude.{◌≡◌, ◌++◌, IfOk, OnOk};
ghost use Rattle.cx_look_script.specs.Help.{bad_look_text, form_lines, help_text};
ghost use Rattle.cx_look_lines.specs.Words.{marked};

use cx_look::Subject;
use cx_look_lines::{Report, decimal};
use std::alloc::{AllocError, Global};

/// Adds the lines of words.
fn form_lines(report: &mut Report, subjects: &[Subject]) -> Result<(), AllocError>
    ensures { OnOk result (report.new ≡ report.old ++ form_lines subjects.now) }
{
    for subject in subjects {
        report.line(&[subject.help_line()])?;
    }
    Ok(())
}

/// What HELP writes: the table, or the line of a word in it.
#[tactic(auto, unfolding(crate::specs::Help::help_text))]
pub(crate) fn help_text(alloc: Global, subject: Option<Subject>) -> Result<Report, AllocError>
    ensures { IfOk result (λ report. report ≡ help_text subject) }
{
    let mut report = Report::new(alloc);
    match subject {
        Some(subject) => form_lines(&mut report, &[subject])?,
        None => form_lines(&mut report, &Subject::ALL)?,
    }
    Ok(report)
}

/// What is written for a bad look: the number of its line, and the line of its word.
pub(crate) fn bad_look_text(
    alloc: Global,
    number: usize,
    subject: Subject,
) -> Result<Vec<u8>, AllocError>
    ensures { IfOk result (λ text. text.items ≡ marked (bad_look_text number subject)) }
{
    let mut report = Report::new(alloc);
    let mut place = decimal(alloc, number)?;
    place.push(b':')?;
    report.line(&[b"?", b"line", &place, subject.help_line()])?;
    report.marked()
}
