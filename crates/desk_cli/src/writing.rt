//! What is told, written out.

use crate::fault::DeskFault;
use archive_desk::CommandOutput;
use attribution_desk::{DeskError, DeskRequest, UsageError, Watched};
use desk_args::{AnswerForm, ReportForm};
use desk_reports::{fault_data, line_page};
use std::alloc::AllocError;

/// Writes a text to standard output, and notes to standard error.
pub(crate) fn write_both(rt: &HostRuntime, text: &[u8], notes: &[u8]) -> Result<(), DeskFault> {
    let mut writer = Watched::new(rt.stdout());
    writer.write_out(text).map_err(DeskFault::Desk)?;
    // (the answer is written: it stands, whether anybody reads a note or not)
    let _ = rt.stderr().write_all(notes);
    Ok(())
}

/// Writes what is told: standard output gets the answer, standard error the notes.
pub(crate) fn write_out(rt: &HostRuntime, told: &CommandOutput) -> Result<u8, DeskFault> {
    write_both(rt, &told.text, &told.notes)?;
    Ok(told.status)
}

/// The form in which a request is answered.
pub(crate) fn form_of(request: &DeskRequest) -> ReportForm {
    match request {
        DeskRequest::Answer(_, AnswerForm::Plain) => ReportForm::Plain,
        DeskRequest::Answer(_, AnswerForm::Json) => ReportForm::Json,
        DeskRequest::Explain { telling, .. } => telling.form,
        DeskRequest::ExplainHolder(_, _, telling) => telling.form,
        DeskRequest::Join(_) | DeskRequest::Copy(_) | DeskRequest::Volumes => ReportForm::Plain,
    }
}

/// The line of a fault, as standard error has it.
fn line_of(rt: &HostRuntime, fault: &DeskFault) -> Result<String, AllocError> {
    format!(in rt.alloc(); "{fault}")
}

/// A fault in a form that isn't plain text; `None` in plain text, whose standard output stays empty.
fn fault_told(
    rt: &HostRuntime,
    form: ReportForm,
    fault: &DeskFault,
) -> Result<Option<Vec<u8>>, AllocError> {
    let line = line_of(rt, fault)?;
    match form {
        ReportForm::Plain => Ok(None),
        ReportForm::Page => Ok(Some(line_page(rt.alloc(), line.as_bytes(), b"")?)),
        ReportForm::Json => Ok(Some(fault_data(rt.alloc(), line.as_bytes())?)),
    }
}

/// Returns whether a fault is told on standard output too: not words that order nothing, nor an output that failed.
fn is_told(fault: &DeskFault) -> bool {
    !matches!(
        fault,
        DeskFault::Usage(UsageError::Usage)
            | DeskFault::Words(_)
            | DeskFault::Desk(DeskError::Write)
    )
}

/// Writes a fault that kept the desk from answering in the form that was asked for; standard error and the status are
/// told by who ends the program.
pub(crate) fn or_fault<T: Drop>(
    rt: &HostRuntime,
    form: ReportForm,
    answered: Result<T, DeskFault>,
) -> Result<T, DeskFault> {
    match answered {
        Ok(answered) => Ok(answered),
        Err(fault) => {
            if is_told(&fault)
                && let Ok(Some(text)) = fault_told(rt, form, &fault)
            {
                let mut writer = Watched::new(rt.stdout());
                let _ = writer.write_out(&text);
            }
            Err(fault)
        }
    }
}
