//! What the words ask.

ghost use Rattle.std.specs.Prelude.{◌≡◌, ◌↔◌, IsTrue, IfOk, IfSome, IsErrOf, None, Some, codes};
ghost use Rattle.clap.specs.Words.{rows_of, found_of};
ghost use Rattle.desk_args.specs.declared.command.Command.{Command as CommandValue};
ghost use Rattle.desk_args.specs.declared.request.AnswerForm.{AnswerForm as AnswerFormValue};
ghost use Rattle.desk_args.specs.declared.request.ReportForm.{ReportForm as ReportFormValue};
ghost use Rattle.desk_args.specs.declared.request.ReportOptions.{ReportOptions as TellingValue};
ghost use Rattle.desk_args.specs.Surrounding.{around};
ghost use Rattle.desk_args.specs.Given.{IsGiven};
ghost use Rattle.desk_args.specs.Requests.{IsSet, AsksNoReport, HasNoFacts, IsReportForm, AreFacts, IsTelling};
ghost use Rattle.desk_args.specs.Requests.{IsAnswerForm, IsAsked, IsNoRequest};

use crate::bounds::{skew_given, transit_given};
use crate::command::command_given;
use crate::copy_args::copy_query_given;
use crate::error::UsageError;
use crate::join_args::join_query_given;
use crate::request::{AnswerForm, DeskRequest, ReportFacts, ReportForm, ReportOptions};
use crate::settings::settings_given;
use crate::surroundings::Surroundings;
use crate::texts::{is_set, is_some, text_given};
use crate::who_args::holder_query_given;
use clap::ArgMatches;
use std::alloc::Global;

/// The form of a report: `--html`, `--json` or none of them.
fn report_form_given(options: &ArgMatches) -> Option<ReportForm>
    ensures given { IfSome result (IsReportForm (rows_of (found_of options.now))) }
    ensures none { result ≡ None → (form : ReportFormValue) → IsReportForm (rows_of (found_of options.now)) form → ⊥ }
{
    match (is_set(options, "html"), is_set(options, "json")) {
        (false, false) => Some(ReportForm::Plain),
        (true, false) => Some(ReportForm::Page),
        (false, true) => Some(ReportForm::Json),
        (true, true) => None,
    }
}

/// What a page says of its case.
fn facts_given<'a>(options: &ArgMatches<'a>) -> ReportFacts<'a>
    ensures { AreFacts (rows_of (found_of options.now)) result }
{
    ReportFacts {
        case: text_given(options, "case"),
        asked_by: text_given(options, "asked-by"),
        made: text_given(options, "made"),
    }
}

/// How a report is told.
fn telling_given<'a>(options: &ArgMatches<'a>) -> Option<ReportOptions<'a>>
    ensures given { IfSome result (IsTelling (rows_of (found_of options.now))) }
    ensures none { result ≡ None → (telling : TellingValue) → IsTelling (rows_of (found_of options.now)) telling → ⊥ }
{
    let form = report_form_given(options)?;
    let zone = text_given(options, "zone");
    let facts = facts_given(options);
    Some(ReportOptions { form, zone, facts })
}

/// Returns whether no word says anything of a page's case.
fn has_no_facts(options: &ArgMatches) -> bool
    ensures { IsTrue result ↔ HasNoFacts (rows_of (found_of options.now)) }
{
    let case = text_given(options, "case");
    let asked_by = text_given(options, "asked-by");
    let made = text_given(options, "made");
    !is_some(case) && !is_some(asked_by) && !is_some(made)
}

/// Returns whether no word asks for a report.
fn asks_no_report(options: &ArgMatches) -> bool
    ensures { IsTrue result ↔ AsksNoReport (rows_of (found_of options.now)) }
{
    !is_set(options, "explain") && !is_set(options, "html") && has_no_facts(options)
}

/// The form of an answer: `--json` or nothing of it. `None` where a report is asked for.
fn answer_form_given(options: &ArgMatches) -> Option<AnswerForm>
    ensures given { IfSome result (IsAnswerForm (rows_of (found_of options.now))) }
    ensures none { result ≡ None → (form : AnswerFormValue) → IsAnswerForm (rows_of (found_of options.now)) form → ⊥ }
{
    if !asks_no_report(options) {
        return None;
    }
    if is_set(options, "json") {
        return Some(AnswerForm::Json);
    }
    Some(AnswerForm::Plain)
}

/// `explain`.
fn explained<'a>(options: &ArgMatches<'a>, surroundings: &Surroundings) -> Option<DeskRequest<'a>>
    ensures given { IfSome result
        (IsAsked (around surroundings.now) (codes "explain", rows_of (found_of options.now))) }
    ensures none { result ≡ None
        → IsNoRequest (around surroundings.now) (codes "explain", rows_of (found_of options.now)) }
{
    let skew = skew_given(options, surroundings.heads)?;
    let transit = transit_given(options, surroundings.heads)?;
    let telling = telling_given(options)?;
    Some(DeskRequest::Explain {
        skew,
        transit,
        telling,
    })
}

/// `who --explain`.
fn holder_explained<'a>(
    alloc: Global,
    options: &ArgMatches<'a>,
    surroundings: &Surroundings,
) -> Result<DeskRequest<'a>, UsageError>
    requires { IsSet (codes "explain") (rows_of (found_of options.now)) }
    ensures given { IfOk result (IsAsked (around surroundings.now) (codes "who", rows_of (found_of options.now))) }
    ensures refused { IsErrOf result UsageError.Usage
        → IsNoRequest (around surroundings.now) (codes "who", rows_of (found_of options.now)) }
{
    let query = holder_query_given(alloc, options, surroundings)?;
    let telling = telling_given(options).ok_or(UsageError::Usage)?;
    Ok(DeskRequest::ExplainHolder(query, settings_given(options), telling))
}

/// `join`.
fn joined<'a>(options: &ArgMatches<'a>, surroundings: &Surroundings) -> Option<DeskRequest<'a>>
    ensures given { IfSome result (IsAsked (around surroundings.now) (codes "join", rows_of (found_of options.now))) }
    ensures none { result ≡ None
        → IsNoRequest (around surroundings.now) (codes "join", rows_of (found_of options.now)) }
{
    Some(DeskRequest::Join(join_query_given(options)?))
}

/// `copy`.
fn copied<'a>(options: &ArgMatches<'a>, surroundings: &Surroundings) -> Option<DeskRequest<'a>>
    ensures given { IfSome result (IsAsked (around surroundings.now) (codes "copy", rows_of (found_of options.now))) }
    ensures none { result ≡ None
        → IsNoRequest (around surroundings.now) (codes "copy", rows_of (found_of options.now)) }
{
    Some(DeskRequest::Copy(copy_query_given(options)?))
}

/// A command, and the form of its answer.
fn answered<'a>(
    alloc: Global,
    name: &str,
    options: &ArgMatches<'a>,
    surroundings: &Surroundings,
) -> Result<DeskRequest<'a>, UsageError>
    ensures given { IfOk result (IsAsked (around surroundings.now) (name.now, rows_of (found_of options.now))) }
    ensures refused { IsErrOf result UsageError.Usage → (command : CommandValue) (form : AnswerFormValue)
        → IsGiven (around surroundings.now) (Some (name.now, rows_of (found_of options.now))) command
        → IsAnswerForm (rows_of (found_of options.now)) form → ⊥ }
{
    let form = answer_form_given(options).ok_or(UsageError::Usage)?;
    let command = command_given(alloc, name, options, surroundings)?;
    Ok(DeskRequest::Answer(command, form))
}

/// Returns whether `who` is asked to explain its answer.
fn asks_why(name: &str, options: &ArgMatches) -> bool
    ensures { IsTrue result ↔ ((name.now ≡ codes "who") × IsSet (codes "explain") (rows_of (found_of options.now))) }
{
    name == "who" && is_set(options, "explain")
}

/// What the command of this name is asked with these options: `Usage` where there is none, or a value is no value;
/// `Memory` where a growth was refused.
pub(crate) fn request_given<'a>(
    alloc: Global,
    name: &str,
    options: &ArgMatches<'a>,
    surroundings: &Surroundings,
) -> Result<DeskRequest<'a>, UsageError>
    ensures given { IfOk result (IsAsked (around surroundings.now) (name.now, rows_of (found_of options.now))) }
    ensures refused { IsErrOf result UsageError.Usage
        → IsNoRequest (around surroundings.now) (name.now, rows_of (found_of options.now)) }
{
    if name == "explain" {
        return match explained(options, surroundings) {
            Some(request) => Ok(request),
            None => Err(UsageError::Usage),
        };
    }
    if name == "join" {
        return match joined(options, surroundings) {
            Some(request) => Ok(request),
            None => Err(UsageError::Usage),
        };
    }
    if name == "copy" {
        return match copied(options, surroundings) {
            Some(request) => Ok(request),
            None => Err(UsageError::Usage),
        };
    }
    if name == "volumes" {
        return Ok(DeskRequest::Volumes);
    }
    if asks_why(name, options) {
        return holder_explained(alloc, options, surroundings);
    }
    answered(alloc, name, options, surroundings)
}
