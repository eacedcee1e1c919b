//! What a page was made by and of, and how to check it.

ghost use Rattle.std.specs.Prelude.{◌≡◌, ◌++◌, OnOk};
ghost use Rattle.attribution.specs.VerdictText.{side_text};
ghost use Rattle.report_render.specs.Origin.{counted_html, last_html, volumes_html, command_html, source_html};
ghost use Rattle.report_render.specs.Origin.{sum_html, check_sum_html, sums_html, certificate_html, options_html};
ghost use Rattle.report_render.specs.Origin.{audit_html, who_html, files_audit_html, files_who_html, check_form};
ghost use Rattle.report_render.specs.Origin.{settings_html, question_words, check_html, sources_html, origin_html};

use crate::escaping::push_escaped;
use crate::facts::PageQuestion;
use crate::origin_template::{OriginPart, push_origin_part};
use binding_rules::Role;
use lead_time::{Skew, Transit};
use prefix_range::push_prefix;
use sha2::{Digest, Sha256};
use std::alloc::AllocError;
use text_fields::{push_number, push_octets};

/// Volumes of a side, joined, up to the line that was used of them.
#[derive(Clone, Copy, Debug, PartialEq, Eq)]
pub struct CopiedVolumes {
    /// The number of the first volume.
    pub first: u32,
    /// That of the last, which may be the first.
    pub last: u32,
    /// How many lines of the joined journal were used.
    pub lines: u64,
}

/// Where the text of a journal comes from.
#[derive(Clone, Copy, Debug, PartialEq, Eq)]
pub enum TextOrigin {
    /// It was given as it is.
    Input,
    /// `desk copy` makes it of the volumes of a directory.
    Copied(CopiedVolumes),
}

/// The text of a journal, as it was used. Sums and sizes are of this text.
#[derive(Clone, Copy, Debug)]
pub struct SourceText<'a> {
    pub text: &'a [u8],
    pub origin: TextOrigin,
}

/// Whether the settings of both journals must agree where the desk names who held a prefix.
#[derive(Clone, Copy, Debug, PartialEq, Eq)]
pub enum SettingsRule {
    /// Over journals whose settings differ it names nobody.
    MustAgree,
    /// It doesn't ask: `--settings-differ`.
    MayDiffer,
}

/// What the command that checks a page runs.
#[derive(Clone, Copy, Debug)]
pub enum PageCheck<'a> {
    /// `audit`, of the certificate of this text.
    Certificate(&'a [u8]),
    /// `who`, of this question, by this rule.
    Holder(PageQuestion, SettingsRule),
}

/// What a page was made by, of what, and how to check it.
#[derive(Clone, Copy, Debug)]
pub struct Provenance<'a> {
    /// The program's name and its version.
    pub program: &'a str,
    /// Journal A.
    pub primary: SourceText<'a>,
    /// Journal B.
    pub secondary: SourceText<'a>,
    pub check: PageCheck<'a>,
    /// How far clocks may be from true time.
    pub skew: Skew,
    /// How long an answer may be under way.
    pub transit: Transit,
}

/// Appends the name of a side in a command.
fn push_side(out: &mut Vec<u8>, side: Role) -> Result<(), AllocError>
    ensures { OnOk result (out.new.items ≡ out.old.items ++ side_text side) }
{
    match side {
        Role::Primary => out.extend_from_slice(b"A"),
        Role::Secondary => out.extend_from_slice(b"B"),
    }
}

/// Appends a part, and a number.
fn push_counted(out: &mut Vec<u8>, before: OriginPart, number: u64) -> Result<(), AllocError>
    ensures { OnOk result (out.new.items ≡ out.old.items ++ counted_html before number) }
{
    push_origin_part(out, before)?;
    push_number(out, number)
}

/// Appends the last of several volumes; nothing where there is one.
fn push_last(
    out: &mut Vec<u8>,
    before: OriginPart,
    volumes: CopiedVolumes,
) -> Result<(), AllocError>
    ensures { OnOk result (out.new.items ≡ out.old.items ++ last_html before volumes) }
{
    if volumes.first == volumes.last {
        Ok(())
    } else {
        push_counted(out, before, u64::from(volumes.last))
    }
}

/// Appends which volumes of a side were used, and up to which line.
#[tactic(auto, unfolding(crate::specs::Origin::volumes_html))]
fn push_volumes(out: &mut Vec<u8>, side: Role, volumes: CopiedVolumes) -> Result<(), AllocError>
    ensures { OnOk result (out.new.items ≡ out.old.items ++ volumes_html side volumes) }
{
    push_origin_part(out, OriginPart::BeforeCopied)?;
    push_side(out, side)?;
    push_counted(out, OriginPart::FirstVolume, u64::from(volumes.first))?;
    push_last(out, OriginPart::LastVolume, volumes)?;
    push_counted(out, OriginPart::UpToLine, volumes.lines)
}

/// Appends the command that makes a side's text.
#[tactic(auto, unfolding(crate::specs::Origin::command_html))]
fn push_command(out: &mut Vec<u8>, side: Role, volumes: CopiedVolumes) -> Result<(), AllocError>
    ensures { OnOk result (out.new.items ≡ out.old.items ++ command_html side volumes) }
{
    push_origin_part(out, OriginPart::CopyCommand)?;
    push_side(out, side)?;
    push_counted(out, OriginPart::FromOption, u64::from(volumes.first))?;
    push_last(out, OriginPart::ToOption, volumes)?;
    push_counted(out, OriginPart::LinesOption, volumes.lines)?;
    push_origin_part(out, OriginPart::IntoFile)?;
    push_side(out, side)?;
    push_origin_part(out, OriginPart::CommandEnd)
}

/// Appends where a side's text comes from.
fn push_source(out: &mut Vec<u8>, side: Role, origin: TextOrigin) -> Result<(), AllocError>
    ensures { OnOk result (out.new.items ≡ out.old.items ++ source_html side origin) }
{
    match origin {
        TextOrigin::Input => {
            push_origin_part(out, OriginPart::BeforeInput)?;
            push_side(out, side)?;
            push_origin_part(out, OriginPart::BehindInput)?;
            push_side(out, side)?;
            push_origin_part(out, OriginPart::InputEnd)
        }
        TextOrigin::Copied(volumes) => {
            push_volumes(out, side, volumes)?;
            push_command(out, side, volumes)
        }
    }
}

/// Appends a part, the size of a text in octets, and its SHA-256 sum (FIPS 180-4), in hexadecimal.
#[tactic(auto, unfolding(crate::specs::Origin::sum_html))]
fn push_sum(out: &mut Vec<u8>, name: OriginPart, text: &[u8]) -> Result<(), AllocError>
    ensures { OnOk result (out.new.items ≡ out.old.items ++ sum_html name text.now) }
{
    push_origin_part(out, name)?;
    push_number(out, text.len() as u64)?;
    push_origin_part(out, OriginPart::BeforeSum)?;
    push_octets(out, &Sha256::digest(text))?;
    push_origin_part(out, OriginPart::SumEnd)
}

/// Appends the sum of the certificate, where there is one.
fn push_check_sum(out: &mut Vec<u8>, check: &PageCheck<'_>) -> Result<(), AllocError>
    ensures { OnOk result (out.new.items ≡ out.old.items ++ check_sum_html check.now) }
{
    match check {
        PageCheck::Certificate(text) => push_sum(out, OriginPart::CertificateSum, text),
        PageCheck::Holder(_, _) => Ok(()),
    }
}

/// Appends the text of the certificate, where there is one.
fn push_certificate(out: &mut Vec<u8>, check: &PageCheck<'_>) -> Result<(), AllocError>
    ensures { OnOk result (out.new.items ≡ out.old.items ++ certificate_html check.now) }
{
    match check {
        PageCheck::Certificate(text) => {
            push_origin_part(out, OriginPart::BeforeCertificate)?;
            push_escaped(out, text)?;
            push_origin_part(out, OriginPart::CertificateEnd)
        }
        PageCheck::Holder(_, _) => Ok(()),
    }
}

/// Appends the options of a command.
#[tactic(auto, unfolding(crate::specs::Origin::options_html))]
fn push_options(out: &mut Vec<u8>, skew: Skew, transit: Transit) -> Result<(), AllocError>
    ensures { OnOk result (out.new.items ≡ out.old.items ++ options_html skew transit) }
{
    push_counted(out, OriginPart::SkewOption, skew.milliseconds())?;
    push_counted(out, OriginPart::TransitOption, transit.milliseconds())
}

/// Appends how a certificate is checked.
#[tactic(auto, unfolding(crate::specs::Origin::audit_html))]
fn push_audit(out: &mut Vec<u8>, skew: Skew, transit: Transit) -> Result<(), AllocError>
    ensures { OnOk result (out.new.items ≡ out.old.items ++ audit_html skew transit) }
{
    push_origin_part(out, OriginPart::BeforeAudit)?;
    push_options(out, skew, transit)?;
    push_origin_part(out, OriginPart::BeforeSecondAudit)?;
    push_options(out, skew, transit)?;
    push_origin_part(out, OriginPart::FromInput)
}

/// Appends the option that lets the settings of both journals differ, where they may.
fn push_settings(out: &mut Vec<u8>, rule: SettingsRule) -> Result<(), AllocError>
    ensures { OnOk result (out.new.items ≡ out.old.items ++ settings_html rule) }
{
    match rule {
        SettingsRule::MustAgree => Ok(()),
        SettingsRule::MayDiffer => push_origin_part(out, OriginPart::SettingsOption),
    }
}

/// Appends the words of a question.
#[tactic(auto, unfolding(crate::specs::Origin::question_words))]
fn push_question_words(
    out: &mut Vec<u8>,
    question: PageQuestion,
    rule: SettingsRule,
) -> Result<(), AllocError>
    ensures { OnOk result (out.new.items ≡ out.old.items ++ question_words question rule) }
{
    push_origin_part(out, OriginPart::PrefixOption)?;
    push_prefix(out, &question.prefix)?;
    push_counted(out, OriginPart::AtOption, question.at.milliseconds())?;
    push_origin_part(out, OriginPart::AtUnit)?;
    push_settings(out, rule)
}

/// Appends how an answer to a question is checked.
#[tactic(auto, unfolding(crate::specs::Origin::who_html))]
fn push_who(
    out: &mut Vec<u8>,
    question: PageQuestion,
    rule: SettingsRule,
    skew: Skew,
    transit: Transit,
) -> Result<(), AllocError>
    ensures { OnOk result (out.new.items ≡ out.old.items ++ who_html question rule skew transit) }
{
    push_origin_part(out, OriginPart::BeforeWho)?;
    push_options(out, skew, transit)?;
    push_question_words(out, question, rule)?;
    push_origin_part(out, OriginPart::FromInput)
}

/// Appends how a certificate is checked over files.
#[tactic(auto, unfolding(crate::specs::Origin::files_audit_html))]
fn push_files_audit(out: &mut Vec<u8>, skew: Skew, transit: Transit) -> Result<(), AllocError>
    ensures { OnOk result (out.new.items ≡ out.old.items ++ files_audit_html skew transit) }
{
    push_origin_part(out, OriginPart::BeforeFilesAudit)?;
    push_options(out, skew, transit)?;
    push_origin_part(out, OriginPart::AuditFiles)
}

/// Appends how an answer to a question is checked over files.
#[tactic(auto, unfolding(crate::specs::Origin::files_who_html))]
fn push_files_who(
    out: &mut Vec<u8>,
    question: PageQuestion,
    rule: SettingsRule,
    skew: Skew,
    transit: Transit,
) -> Result<(), AllocError>
    ensures { OnOk result (out.new.items ≡ out.old.items ++ files_who_html question rule skew transit) }
{
    push_origin_part(out, OriginPart::BeforeFilesWho)?;
    push_options(out, skew, transit)?;
    push_origin_part(out, OriginPart::WhoFiles)?;
    push_question_words(out, question, rule)?;
    push_origin_part(out, OriginPart::WhoFilesEnd)
}

/// What the command that checks a page reads the texts from.
#[derive(Clone, Copy, Debug, PartialEq, Eq)]
pub enum CheckForm {
    /// Standard input.
    OverInput,
    /// Files, which may be of volumes that are still written.
    OverFiles,
}

/// Files where both texts are copies.
fn check_form(primary: TextOrigin, secondary: TextOrigin) -> CheckForm
    ensures { result ≡ check_form primary secondary }
{
    match (primary, secondary) {
        (TextOrigin::Copied(_), TextOrigin::Copied(_)) => CheckForm::OverFiles,
        (TextOrigin::Input, _) | (TextOrigin::Copied(_), TextOrigin::Input) => CheckForm::OverInput,
    }
}

/// Appends how the page is checked.
fn push_check(
    out: &mut Vec<u8>,
    form: CheckForm,
    check: &PageCheck<'_>,
    skew: Skew,
    transit: Transit,
) -> Result<(), AllocError>
    ensures { OnOk result (out.new.items ≡ out.old.items ++ check_html form check.now skew transit) }
{
    match (form, check) {
        (CheckForm::OverInput, PageCheck::Certificate(_)) => push_audit(out, skew, transit),
        (CheckForm::OverFiles, PageCheck::Certificate(_)) => push_files_audit(out, skew, transit),
        (CheckForm::OverInput, PageCheck::Holder(question, rule)) => {
            push_who(out, *question, *rule, skew, transit)
        }
        (CheckForm::OverFiles, PageCheck::Holder(question, rule)) => {
            push_files_who(out, *question, *rule, skew, transit)
        }
    }
}

/// Appends the sizes and sums of what the page was made of.
#[tactic(auto, unfolding(crate::specs::Origin::sums_html))]
fn push_sums(out: &mut Vec<u8>, origin: &Provenance<'_>) -> Result<(), AllocError>
    ensures { OnOk result (out.new.items ≡ out.old.items ++ sums_html origin.now) }
{
    push_origin_part(out, OriginPart::BeforeSums)?;
    push_sum(out, OriginPart::PrimarySum, origin.primary.text)?;
    push_sum(out, OriginPart::SecondarySum, origin.secondary.text)?;
    push_check_sum(out, &origin.check)?;
    push_origin_part(out, OriginPart::SumsEnd)
}

/// Appends where the texts of both journals come from.
#[tactic(auto, unfolding(crate::specs::Origin::sources_html))]
fn push_sources(out: &mut Vec<u8>, origin: &Provenance<'_>) -> Result<(), AllocError>
    ensures { OnOk result (out.new.items ≡ out.old.items ++ sources_html origin.now) }
{
    push_source(out, Role::Primary, origin.primary.origin)?;
    push_source(out, Role::Secondary, origin.secondary.origin)
}

/// Appends where the page comes from, and how to check it. `AllocError` where a growth was refused.
#[tactic(auto, unfolding(crate::specs::Origin::origin_html))]
pub(crate) fn push_origin(out: &mut Vec<u8>, origin: &Provenance<'_>) -> Result<(), AllocError>
    ensures { OnOk result (out.new.items ≡ out.old.items ++ origin_html origin.now) }
{
    push_certificate(out, &origin.check)?;
    push_origin_part(out, OriginPart::BeforeProgram)?;
    push_escaped(out, origin.program.as_bytes())?;
    push_sums(out, origin)?;
    push_sources(out, origin)?;
    let form = check_form(origin.primary.origin, origin.secondary.origin);
    push_check(out, form, &origin.check, origin.skew, origin.transit)
}
