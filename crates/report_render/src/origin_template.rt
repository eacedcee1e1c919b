//! What of a page's origin and its checks is always the same.

ghost use Rattle.std.specs.Prelude.{◌≡◌, ◌++◌, OnOk};
ghost use Rattle.report_render.specs.OriginTemplate.{origin_text};

use std::alloc::AllocError;

/// A part of what a page says of where it comes from that is always the same.
#[derive(Clone, Copy, Debug, PartialEq, Eq)]
pub enum OriginPart {
    /// Before the certificate's text.
    BeforeCertificate,
    /// Behind it.
    CertificateEnd,
    /// Before the program's name.
    BeforeProgram,
    /// Between that and the sums.
    BeforeSums,
    /// Before the size of journal A.
    PrimarySum,
    /// Before the size of journal B.
    SecondarySum,
    /// Before the size of the certificate.
    CertificateSum,
    /// Between a size and its sum.
    BeforeSum,
    /// Behind a sum.
    SumEnd,
    /// Behind the sums.
    SumsEnd,
    /// Before the side of a text that was given.
    BeforeInput,
    /// Between that and the name of its file.
    BehindInput,
    /// Behind that.
    InputEnd,
    /// Before the side of a text of volumes.
    BeforeCopied,
    /// Before the number of the first volume.
    FirstVolume,
    /// Before that of the last of several.
    LastVolume,
    /// Before the number of the last line that was used.
    UpToLine,
    /// Before the side of the command that copies it.
    CopyCommand,
    /// Before the first volume of that command.
    FromOption,
    /// Before its last volume.
    ToOption,
    /// Before its number of lines.
    LinesOption,
    /// Before the file that it makes.
    IntoFile,
    /// Behind that.
    CommandEnd,
    /// Before the options of the command that checks a certificate.
    BeforeAudit,
    /// Between these and those of the other command.
    BeforeSecondAudit,
    /// Before the options of the command that checks a certificate over files.
    BeforeFilesAudit,
    /// Behind them.
    AuditFiles,
    /// Before the options of the command that answers the question.
    BeforeWho,
    /// Before those of it over files.
    BeforeFilesWho,
    /// The files of that command.
    WhoFiles,
    /// Before the skew of a command.
    SkewOption,
    /// Before its transit.
    TransitOption,
    /// Before its prefix.
    PrefixOption,
    /// Before its moment.
    AtOption,
    /// Behind a command's words.
    FromInput,
    /// Behind its moment.
    AtUnit,
    /// That the settings of both journals may differ.
    SettingsOption,
    /// Behind a question's command over files.
    WhoFilesEnd,
}

/// The text of a part.
#[tactic(auto, unfolding(crate::specs::OriginTemplate::origin_text))]
fn origin_text(part: OriginPart) -> &'static str
    ensures { result.now ≡ origin_text part }
{
    match part {
        OriginPart::BeforeCertificate => BEFORE_CERTIFICATE,
        OriginPart::CertificateEnd => CERTIFICATE_END,
        OriginPart::BeforeProgram => BEFORE_PROGRAM,
        OriginPart::BeforeSums => BEFORE_SUMS,
        OriginPart::PrimarySum => PRIMARY_SUM,
        OriginPart::SecondarySum => SECONDARY_SUM,
        OriginPart::CertificateSum => CERTIFICATE_SUM,
        OriginPart::BeforeSum => BEFORE_SUM,
        OriginPart::SumEnd => SUM_END,
        OriginPart::SumsEnd => SUMS_END,
        OriginPart::BeforeInput => BEFORE_INPUT,
        OriginPart::BehindInput => BEHIND_INPUT,
        OriginPart::InputEnd => INPUT_END,
        OriginPart::BeforeCopied => BEFORE_COPIED,
        OriginPart::FirstVolume => FIRST_VOLUME,
        OriginPart::LastVolume => LAST_VOLUME,
        OriginPart::UpToLine => UP_TO_LINE,
        OriginPart::CopyCommand => COPY_COMMAND,
        OriginPart::FromOption => FROM_OPTION,
        OriginPart::ToOption => TO_OPTION,
        OriginPart::LinesOption => LINES_OPTION,
        OriginPart::IntoFile => INTO_FILE,
        OriginPart::CommandEnd => COMMAND_END,
        OriginPart::BeforeAudit => BEFORE_AUDIT,
        OriginPart::BeforeSecondAudit => BEFORE_SECOND_AUDIT,
        OriginPart::BeforeFilesAudit => BEFORE_FILES_AUDIT,
        OriginPart::AuditFiles => AUDIT_FILES,
        OriginPart::BeforeWho => BEFORE_WHO,
        OriginPart::BeforeFilesWho => BEFORE_FILES_WHO,
        OriginPart::WhoFiles => WHO_FILES,
        OriginPart::SkewOption => SKEW_OPTION,
        OriginPart::TransitOption => TRANSIT_OPTION,
        OriginPart::PrefixOption => PREFIX_OPTION,
        OriginPart::AtOption => AT_OPTION,
        OriginPart::FromInput => FROM_INPUT,
        OriginPart::AtUnit => AT_UNIT,
        OriginPart::SettingsOption => SETTINGS_OPTION,
        OriginPart::WhoFilesEnd => WHO_FILES_END,
    }
}

/// Appends a part.
pub(crate) fn push_origin_part(out: &mut Vec<u8>, part: OriginPart) -> Result<(), AllocError>
    ensures { OnOk result (out.new.items ≡ out.old.items ++ origin_text part) }
{
    out.extend_from_slice(origin_text(part).as_bytes())
}

const BEFORE_CERTIFICATE: &str = "<h2>The certificate</h2>\n<pre>";

const CERTIFICATE_END: &str = "</pre>\n";

const BEFORE_PROGRAM: &str =
    "<h2>How this was made, and how to check it</h2>\n<p>This page was made by ";

const BEFORE_SUMS: &str =
    ". It was made of these texts:</p>\n<table>\n<thead><tr><th scope=\"col\">Text</th>\
    <th scope=\"col\">Octets</th><th scope=\"col\">SHA-256</th></tr></thead>\n<tbody>\n";

const PRIMARY_SUM: &str = "<tr><th scope=\"row\">journal A</th><td>";

const SECONDARY_SUM: &str = "<tr><th scope=\"row\">journal B</th><td>";

const CERTIFICATE_SUM: &str = "<tr><th scope=\"row\">certificate</th><td>";

const BEFORE_SUM: &str = "</td><td><code>";

const SUM_END: &str = "</code></td></tr>\n";

const SUMS_END: &str = "</tbody>\n</table>\n";

const BEFORE_INPUT: &str = "<p>Journal ";

const BEHIND_INPUT: &str = " was given as it is: save it as ";

const INPUT_END: &str = ".txt.</p>\n";

const BEFORE_COPIED: &str = "<p>Journal ";

const FIRST_VOLUME: &str = " is of volume ";

const LAST_VOLUME: &str = " to ";

const UP_TO_LINE: &str = ", up to line ";

const COPY_COMMAND: &str =
    ". This prints it, where DIR DIR are the directories of both servers:</p>\n\
    <pre>./desk copy --journals DIR DIR --side ";

const FROM_OPTION: &str = " --from ";

const TO_OPTION: &str = " --to ";

const LINES_OPTION: &str = " --lines ";

const INTO_FILE: &str = " &gt; ";

const COMMAND_END: &str = ".txt</pre>\n";

const BEFORE_AUDIT: &str =
    "<p>Save the certificate as certificate.txt. Then each of the last two commands must print the line under the title \
    of this page; the second is by other hands, in another language:</p>\n\
    <pre>cat A.txt B.txt certificate.txt &gt; input\n./desk audit";

const BEFORE_SECOND_AUDIT: &str = " &lt; input\npython3 reference/desk audit";

const BEFORE_WHO: &str =
    "<p>Then the last command must print the line under the title of this page:</p>\n\
    <pre>cat A.txt B.txt &gt; input\n./desk who";

const SKEW_OPTION: &str = " --skew-ms ";

const TRANSIT_OPTION: &str = " --transit-ms ";

const PREFIX_OPTION: &str = " --prefix ";

const AT_OPTION: &str = " --at ";

const FROM_INPUT: &str = " &lt; input</pre>\n";

const AT_UNIT: &str = "ms";

const SETTINGS_OPTION: &str = " --settings-differ";

const WHO_FILES_END: &str = "</pre>\n";

const BEFORE_FILES_AUDIT: &str =
    "<p>Save the certificate as certificate.txt. Then this must print the line under the title of this page:</p>\n\
    <pre>./desk audit";

const AUDIT_FILES: &str = " --journals A.txt B.txt --certificate certificate.txt</pre>\n";

const BEFORE_FILES_WHO: &str =
    "<p>Then this must print the line under the title of this page:</p>\n<pre>./desk who";

const WHO_FILES: &str = " --journals A.txt B.txt";
