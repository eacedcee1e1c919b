//! What of a page is always the same.

ghost use Rattle.std.specs.Prelude.{◌≡◌, ◌++◌, OnOk};
ghost use Rattle.report_render.specs.Template.{part_text};

use std::alloc::AllocError;

/// A part of a page that is always the same.
#[derive(Clone, Copy, Debug, PartialEq, Eq)]
pub enum PagePart {
    /// Up to the title of the browser's window.
    Head,
    /// Between that and the title on the page.
    BehindTitle,
    /// Between that and the ruling's line.
    BeforeLine,
    /// Behind the ruling's line.
    BehindLine,
    /// Before the facts.
    FactsBegin,
    /// Before the prefix that was asked about.
    PrefixRow,
    /// Before the moment that was asked about.
    MomentRow,
    /// Before the case.
    CaseRow,
    /// Before who asked.
    AskedByRow,
    /// Before the time when the page was made.
    MadeRow,
    /// Behind a fact.
    RowEnd,
    /// Behind the facts.
    FactsEnd,
    /// Before the picture.
    BeforePicture,
    /// Behind the picture.
    BehindPicture,
    /// Before the rows of the grants.
    GrantsBegin,
    /// Before the number of a piece.
    GrantRow,
    /// Between that and the first cell.
    FirstCell,
    /// Between a cell and the next.
    NextCell,
    /// Before the first cell of what a line grants.
    CellBegin,
    /// Behind the last cell before it, and behind its own last.
    CellEnd,
    /// Behind the seconds of a lifetime that never ends.
    ForEver,
    /// That a line grants nothing.
    NoLease,
    /// Behind what a line grants.
    GrantRowEnd,
    /// Behind the rows of a table.
    GrantsEnd,
    /// Before the rows of the lines in their volumes.
    VolumeLinesBegin,
    /// Before the access records.
    BeforeAccess,
    /// Behind them.
    AccessEnd,
    /// Behind all.
    Tail,
}

/// The text of a part.
#[tactic(auto, unfolding(crate::specs::Template::part_text))]
fn part_text(part: PagePart) -> &'static str
    ensures { result.now ≡ part_text part }
{
    match part {
        PagePart::Head => HEAD,
        PagePart::BehindTitle => BEHIND_TITLE,
        PagePart::BeforeLine => BEFORE_LINE,
        PagePart::BehindLine => BEHIND_LINE,
        PagePart::FactsBegin => FACTS_BEGIN,
        PagePart::PrefixRow => PREFIX_ROW,
        PagePart::MomentRow => MOMENT_ROW,
        PagePart::CaseRow => CASE_ROW,
        PagePart::AskedByRow => ASKED_BY_ROW,
        PagePart::MadeRow => MADE_ROW,
        PagePart::RowEnd => ROW_END,
        PagePart::FactsEnd => FACTS_END,
        PagePart::BeforePicture => BEFORE_PICTURE,
        PagePart::BehindPicture => BEHIND_PICTURE,
        PagePart::GrantsBegin => GRANTS_BEGIN,
        PagePart::GrantRow => GRANT_ROW,
        PagePart::FirstCell => FIRST_CELL,
        PagePart::NextCell => NEXT_CELL,
        PagePart::CellBegin => CELL_BEGIN,
        PagePart::CellEnd => CELL_END,
        PagePart::ForEver => FOR_EVER,
        PagePart::NoLease => NO_LEASE,
        PagePart::GrantRowEnd => GRANT_ROW_END,
        PagePart::GrantsEnd => GRANTS_END,
        PagePart::VolumeLinesBegin => VOLUME_LINES_BEGIN,
        PagePart::BeforeAccess => BEFORE_ACCESS,
        PagePart::AccessEnd => ACCESS_END,
        PagePart::Tail => TAIL,
    }
}

/// Appends a part.
pub(crate) fn push_part(out: &mut Vec<u8>, part: PagePart) -> Result<(), AllocError>
    ensures { OnOk result (out.new.items ≡ out.old.items ++ part_text part) }
{
    out.extend_from_slice(part_text(part).as_bytes())
}

const HEAD: &str = "<!DOCTYPE html>\n\
    <html lang=\"en\">\n\
    <head>\n\
    <meta charset=\"utf-8\"/>\n\
    <meta name=\"viewport\" content=\"width=device-width, initial-scale=1\"/>\n\
    <title>";

const BEHIND_TITLE: &str = "</title>\n\
    <style>\n\
    body { font-family: serif; color: #000; background: #fff; max-width: 60em; margin: 2em auto; padding: 0 1em; }\n\
    h1 { font-size: 1.4em; line-height: 1.3; overflow-wrap: anywhere; }\n\
    h2 { font-size: 1.1em; margin: 1.5em 0 0.5em; break-after: avoid; }\n\
    p { margin: 0.4em 0; line-height: 1.4; overflow-wrap: anywhere; }\n\
    p.item { margin-left: 1.2em; text-indent: -0.8em; }\n\
    p.item::before { content: \"- \"; }\n\
    pre { margin: 0.2em 0 0.2em 1.2em; white-space: pre-wrap; overflow-wrap: anywhere; font-size: 0.85em; }\n\
    pre.ruling { margin: 0.5em 0; padding: 0.5em 0; border-top: 2px solid #000; border-bottom: 2px solid #000; }\n\
    dt { font-weight: bold; }\n\
    dd { margin: 0 0 0.4em 1.2em; overflow-wrap: anywhere; }\n\
    table { border-collapse: collapse; }\n\
    th, td { padding: 0.3em 1em 0.3em 0; text-align: left; vertical-align: top; }\n\
    caption { margin: 1em 0 0.3em; text-align: left; font-weight: bold; }\n\
    .grants th, .grants td { white-space: nowrap; }\n\
    code { overflow-wrap: anywhere; }\n\
    figure { margin: 1em 0; break-inside: avoid; }\n\
    .scroll { overflow-x: auto; }\n\
    svg { display: block; width: 100%; min-width: 62.5em; height: auto; }\n\
    @media print { .scroll { overflow: visible; } svg { min-width: 0; } .grants th, .grants td { white-space: normal; \
    padding-right: 0.5em; } tr { break-inside: avoid; } }\n\
    </style>\n\
    </head>\n\
    <body>\n\
    <h1>";

const BEFORE_LINE: &str = "</h1>\n<pre class=\"ruling\">";

const BEHIND_LINE: &str = "</pre>\n";

const FACTS_BEGIN: &str = "<dl>\n";

const PREFIX_ROW: &str = "<dt>Prefix asked about</dt><dd>";

const MOMENT_ROW: &str = "<dt>Moment asked about</dt><dd>";

const CASE_ROW: &str = "<dt>Case</dt><dd>";

const ASKED_BY_ROW: &str = "<dt>Asked by</dt><dd>";

const MADE_ROW: &str = "<dt>Made</dt><dd>";

const ROW_END: &str = "</dd>\n";

const FACTS_END: &str = "</dl>\n";

const BEFORE_PICTURE: &str = "<figure>\n<div class=\"scroll\">\n";

const BEHIND_PICTURE: &str =
    "</div>\n<figcaption>Moments in their order from left to right, and not to scale. A bar is \
    solid while its lease lasted for sure, and dashed while it may have lasted. Below, the lines of both servers stand \
    where their clocks showed, and arrows are messages. The grey band is the interval, and the thick line the moment that \
    was asked about, where there was one. Times are in UTC.</figcaption>\n</figure>\n";

const GRANTS_BEGIN: &str =
    "<div class=\"scroll\">\n<table class=\"grants\">\n<caption>Grants</caption>\n\
    <thead><tr><th scope=\"col\">Piece</th><th scope=\"col\">From</th><th scope=\"col\">To</th><th scope=\"col\">Line</th><th scope=\"col\">Granted</th>\
    <th scope=\"col\">Lifetime in seconds</th></tr></thead>\n<tbody>\n";

const GRANT_ROW: &str = "<tr><th scope=\"row\">";

const FIRST_CELL: &str = "</th><td>";

const NEXT_CELL: &str = "</td><td>";

const CELL_BEGIN: &str = "<td>";

const CELL_END: &str = "</td>";

const FOR_EVER: &str = ", for ever";

const NO_LEASE: &str = "<td colspan=\"2\">grants nothing</td>";

const GRANT_ROW_END: &str = "</tr>\n";

const GRANTS_END: &str = "</tbody>\n</table>\n</div>\n";

const VOLUME_LINES_BEGIN: &str =
    "<div class=\"scroll\">\n<table class=\"grants\">\n<caption>Lines in their volumes</caption>\n\
    <thead><tr><th scope=\"col\">Line</th><th scope=\"col\">Volume</th><th scope=\"col\">Line there</th></tr></thead>\n<tbody>\n";

const BEFORE_ACCESS: &str =
    "<h2>Where the client was, as a relay said</h2>\n<p>These are access records, and no part of what is proved.</p>\n\
    <pre>";

const ACCESS_END: &str = "</pre>\n";

const TAIL: &str = "</body>\n</html>\n";
