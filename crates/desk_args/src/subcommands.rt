//! The commands, as clap is told of them.

ghost use Rattle.std.specs.Prelude.{◌≡◌, codes, IfOk, true, false};
ghost use Rattle.clap.specs.Words.{app_of, new_app, with_rule, with_subcommand};
ghost use Rattle.clap.specs.declared.builder.command.Command.TheViews.{out-Command};
ghost use Rattle.desk_args.specs.Words.{claim_app, with_case, with_facts, with_zone, with_telling, audit_app, explain_app, batch_app, asking_app};
ghost use Rattle.desk_args.specs.Words.{find_app, moment_app, span_app, who_app, timeline_app, judging_app, claims_app};
ghost use Rattle.desk_args.specs.Words.{join_app, side_copy_app, copy_app, volumes_app, searching_app, showing_app, desk, bare};
ghost use Rattle.desk_args.specs.Words.{option_rule, flag_rule};

use crate::arguments::{over_journals, with_flag, with_journals, with_option, with_place};
use clap::Command as ClapCommand;
use std::alloc::{AllocError, Global};

/// `NAME [--skew-ms N] [--transit-ms N] ..`: a command that believes clocks as far as said.
fn bounded_command<'a>(alloc: Global, name: &'a str) -> Result<ClapCommand<'a>, AllocError>
    ensures app { IfOk result (λ c. app_of c ≡ with_rule (with_rule (new_app name.entry.now)
        (option_rule (codes "skew-ms") false)) (option_rule (codes "transit-ms") false)) }
    ensures local { IfOk result (λ c. (out-Command c).has_globals ≡ false) }
{
    let claim = with_option(alloc, ClapCommand::new(alloc, name), "skew-ms", false)?;
    with_option(alloc, claim, "transit-ms", false)
}

/// `NAME .. [--journals PATH].. [--certificate PATH] [--volumes SPANS]`: a command over one certificate.
fn claim_command<'a>(alloc: Global, name: &'a str) -> Result<ClapCommand<'a>, AllocError>
    ensures app { IfOk result (λ c. app_of c ≡ claim_app name.entry.now) }
    ensures local { IfOk result (λ c. (out-Command c).has_globals ≡ false) }
{
    let claim = with_journals(alloc, bounded_command(alloc, name)?)?;
    let claim = with_option(alloc, claim, "certificate", false)?;
    with_option(alloc, claim, "volumes", false)
}

/// A command whose page says `[--case TEXT] [--asked-by TEXT]`.
fn with_case<'a>(alloc: Global, command: ClapCommand<'a>) -> Result<ClapCommand<'a>, AllocError>
    ensures app { IfOk result (λ c. app_of c ≡ with_case (app_of command.entry)) }
    ensures local { (out-Command command.entry).has_globals ≡ false
        → IfOk result (λ c. (out-Command c).has_globals ≡ false) }
{
    let told = with_option(alloc, command, "case", false)?;
    with_option(alloc, told, "asked-by", false)
}

/// A command whose page says `.. [--made TIME]` too.
fn with_facts<'a>(alloc: Global, command: ClapCommand<'a>) -> Result<ClapCommand<'a>, AllocError>
    ensures app { IfOk result (λ c. app_of c ≡ with_facts (app_of command.entry)) }
    ensures local { (out-Command command.entry).has_globals ≡ false
        → IfOk result (λ c. (out-Command c).has_globals ≡ false) }
{
    with_option(alloc, with_case(alloc, command)?, "made", false)
}

/// The same whose moments are told with `.. [--zone NAME]`.
fn with_zone<'a>(alloc: Global, command: ClapCommand<'a>) -> Result<ClapCommand<'a>, AllocError>
    ensures app { IfOk result (λ c. app_of c ≡ with_zone (app_of command.entry)) }
    ensures local { (out-Command command.entry).has_globals ≡ false
        → IfOk result (λ c. (out-Command c).has_globals ≡ false) }
{
    with_option(alloc, with_facts(alloc, command)?, "zone", false)
}

/// A command whose report is told with `.. [--html] [--json]`.
fn with_telling<'a>(alloc: Global, command: ClapCommand<'a>) -> Result<ClapCommand<'a>, AllocError>
    ensures app { IfOk result (λ c. app_of c ≡ with_telling (app_of command.entry)) }
    ensures local { (out-Command command.entry).has_globals ≡ false
        → IfOk result (λ c. (out-Command c).has_globals ≡ false) }
{
    let told = with_flag(alloc, with_zone(alloc, command)?, "html")?;
    with_flag(alloc, told, "json")
}

/// `audit .. [--json]`.
fn audit_command<'a>(alloc: Global) -> Result<ClapCommand<'a>, AllocError>
    ensures app { IfOk result (λ c. app_of c ≡ audit_app) }
    ensures local { IfOk result (λ c. (out-Command c).has_globals ≡ false) }
{
    with_flag(alloc, claim_command(alloc, "audit")?, "json")
}

/// `explain .. [--case TEXT] [--asked-by TEXT] [--made TIME] [--zone NAME] [--html] [--json]`.
fn explain_command<'a>(alloc: Global) -> Result<ClapCommand<'a>, AllocError>
    ensures app { IfOk result (λ c. app_of c ≡ explain_app) }
    ensures local { IfOk result (λ c. (out-Command c).has_globals ≡ false) }
{
    with_telling(alloc, claim_command(alloc, "explain")?)
}

/// `batch --skew-ms N --workers N ..`.
fn working_command<'a>(alloc: Global) -> Result<ClapCommand<'a>, AllocError>
    ensures app { IfOk result (λ c. app_of c ≡ with_rule (with_rule (new_app (codes "batch"))
        (option_rule (codes "skew-ms") false)) (option_rule (codes "workers") true)) }
    ensures local { IfOk result (λ c. (out-Command c).has_globals ≡ false) }
{
    let batch = with_option(alloc, ClapCommand::new(alloc, "batch"), "skew-ms", false)?;
    with_option(alloc, batch, "workers", true)
}

/// `batch --skew-ms N --workers N [--transit-ms N] ..`.
fn batch_command<'a>(alloc: Global) -> Result<ClapCommand<'a>, AllocError>
    ensures app { IfOk result (λ c. app_of c ≡ batch_app) }
    ensures local { IfOk result (λ c. (out-Command c).has_globals ≡ false) }
{
    let batch = with_option(alloc, working_command(alloc)?, "transit-ms", false)?;
    let batch = with_journals(alloc, batch)?;
    let batch = with_option(alloc, batch, "certificate", false)?;
    with_option(alloc, batch, "volumes", false)
}

/// `find --skew-ms N --holder HEX --prefix P ..`: who is asked of, and what.
fn asking_command<'a>(alloc: Global) -> Result<ClapCommand<'a>, AllocError>
    ensures app { IfOk result (λ c. app_of c ≡ asking_app) }
    ensures local { IfOk result (λ c. (out-Command c).has_globals ≡ false) }
{
    let find = with_option(alloc, ClapCommand::new(alloc, "find"), "skew-ms", false)?;
    let find = with_option(alloc, find, "holder", true)?;
    with_option(alloc, find, "prefix", true)
}

/// `find .. --from M --to M ..`: and in which interval.
fn interval_command<'a>(alloc: Global) -> Result<ClapCommand<'a>, AllocError>
    ensures app { IfOk result (λ c. app_of c ≡ with_rule (with_rule asking_app
        (option_rule (codes "from") true)) (option_rule (codes "to") true)) }
    ensures local { IfOk result (λ c. (out-Command c).has_globals ≡ false) }
{
    let find = with_option(alloc, asking_command(alloc)?, "from", true)?;
    with_option(alloc, find, "to", true)
}

/// `find .. --from M --to M [--transit-ms N] [--journals PATH].. [--zone NAME] [--json]`.
fn find_command<'a>(alloc: Global) -> Result<ClapCommand<'a>, AllocError>
    ensures app { IfOk result (λ c. app_of c ≡ find_app) }
    ensures local { IfOk result (λ c. (out-Command c).has_globals ≡ false) }
{
    let find = with_option(alloc, interval_command(alloc)?, "transit-ms", false)?;
    let find = with_journals(alloc, find)?;
    let find = with_option(alloc, find, "zone", false)?;
    with_flag(alloc, find, "json")
}

/// `who [--skew-ms N] [--prefix P] [--at M] ..`: which prefix is asked of, and at which moment.
fn named_command<'a>(alloc: Global) -> Result<ClapCommand<'a>, AllocError>
    ensures app { IfOk result (λ c. app_of c ≡ with_rule (with_rule (with_rule (new_app (codes "who"))
        (option_rule (codes "skew-ms") false)) (option_rule (codes "prefix") false)) (option_rule (codes "at") false)) }
    ensures local { IfOk result (λ c. (out-Command c).has_globals ≡ false) }
{
    let who = with_option(alloc, ClapCommand::new(alloc, "who"), "skew-ms", false)?;
    let who = with_option(alloc, who, "prefix", false)?;
    with_option(alloc, who, "at", false)
}

/// `who .. [ADDRESS [TIME]]`: the same by two words.
fn moment_command<'a>(alloc: Global) -> Result<ClapCommand<'a>, AllocError>
    ensures app { IfOk result (λ c. app_of c ≡ moment_app) }
    ensures local { IfOk result (λ c. (out-Command c).has_globals ≡ false) }
{
    let who = with_place(alloc, named_command(alloc)?, "address")?;
    with_place(alloc, who, "time")
}

/// `who .. [--within S] [--minute]`: and for which moments round it.
fn span_command<'a>(alloc: Global) -> Result<ClapCommand<'a>, AllocError>
    ensures app { IfOk result (λ c. app_of c ≡ span_app) }
    ensures local { IfOk result (λ c. (out-Command c).has_globals ≡ false) }
{
    let who = with_option(alloc, moment_command(alloc)?, "within", false)?;
    with_flag(alloc, who, "minute")
}

/// `who .. [--transit-ms N] [--settings-differ] ..`: and by which bounds.
fn bounds_command<'a>(alloc: Global) -> Result<ClapCommand<'a>, AllocError>
    ensures app { IfOk result (λ c. app_of c ≡ with_rule (with_rule span_app
        (option_rule (codes "transit-ms") false)) (flag_rule (codes "settings-differ"))) }
    ensures local { IfOk result (λ c. (out-Command c).has_globals ≡ false) }
{
    let who = with_option(alloc, span_command(alloc)?, "transit-ms", false)?;
    with_flag(alloc, who, "settings-differ")
}

/// `who .. [--transit-ms N] [--settings-differ] [--journals PATH].. [--explain] ..`.
fn who_command<'a>(alloc: Global) -> Result<ClapCommand<'a>, AllocError>
    ensures app { IfOk result (λ c. app_of c ≡ who_app) }
    ensures local { IfOk result (λ c. (out-Command c).has_globals ≡ false) }
{
    let who = with_journals(alloc, bounds_command(alloc)?)?;
    with_telling(alloc, with_flag(alloc, who, "explain")?)
}

/// `timeline [--journals PATH]..`.
fn timeline_command<'a>(alloc: Global) -> Result<ClapCommand<'a>, AllocError>
    ensures app { IfOk result (λ c. app_of c ≡ timeline_app) }
    ensures local { IfOk result (λ c. (out-Command c).has_globals ≡ false) }
{
    with_journals(alloc, ClapCommand::new(alloc, "timeline"))
}

/// `join --journals PATH.. --side A|B [--from N] [--to N]`.
fn join_command<'a>(alloc: Global) -> Result<ClapCommand<'a>, AllocError>
    ensures app { IfOk result (λ c. app_of c ≡ join_app) }
    ensures local { IfOk result (λ c. (out-Command c).has_globals ≡ false) }
{
    let join = over_journals(alloc, ClapCommand::new(alloc, "join"))?;
    let join = with_option(alloc, join, "side", true)?;
    let join = with_option(alloc, join, "from", false)?;
    with_option(alloc, join, "to", false)
}

/// `copy --journals PATH.. --side A|B --from N ..`.
fn side_copy_command<'a>(alloc: Global) -> Result<ClapCommand<'a>, AllocError>
    ensures app { IfOk result (λ c. app_of c ≡ side_copy_app) }
    ensures local { IfOk result (λ c. (out-Command c).has_globals ≡ false) }
{
    let copy = over_journals(alloc, ClapCommand::new(alloc, "copy"))?;
    let copy = with_option(alloc, copy, "side", true)?;
    with_option(alloc, copy, "from", true)
}

/// `copy .. [--to N] --lines N`.
fn copy_command<'a>(alloc: Global) -> Result<ClapCommand<'a>, AllocError>
    ensures app { IfOk result (λ c. app_of c ≡ copy_app) }
    ensures local { IfOk result (λ c. (out-Command c).has_globals ≡ false) }
{
    let copy = with_option(alloc, side_copy_command(alloc)?, "to", false)?;
    with_option(alloc, copy, "lines", true)
}

/// The desk, which does nothing without a command.
fn bare_command<'a>(alloc: Global) -> ClapCommand<'a>
    ensures { app_of result ≡ bare }
{
    ClapCommand::new(alloc, "desk_cli")
        .subcommand_required(true)
        .disable_help_subcommand(true)
}

/// The command that audits.
fn auditing_command<'a>(alloc: Global) -> Result<ClapCommand<'a>, AllocError>
    ensures { IfOk result (λ c. app_of c ≡ with_subcommand bare audit_app.top) }
{
    let audit = audit_command(alloc)?;
    bare_command(alloc).subcommand(audit)
}

/// The commands that judge certificates.
fn judging_command<'a>(alloc: Global) -> Result<ClapCommand<'a>, AllocError>
    ensures { IfOk result (λ c. app_of c ≡ judging_app) }
{
    let batch = batch_command(alloc)?;
    auditing_command(alloc)?.subcommand(batch)
}

/// Those and the one that explains.
fn claims_command<'a>(alloc: Global) -> Result<ClapCommand<'a>, AllocError>
    ensures { IfOk result (λ c. app_of c ≡ claims_app) }
{
    let judging = judging_command(alloc)?;
    let explain = explain_command(alloc)?;
    judging.subcommand(explain)
}

/// Those and the one that finds.
fn finding_command<'a>(alloc: Global) -> Result<ClapCommand<'a>, AllocError>
    ensures { IfOk result (λ c. app_of c ≡ with_subcommand claims_app find_app.top) }
{
    let find = find_command(alloc)?;
    claims_command(alloc)?.subcommand(find)
}

/// Those and the commands that search.
fn searching_command<'a>(alloc: Global) -> Result<ClapCommand<'a>, AllocError>
    ensures { IfOk result (λ c. app_of c ≡ searching_app) }
{
    let who = who_command(alloc)?;
    finding_command(alloc)?.subcommand(who)
}

/// Those and the one that shows two journals as one.
fn merging_command<'a>(alloc: Global) -> Result<ClapCommand<'a>, AllocError>
    ensures { IfOk result (λ c. app_of c ≡ with_subcommand searching_app timeline_app.top) }
{
    let timeline = timeline_command(alloc)?;
    searching_command(alloc)?.subcommand(timeline)
}

/// Those and the commands that show two journals.
fn showing_command<'a>(alloc: Global) -> Result<ClapCommand<'a>, AllocError>
    ensures { IfOk result (λ c. app_of c ≡ showing_app) }
{
    merging_command(alloc)?.subcommand(ClapCommand::new(alloc, "clocks"))
}

/// `volumes --journals PATH..`.
fn volumes_command<'a>(alloc: Global) -> Result<ClapCommand<'a>, AllocError>
    ensures app { IfOk result (λ c. app_of c ≡ volumes_app) }
    ensures local { IfOk result (λ c. (out-Command c).has_globals ≡ false) }
{
    over_journals(alloc, ClapCommand::new(alloc, "volumes"))
}

/// Those and the one that puts volumes together.
fn joining_command<'a>(alloc: Global) -> Result<ClapCommand<'a>, AllocError>
    ensures { IfOk result (λ c. app_of c ≡ with_subcommand showing_app join_app.top) }
{
    let showing = showing_command(alloc)?;
    let join = join_command(alloc)?;
    showing.subcommand(join)
}

/// Those and the one that copies.
fn copying_command<'a>(alloc: Global) -> Result<ClapCommand<'a>, AllocError>
    ensures { IfOk result (λ c. app_of c ≡ with_subcommand (with_subcommand showing_app join_app.top) copy_app.top) }
{
    let joining = joining_command(alloc)?;
    let copy = copy_command(alloc)?;
    joining.subcommand(copy)
}

/// All commands.
pub(crate) fn desk_command<'a>(alloc: Global) -> Result<ClapCommand<'a>, AllocError>
    ensures { IfOk result (λ c. app_of c ≡ desk) }
{
    let copying = copying_command(alloc)?;
    let volumes = volumes_command(alloc)?;
    copying.subcommand(volumes)
}
