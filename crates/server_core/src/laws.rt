//! The laws of a settle, of a roll and of a start.

ghost use Rattle.server_core.specs.Laws.{CommitsKeep, RollsKeep};
ghost use Rattle.server_core.specs.Starting.{StartsKeep};

use disk_model::left_are_first;
use open_volume::{first_lines_are_parsed, text_gives_the_volume_it_spells};
use volume_store::{left_are_legal, next_is_its_servers};

/// Behind a settle the volumes are the same server's, and at each moment meanwhile a loss of power leaves contents of
/// its folder: what was on the disk before is among them.
pub fn commit_keeps_volumes()
    ensures { CommitsKeep }
{
    first_lines_are_parsed();
    text_gives_the_volume_it_spells();
    left_are_legal();
    left_are_first();
}

/// Behind a roll the volumes are the same server's, the one that was closed among those that have ended; and at each
/// moment meanwhile a loss of power leaves contents of its folder.
pub fn roll_keeps_volumes()
    ensures { RollsKeep }
{
    first_lines_are_parsed();
    text_gives_the_volume_it_spells();
    left_are_legal();
    left_are_first();
    next_is_its_servers();
}

/// A start that did what its folder led to begins with the volumes of the server whose volumes were left there.
pub fn start_keeps_volumes()
    ensures { StartsKeep }
{
    first_lines_are_parsed();
    text_gives_the_volume_it_spells();
    left_are_legal();
    left_are_first();
    next_is_its_servers();
}
