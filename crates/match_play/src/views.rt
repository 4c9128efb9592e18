//! Views of what a match stands on.
ghost use Rattle.std.specs.Prelude.{IfOk};
ghost use Rattle.match_play.specs.Playing.{IsView, said_of};

use crate::states::MatchProgress;
use grid_versions::Version;
use nav_types::NoMemory;
use std::alloc::Global;
use turn_core::bare_version;

/// The version that stands, to be asked beside the match.
pub(crate) fn view_of(alloc: Global, progress: &MatchProgress) -> Result<Option<Version>, NoMemory>
    ensures { IfOk result (IsView (said_of progress.now)) }
{
    match progress {
        MatchProgress::Nothing => Ok(None),
        MatchProgress::Map(map) => match bare_version(alloc, map) {
            Ok(version) => Ok(Some(version)),
            Err(NoMemory) => Err(NoMemory),
        },
        MatchProgress::Turns(version, _) => match version.share() {
            Ok(version) => Ok(Some(version)),
            Err(NoMemory) => Err(NoMemory),
        },
    }
}
