//! The order of the stages.

ghost use Rattle.std.specs.Prelude.{◌≡◌};
ghost use Rattle.part_defs.specs.Log.{following};

use nook_data::steps::Stage;
use shadow_log::ShadowLog;

/// The stage that follows a stage of a recovery. None exactly after Resume.
pub fn following(stage: &Stage, log: &ShadowLog) -> Option<Stage>
    ensures { result ≡ following stage.now log.now }
{
    match stage {
        Stage::Stop => Some(Stage::Collect),
        Stage::Collect => Some(Stage::Reset),
        Stage::Reset => Some(Stage::Load),
        Stage::Load => Some(Stage::Init),
        Stage::Init | Stage::ReplaySet { .. } | Stage::ReplayOpen => Some(log.replay_next(stage)),
        Stage::Resume => None,
    }
}
