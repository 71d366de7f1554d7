//! What follows for a list of operations.

ghost use Rattle.std.specs.Prelude.{◌≡◌, ◌||◌, true, ℕ, List};
ghost use Rattle.nook_data.specs.declared.mirror.MirrorAnswer.{MirrorAnswer};
ghost use Rattle.nook_data.specs.declared.calls.Op.{Op};
ghost use Rattle.mirror_block.specs.Disk.{ServesAll};
ghost use Rattle.mirror_block.specs.Mirrors.{AreServed, IsDisk, MirrorView};

use desk_like::DeskLike;

/// If no operation is answered `BothLost`, the answers are those of one plain disk with bad blocks, and the sides show
/// that disk at the end. This holds if, after each operation, the trace of each present side is a run of the class's
/// never-failing disk.
pub fn the_answers_are_those_of_one_disk<D: DeskLike>()
    ensures { (old new : MirrorView D) (served : List (Op × MirrorAnswer)) (disk : List (List ℕ))
        → (old.present.left || old.present.right) ≡ true → IsDisk old disk
        → AreServed D.spec old served new
        → (after : List (List ℕ)) × IsDisk new after × ServesAll old.blocks disk served after }
{}
