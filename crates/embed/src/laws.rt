//! Laws about the replay of a log, and about images.

ghost use Rattle.embed.specs.Images.{IsRestored};
ghost use Rattle.embed.specs.Replaying.{AreReplayedAlike, IsRunReplayed};

use crate::register::Register;

/// Law: the lines of a log, replayed by two registers that no event tells apart and in which the same frames wait, lead to two such
/// registers again: the same frames wait, frame for frame and local id for local id.
pub fn replays_agree()
    ensures { AreReplayedAlike }
{}

/// Law: the replay of a log leads to the register of the run that wrote it: no event tells the two apart. All frames that the run sent, in
/// order, wait after those that waited before, whenever the run took them.
pub fn logs_are_replayed()
    ensures { IsRunReplayed }
{}

/// Law: a register goes on as it was from its images and its saved file (`Register::write_image`, `Register::save`): each shard has the same
/// state, and no event tells the two registers apart.
pub fn images_are_restored(register: &Register)
    ensures { IsRestored register.now }
{
    register.law_shards_are_read();
}
