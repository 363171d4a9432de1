// Laws of a buffer on its device. This function does nothing when it runs.
ghost use Rattle.buffer_sync.specs.Covering.{CoveredStands};

/// In a step of a stripe that syncs the pieces of a buffer stand, where its device wrote it last.
pub fn covered_stands()
    ensures { CoveredStands }
{}
