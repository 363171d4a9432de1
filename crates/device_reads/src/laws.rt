// Laws for proofs. This function does nothing when it runs.
ghost use Rattle.device_reads.specs.Reads.{SomeImageAgrees};

/// Reads of each block once contradict no image.
pub fn some_image_agrees()
    ensures { SomeImageAgrees }
{}
