// Laws for proofs. These functions do nothing when they run.
ghost use Rattle.device_bay.specs.Returns.{ZeroHasNoRefusal, UntoldReturnsUnfailed, ReturnsTellByLog, UnturnedReturnsTell};

/// What the count of a device that came back, its trust and its log say of each other.
pub fn returns_tell()
    ensures zero { ZeroHasNoRefusal }
    ensures untold { UntoldReturnsUnfailed }
    ensures seen { ReturnsTellByLog }
    ensures unturned { UnturnedReturnsTell }
{}
