// What the files of the program are taken to hold.
use logged_disk::FileStart;

/// Zeros, as long as nothing else is read.
#[derive(Drop)]
pub struct Blank;

impl FileStart for Blank {
    ghost use Rattle.device_log.specs.Image.{blank};
    ghost use Rattle.device_log.proofs.Puts.{blank_is_image};

    ghost first = { λ number. blank };

    ghost is_image = { λ number. blank_is_image };
}
