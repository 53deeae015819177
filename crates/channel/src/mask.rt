// The mask: one bit a channel and none above. Only our own crates call these functions, and both have a `requires`.
ghost use Rattle.std.specs.Prelude.{◌≡◌, ◌<◌};
ghost use Rattle.channel.specs.Mask.{is_on, mask_fits};

// The channel c is switched on.
pub fn is_on(mask: u64, c: usize) -> bool
    requires { c < 64 }
    ensures { result ≡ is_on mask c }
{
    (mask >> c) % 2 == 1
}

// The mask has no bit at or above the channels.
pub fn mask_fits(mask: u64, channels: usize) -> bool
    requires { channels < 64 }
    ensures { result ≡ mask_fits mask channels }
{
    mask >> channels == 0
}
