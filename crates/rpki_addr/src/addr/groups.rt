//! The bits of an IPv6 address as groups.
ghost use Rattle.std.specs.Prelude.{◌≡◌, ◌/◌, ◌%◌};
ghost use Rattle.rpki_text.specs.Digits.{groups_of};

/// Returns the bits before the last group, and the last group.
fn split_group(bits: u128) -> (u128, u16)
    ensures before { result.0 ≡ bits / 0x10000 }
    ensures last { result.1 ≡ bits % 0x10000 }
{
    (bits / 0x10000, (bits % 0x10000) as u16)
}

/// Returns the eight groups of the IPv6 address with these bits, the highest first.
pub(crate) fn split_groups(bits: u128) -> [u16; 8]
    ensures { result ≡ groups_of bits }
{
    let (bits, h) = split_group(bits);
    let (bits, g) = split_group(bits);
    let (bits, f) = split_group(bits);
    let (bits, e) = split_group(bits);
    let (bits, d) = split_group(bits);
    let (bits, c) = split_group(bits);
    let (bits, b) = split_group(bits);
    let (_, a) = split_group(bits);
    [a, b, c, d, e, f, g, h]
}
