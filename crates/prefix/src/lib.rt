// A prefix: a 32-bit key and a length. Only the first `length` bits count.
// Masking, covering and order are said once in specs/Prefix.antt.
#![tactic(auto)]

ghost use Rattle.std.specs.Prelude.{◌≡◌, ◌≤◌};
ghost use Rattle.prefix.specs.Prefix.{width, masked};

#[derive(Clone, Copy)]
pub struct Prefix {
    pub key: u32,
    pub len: u32,
}

// The key with the bits behind the length zero. A shift by 32 is none of the machine's: length 0 keeps no bit.
pub fn mask_key(key: u32, len: u32) -> u32
    requires { len ≤ width }
    ensures { result ≡ masked key len }
{
    if len == 0 {
        0
    } else {
        key & (0xffff_ffffu32 << (32 - len))
    }
}
