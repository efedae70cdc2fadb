// Numbers of 32 bits in lent bytes, big-endian.
#![tactic(auto)]

ghost use Rattle.std.specs.Prelude.{◌≡◌, ◌+◌, ◌≤◌, length};
ghost use Rattle.octets.specs.Octets.{word_in, bytes_of, written};

// The number in the four bytes from `at` on. (std turns an array of four; here a place in a slice is told.)
#[tactic(auto, unfolding(crate::specs::Octets::word_in))]
pub fn word_at(s: &[u8], at: usize) -> u32
    requires { at + 4 ≤ length s.now }
    ensures { result ≡ word_in s.now at }
{
    u32::from_be_bytes([s[at], s[at + 1], s[at + 2], s[at + 3]])
}

// A number is written into the four bytes from `at` on.
pub fn put_word(s: &mut [u8], at: usize, x: u32)
    requires { at + 4 ≤ length s.old }
    ensures { s.new ≡ written s.old at (bytes_of x) }
{
    s[at..at + 4].copy_from_slice(&x.to_be_bytes());
}
