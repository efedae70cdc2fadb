// Words of lent slices, with no premise: past the end a read gives 0 and a write does nothing.
#![tactic(auto)]

ghost use Rattle.std.specs.Prelude.{◌≡◌, get_or, set};

// The word at an index, 0 past the end.
pub fn read(s: &[u32], i: usize) -> u32
    ensures { result ≡ get_or s.now i 0 }
{
    s.get(i).copied().unwrap_or(0)
}

// A word is written, past the end nothing. (`get_mut` of a slice promises its length and no word, so the index is tested here.)
pub fn put(s: &mut [u32], i: usize, v: u32)
    ensures { s.new ≡ set s.old i v }
{
    if i < s.len() {
        s[i] = v;
    }
}
