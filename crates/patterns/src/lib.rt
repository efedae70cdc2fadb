// The three patterns of a node as one table: ancestors (longest match), descendants (cover), children below.
// Entry 16 * level + place of each: the rule, by covering, is in specs/Patterns.antt and is proved once for the whole table.
#![tactic(auto)]

ghost use Rattle.std.specs.Prelude.{◌≡◌, ◌<◌};
ghost use Rattle.bits.specs.Bits.{word};
ghost use Rattle.patterns.specs.Patterns.{is_ancestor, is_descendant, is_child_below, pattern_at};

// A row has the sixteen places of a level, a pattern the rows of five levels.
const ROW: usize = 16;

const PATTERN: usize = 80;

// DATA_LPM_PATTERN, DATA_COVER_PATTERN, CHILD_COVER_PATTERN, one after the other.
const PATTERNS: [u32; 240] = [
    1, 1, 1, 1, 1, 1, 1, 1, 1, 1, 1, 1, 1, 1, 1, 1, 3, 3, 3, 3, 3, 3, 3, 3, 5, 5, 5, 5, 5, 5, 5, 5,
    11, 11, 11, 11, 19, 19, 19, 19, 37, 37, 37, 37, 69, 69, 69, 69, 139, 139, 267, 267, 531, 531,
    1043, 1043, 2085, 2085, 4133, 4133, 8261, 8261, 16453, 16453, 32907, 65675, 131339, 262411,
    524819, 1049107, 2098195, 4195347, 8390693, 16779301, 33558565, 67112997, 134225989, 268443717,
    536887365, 1073758277, 2147483647, 2147483647, 2147483647, 2147483647, 2147483647, 2147483647,
    2147483647, 2147483647, 2147483647, 2147483647, 2147483647, 2147483647, 2147483647, 2147483647,
    2147483647, 2147483647, 8357786, 8357786, 8357786, 8357786, 8357786, 8357786, 8357786, 8357786,
    2139125860, 2139125860, 2139125860, 2139125860, 2139125860, 2139125860, 2139125860, 2139125860,
    491912, 491912, 491912, 491912, 7865872, 7865872, 7865872, 7865872, 125835296, 125835296,
    125835296, 125835296, 2013290560, 2013290560, 2013290560, 2013290560, 98432, 98432, 393472,
    393472, 1573376, 1573376, 6292480, 6292480, 25167872, 25167872, 100667392, 100667392,
    402661376, 402661376, 1610629120, 1610629120, 32768, 65536, 131072, 262144, 524288, 1048576,
    2097152, 4194304, 8388608, 16777216, 33554432, 67108864, 134217728, 268435456, 536870912,
    1073741824, 4294967295, 4294967295, 4294967295, 4294967295, 4294967295, 4294967295, 4294967295,
    4294967295, 4294967295, 4294967295, 4294967295, 4294967295, 4294967295, 4294967295, 4294967295,
    4294967295, 65535, 65535, 65535, 65535, 65535, 65535, 65535, 65535, 4294901760, 4294901760,
    4294901760, 4294901760, 4294901760, 4294901760, 4294901760, 4294901760, 255, 255, 255, 255,
    65280, 65280, 65280, 65280, 16711680, 16711680, 16711680, 16711680, 4278190080, 4278190080,
    4278190080, 4278190080, 15, 15, 240, 240, 3840, 3840, 61440, 61440, 983040, 983040, 15728640,
    15728640, 251658240, 251658240, 4026531840, 4026531840, 3, 12, 48, 192, 768, 3072, 12288,
    49152, 196608, 786432, 3145728, 12582912, 50331648, 201326592, 805306368, 3221225472,
];

// One entry of the table.
fn entry(k: usize) -> u32
    requires { k < 240 }
    ensures { result ≡ pattern_at k }
{
    PATTERNS[k]
}

// The three parts of the one table keep the names that the ported crate gives them, each one line over `entry`. Level and place are the two
// indices of a row, below 5 and 16: asked here and by one function of `leaves`, so no type says it.

// The bit of a level and place, and of all its ancestors.
pub fn data_lpm_pattern(level: usize, place: usize) -> u32
    requires { (level < 5) × (place < 16) }
    ensures { result ≡ word 32 (is_ancestor level place) }
{
    entry(level * ROW + place)
}

// The bit of a level and place, and of all its descendants.
pub fn data_cover_pattern(level: usize, place: usize) -> u32
    requires { (level < 5) × (place < 16) }
    ensures { result ≡ word 32 (is_descendant level place) }
{
    entry(PATTERN + level * ROW + place)
}

// All children below the bit of a level and place.
pub fn child_cover_pattern(level: usize, place: usize) -> u32
    requires { (level < 5) × (place < 16) }
    ensures { result ≡ word 32 (is_child_below level place) }
{
    entry(2 * PATTERN + level * ROW + place)
}

// The same as data_lpm_pattern, worked out. The places of a node's heap, counted from 1, halve on the way up, and what falls to 0 is shifted out.
// A lookup asks this at each node: reading a constant table costs more there (docs/DECISIONS.md).
pub fn path_bits(level: u32, place: u32) -> u32
    requires { (level < 5) × (place < 16) }
    ensures { result ≡ word 32 (is_ancestor level place) }
{
    let t = (16 + place) >> (4 - level);
    ((1u32 << t)
        | (1u32 << (t >> 1))
        | (1u32 << (t >> 2))
        | (1u32 << (t >> 3))
        | (1u32 << (t >> 4)))
        >> 1
}
