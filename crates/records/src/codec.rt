// A record's twelve bytes read, and an answer's twelve bytes written.
ghost use Rattle.std.specs.Prelude.{◌≡◌, ◌+◌, ◌≤◌, ◌<◌, false, length, MatchOption};
ghost use Rattle.octets.specs.Octets.{written};
ghost use Rattle.records.specs.Records.{op_in, len_in, key_in, value_in, good_in, reply_of};
ghost use Rattle.records.specs.Operations.{Named, IsRecordIn};

use map::Values;
use octets::{put_word, word_at};

// What a record asks.
#[derive(Clone, Copy, Debug, PartialEq, Eq)]
pub enum Operation {
    Insert,
    Remove,
    Exact,
    Longest,
    Shortest,
}

// A number that names no operation.
#[derive(Clone, Copy, Debug, PartialEq, Eq)]
pub struct UnknownOperation(pub u8);

impl TryFrom<u8> for Operation {
    type Error = UnknownOperation;

    ghost try_from_gives = { Named };

    fn try_from(number: u8) -> Result<Operation, UnknownOperation> {
        match number {
            1 => Ok(Operation::Insert),
            2 => Ok(Operation::Remove),
            3 => Ok(Operation::Exact),
            4 => Ok(Operation::Longest),
            5 => Ok(Operation::Shortest),
            _ => Err(UnknownOperation(number)),
        }
    }
}

// A good record: the operation, the prefix, and the value of an insert.
#[derive(Clone, Copy, Debug, PartialEq, Eq)]
pub struct Record {
    pub op: Operation,
    pub len: u32,
    pub key: u32,
    pub value: u32,
}

// The record at `at`, where it is a good one. (The definitions index the input, so that the bytes are there stays a premise.)
#[tactic(auto, unfolding(crate::specs::Records::good_in))]
pub fn record_at(s: &[u8], at: usize) -> Option<Record>
    requires { at + 12 ≤ length s.now }
    ensures { MatchOption result (good_in s.now at ≡ false) (λ r. IsRecordIn s.now at r) }
{
    let op = Operation::try_from(s[at]).ok()?;
    let value = word_at(s, at + 8);
    if s[at + 2] != 0 || s[at + 3] != 0 {
        return None;
    }
    if op != Operation::Insert && value != 0 {
        return None;
    }
    Some(Record {
        op,
        len: u32::from(s[at + 1]),
        key: word_at(s, at + 4),
        value,
    })
}

// Number, length, node count, zero, key and value, written from `at` on.
#[tactic(auto, using(crate::proofs::Replies::reply_written))]
pub fn put_reply(out: &mut [u8], at: usize, values: Values)
    requires { at + 12 ≤ length out.old }
    ensures { out.new ≡ written out.old at (reply_of values) }
{
    out[at] = (values.number % 256) as u8;
    out[at + 1] = (values.len % 256) as u8;
    out[at + 2] = (values.nodes % 256) as u8;
    out[at + 3] = 0;
    put_word(out, at + 4, values.key);
    put_word(out, at + 8, values.value);
}
