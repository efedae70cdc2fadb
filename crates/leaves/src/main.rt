// Answers requests on the leaves, so that each can be held beside the crate's own function.
// A request is five big-endian numbers of 32 bits: which function, and its four inputs.
// An answer is three: 0 one number, 1 two numbers, 2 nothing, 3 outside the function's inputs; then the numbers.
#![tactic(auto)]

mod answers;
mod node_answers;
mod order_answers;

ghost use Rattle.std.specs.Prelude.{◌≤◌, length};

use answers::Answer;
use std::io;
use std::io::Write;

// Requests that are read at a time, and the bytes of one and of its answer.
const BATCH: usize = 512;

const REQUEST: usize = 20;

const ANSWER: usize = 12;

// Which function answers which number is told in one table, in oracle/README.md, for this program and the judge: so a request stays a number,
// and each file answers its own by one match.
fn answer(op: u32, a: u32, b: u32, c: u32, d: u32) -> Answer {
    match op {
        0..=5 => answers::of_slots_and_tiers(op, a, b),
        6..=11 => node_answers::of_masks(op, a, b, c),
        12..=15 => node_answers::of_matches(op, a, b, c, d),
        16..=22 => order_answers::of_order(op, a, b, c),
        _ => node_answers::of_bits(op, a, b),
    }
}

// The answer to a request.
fn answer_one(request: &[u8], reply: &mut [u8])
    requires { (20 ≤ length request.now) × (12 ≤ length reply.old) }
{
    let (kind, x, y) = answer(
        octets::word_at(request, 0),
        octets::word_at(request, 4),
        octets::word_at(request, 8),
        octets::word_at(request, 12),
        octets::word_at(request, 16),
    )
    .numbers();
    octets::put_word(reply, 0, kind);
    octets::put_word(reply, 4, x);
    octets::put_word(reply, 8, y);
}

// The whole requests of the input, answered from the output's start on: how many.
fn answer_batch(input: &[u8], out: &mut [u8]) -> usize
    requires { (length input.now ≤ 10240) × (6144 ≤ length out.old) }
    ensures { result ≤ 512 }
{
    let requests = input.chunks_exact(REQUEST);
    for (request, reply) in requests.zip(out.chunks_exact_mut(ANSWER)) {
        answer_one(request, reply);
    }
    input.len() / REQUEST
}

// Reads once, answers, writes: is there more to come? Where a read fails, what came before it is answered first.
fn one_batch(rt: &HostRuntime) -> io::Result<bool> {
    let mut input = [0u8; 10240];
    let (n, ended) = intake::read_full(&mut rt.stdin(), &mut input);
    let mut out = [0u8; 6144];
    let count = answer_batch(&input[..n], &mut out);
    rt.stdout().write_all(&out[..count * ANSWER])?;
    ended?;
    Ok(n == BATCH * REQUEST)
}

// A proved loop ends: no run has so many turns.
fn main(rt: HostRuntime) -> io::Result<()> {
    for _ in 0..u64::MAX {
        if !one_batch(&rt)? {
            break;
        }
    }
    Ok(())
}
