// The state of a key in pieces as code: before the first byte, the bytes that wait, and which states are taken.
#![tactic(auto)]

ghost use Rattle.std.specs.Prelude.{◌≡◌, ◌≤◌, length, drop};
ghost use Rattle.machine.specs.Pieces as machine;
ghost use Rattle.key_state.specs.Kept.{kept_bytes, to_kept};
ghost use Rattle.key_state.specs.Reads as reads;
ghost use Rattle.key_state.specs.Reads.{kept_after};
ghost use Rattle.key_state.specs.Sound as sound;
ghost use Rattle.kept.specs.Puts.{PutKept};

use key_state::{Kept, KeyState};
use machine::{Mode, State};
use refusal::Cause;

// Before the first byte.
pub fn begin() -> KeyState
    ensures { result ≡ reads.begin }
{
    let machine = State {
        mode: Mode::Start { gap: false },
        from: 0,
        at: 0,
    };
    KeyState {
        machine,
        kept: Kept::Nothing,
        count: 0,
        ill: None,
        double: None,
        mark: None,
    }
}

// How many bytes wait.
// By a `match`, here and below: each number of bytes is a case of `Kept` (crate `key_state`).
pub fn kept_len(kept: Kept) -> usize
    ensures { result ≡ length (kept_bytes kept) }
{
    match kept {
        Kept::Nothing => 0,
        Kept::One(_) => 1,
        Kept::Two(_, _) => 2,
        Kept::Three(_, _, _) => 3,
    }
}

// The bytes that wait, put at the beginning of a run: how many they are. Byte by byte: `copy_from_slice` would want an array of each case first.
#[tactic(auto, using(crate::proofs::Bytes::still_room, crate::proofs::Bytes::put_none, crate::proofs::Bytes::put_one, crate::proofs::Bytes::put_two, crate::proofs::Bytes::put_three))]
pub fn put_kept(kept: Kept, out: &mut [u8]) -> usize
    requires { 3 ≤ length out.old }
    ensures { PutKept kept out.old out.new result }
{
    match kept {
        Kept::Nothing => 0,
        Kept::One(a) => {
            out[0] = a;
            1
        }
        Kept::Two(a, b) => {
            out[0] = a;
            out[1] = b;
            2
        }
        Kept::Three(a, b, c) => {
            out[0] = a;
            out[1] = b;
            out[2] = c;
            3
        }
    }
}

// The bytes from a place on as those that wait: they are at most three.
fn kept_from(text: &[u8], at: usize) -> Kept
    requires { at ≤ length text.now }
    ensures { result ≡ to_kept (drop at text.now) }
{
    match &text[at..] {
        [] => Kept::Nothing,
        [a] => Kept::One(*a),
        [a, b] => Kept::Two(*a, *b),
        [a, b, c, ..] => Kept::Three(*a, *b, *c),
    }
}

// What waits behind what was read: nothing, where an ill-formed sequence stands there.
pub fn kept_after(ill: Option<(usize, Cause)>, text: &[u8], at: usize) -> Kept
    requires { at ≤ length text.now }
    ensures { result ≡ kept_after ill (drop at text.now) }
{
    match ill {
        None => kept_from(text, at),
        Some(_) => Kept::Nothing,
    }
}

// The largest number of a mode.
#[tactic(auto, using(crate::proofs::Depths::depth_of, crate::proofs::Depths::larger, crate::proofs::Depths::not_larger))]
pub fn deepest(mode: Mode) -> u32
    ensures { result ≡ machine.deepest mode }
{
    match mode {
        Mode::Block { depth, .. } => depth,
        Mode::GotRHash => 1,
        Mode::RawHashes { hashes } | Mode::RawBody { hashes } => hashes,
        Mode::RawEnd { hashes, more } => hashes.max(more),
        _ => 0,
    }
}

// Whether a state is such as the calls give: the machine has not read more than was handed in and does not wait, and is in no depth that it could not have reached.
// `as`, since a usize has no `From` of a u32.
#[tactic(auto, using(crate::proofs::Sounds::over_count, crate::proofs::Sounds::over_kept, crate::proofs::Sounds::over_read, crate::proofs::Sounds::by_depth))]
pub fn sound(state: KeyState) -> bool
    ensures { result ≡ sound.sound state }
{
    let machine = state.machine;
    let waiting = kept_len(state.kept);
    state.count <= 4294967296
        && waiting <= state.count
        && machine.at <= state.count - waiting
        && deepest(machine.mode) as usize <= machine.at
}
