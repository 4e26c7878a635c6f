// Bytes of which more are to come (document 02, W13): how many of them can be read now, and whether they are ill-formed whatever comes.
#![tactic(auto)]

ghost use Rattle.std.specs.Prelude.{◌≡◌, length};
ghost use Rattle.waits.specs.Waits.{last_returns, free_up_to, stopped_at, up_to, ready_of};

use refusal::{Bad, Cause};

// How many bytes can be read now, and the ill-formed sequence that stands there, if one does that no more bytes can mend: its start and its cause.
#[derive(Clone, Copy)]
pub struct Ready {
    pub bytes: usize,
    pub ill: Option<(usize, Cause)>,
}

// How many CRs end some bytes, two at most: what they are depends on the next byte.
#[tactic(auto, using(crate::proofs::Returns::no_bytes, crate::proofs::Returns::last_other, crate::proofs::Returns::only_one, crate::proofs::Returns::last_one, crate::proofs::Returns::last_both))]
fn last_returns(text: &[u8]) -> usize
    ensures { result ≡ length (last_returns text.now) }
{
    match text {
        [.., 0x0D, 0x0D] => 2,
        [.., 0x0D] => 1,
        _ => 0,
    }
}

// So many bytes, and nothing that stops.
fn free(bytes: usize) -> Ready
    ensures { result ≡ free_up_to bytes }
{
    Ready { bytes, ill: None }
}

// Up to an ill-formed sequence. One that is cut off by the end waits for its rest.
// Named as its rule: a `From` of a pair would not say what the two are.
fn stopped(at: usize, cause: Cause) -> Ready
    ensures { result ≡ stopped_at at cause }
{
    match cause {
        Cause::Cut => free(at),
        lasting => Ready {
            bytes: at,
            ill: Some((at, lasting)),
        },
    }
}

// Up to what refuses some bytes; that is an ill-formed sequence and nothing else. No `From`: what the other refusals leave is the rule of this call.
fn up_to(bad: Bad) -> Ready
    ensures { result ≡ up_to bad }
{
    match bad {
        Bad::NotUtf8(at, cause) => stopped(at, cause),
        Bad::TooLong | Bad::List(_, _) => free(0),
    }
}

// How many of some bytes can be read now.
#[tactic(auto, using(crate::proofs::Calls::returns_within, crate::proofs::Calls::ready_fine))]
pub fn readable(text: &[u8]) -> Ready
    ensures { result ≡ ready_of text.now }
{
    match text::check_utf8(text) {
        Ok(()) => Ready {
            bytes: text.len() - last_returns(text),
            ill: None,
        },
        Err(bad) => up_to(bad),
    }
}
