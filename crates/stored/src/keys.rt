// Operation 17: the key call.
ghost use Rattle.std.specs.Prelude.{◌≡◌, ◌≤◌, length, IfSome};

use crate::Lent;
use refusal::Numbers;

// Puts the three numbers of an answer, and after them the bytes that were lent.
pub fn put_lent(out: &mut [u8], numbers: Numbers, held: &[u8]) -> Option<usize>
    ensures { IfSome result (λ n. n ≤ length out.new) }
{
    let n = vectors::put_numbers(out, numbers)?;
    if out.len() - n < held.len() {
        return None;
    }
    Some(puts::put_bytes(out, n, held))
}

// The call over a buffer, and then what it answers and what the buffer holds. With `files::write_over` it shares `put_lent`: the call and its numbers are their own.
fn key_over(text: &[u8], lists: Lent, buffer: &mut [u8], out: &mut [u8]) -> Option<usize>
    ensures { IfSome result (λ n. n ≤ length out.new) }
{
    let answer = key::key(text, lists.starts, lists.continues, lists.emoji, buffer);
    put_lent(out, key::key_numbers(answer), buffer)
}

// Operation 17: the key call over n bytes, each of which held the same one before: the beginning of a room of a fixed size, as there is no heap.
pub fn key_of(input: &[u8], lists: Lent, out: &mut [u8]) -> Option<usize>
    ensures { IfSome result (λ n. n ≤ length out.new) }
{
    let (room, rest) = vectors::split_number(input)?;
    let (byte, text) = vectors::split_number(rest)?;
    let byte = u8::try_from(byte).ok()?;
    let mut buffer: [u8; 4096] = input::filled(byte);
    key_over(text, lists, buffer.get_mut(..room as usize)?, out)
}
