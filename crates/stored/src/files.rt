// Operations 18 and 19: the reader and the writer of a file of lists.
ghost use Rattle.std.specs.Prelude.{◌≡◌, ◌≤◌, length, IfSome};

use crate::Lent;
use crate::keys::put_lent;
use lists_file::Version;
use lists_in::{Held, ReadRefusal};

// A run of the most numbers that are lent, which fall one by one from the largest of 32 bits.
fn falling() -> [u32; 20000]
    ensures { 20000 ≡ length result }
{
    let mut run: [u32; 20000] = input::filled(0);
    for (place, n) in run.iter_mut().zip((0..=u32::MAX).rev()) {
        *place = n;
    }
    run
}

// Puts the numbers of a run.
fn put_run(out: &mut [u8], at: usize, run: &[u32]) -> Option<usize>
    requires { at ≤ length out.old }
    ensures { IfSome result (λ next. next ≤ length out.new) }
{
    let mut next = at;
    for n in run {
        next = vectors::put(out, next, &[*n as usize])?;
    }
    Some(next)
}

// What is held where nothing was loaded: zeros, as they are stored then. No `Default`: it would stand in the crates of `Version` and `Held`,
// which have no use for one.
fn nothing_held() -> Held {
    Held {
        version: Version {
            major: 0,
            minor: 0,
            update: 0,
        },
        starts: 0,
        continues: 0,
        emoji: 0,
    }
}

// Puts the three numbers of an answer, the version, and how many numbers each run holds.
fn put_read(out: &mut [u8], answer: Result<Held, ReadRefusal>) -> Option<usize>
    ensures { IfSome result (λ n. n ≤ length out.new) }
{
    let n = lists_in::read_numbers(answer);
    let held = answer.unwrap_or(nothing_held());
    let version = held.version;
    let ns = [
        n.number as usize,
        n.beside,
        n.second,
        usize::from(version.major),
        usize::from(version.minor),
        usize::from(version.update),
        held.starts,
        held.continues,
        held.emoji,
    ];
    vectors::put(out, 0, &ns)
}

// The call over three runs, and then what it answers and what the runs hold.
fn read_over(
    file: &[u8],
    starts: &mut [u32],
    continues: &mut [u32],
    emoji: &mut [u32],
    out: &mut [u8],
) -> Option<usize>
    ensures { IfSome result (λ n. n ≤ length out.new) }
{
    let answer = lists_in::read_lists(file, starts, continues, emoji);
    let n = put_read(out, answer)?;
    let past_starts = put_run(out, n, starts)?;
    let past_continues = put_run(out, past_starts, continues)?;
    put_run(out, past_continues, emoji)
}

// Operation 18: the reader over three runs of so many numbers, each the beginning of a room of a fixed size: there is no heap.
pub fn read(input: &[u8], out: &mut [u8]) -> Option<usize>
    ensures { IfSome result (λ n. n ≤ length out.new) }
{
    let (a, rest) = vectors::split_number(input)?;
    let (b, rest) = vectors::split_number(rest)?;
    let (c, file) = vectors::split_number(rest)?;
    let mut starts = falling();
    let mut continues = falling();
    let mut emoji = falling();
    read_over(
        file,
        starts.get_mut(..a as usize)?,
        continues.get_mut(..b as usize)?,
        emoji.get_mut(..c as usize)?,
        out,
    )
}

// The call over a buffer, and then what it answers and what the buffer holds. With `keys::key_over` it shares `put_lent`: the call and its numbers are their own.
fn write_over(version: Version, lists: Lent, buffer: &mut [u8], out: &mut [u8]) -> Option<usize>
    ensures { IfSome result (λ n. n ≤ length out.new) }
{
    let answer = lists_out::write_lists(
        version,
        lists.starts,
        lists.continues,
        lists.emoji,
        buffer,
    );
    put_lent(out, lists_out::write_numbers(answer), buffer)
}

// The low 16 bits of the number at a place.
fn sixteen(input: &[u8], at: usize) -> u16 {
    (vectors::number(input, at) % 0x10000) as u16
}

// Operation 19: the writer over n bytes, each of which held the same one before: the beginning of a room of a fixed size, as there is no heap.
// A number that is not handed in is 0.
pub fn write(input: &[u8], lists: Lent, out: &mut [u8]) -> Option<usize>
    ensures { IfSome result (λ n. n ≤ length out.new) }
{
    let version = Version {
        major: sixteen(input, 0),
        minor: sixteen(input, 4),
        update: sixteen(input, 8),
    };
    let room = vectors::number(input, 12);
    let byte = u8::try_from(vectors::number(input, 16)).ok()?;
    let mut buffer: [u8; 262000] = input::filled(byte);
    write_over(version, lists, buffer.get_mut(..room as usize)?, out)
}
