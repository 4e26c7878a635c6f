// The lists of the file that a program's first argument names, in three lent runs; or why there are none, as a line (`reports::say_lists`): the numbers of
// refusal 9 or 3; 1 where the file has more than 524,288 bytes, which no file has whose lists keep the rules; 0 where it cannot be read whole. No contract can
// say what a file holds: what is promised is that what was loaded lies within the runs.
#![tactic(auto)]

ghost use Rattle.std.specs.Prelude.{◌≡◌, length, is_some, is_ok, IsSome, IsNone, IfOk, OnOk};
ghost use Rattle.std.specs.Io.KnownBytes.{Appends, Keeps};
ghost use Rattle.lists_in.specs.Answers.{counts, read_answer};
ghost use Rattle.reports.specs.Lines.{lists_line};
ghost use Rattle.loading.specs.Inside.{Inside, Loaded, loading_said, Told};

use lists_in::Held;
use ranges::MAX_PAIRS;
use refusal::{Bad, Numbers};
use std::env::Env;
use std::io::Write;
use std::rt::Files;
use std::{fs, io};

// Zeros for a list: more than a list has that keeps the rules.
pub fn list_room() -> [u32; 65536]
    ensures { 65536 ≡ length result }
{
    input::filled(0)
}

// No lists, and the line that says why.
fn refused<W: Write>(to: &mut W, why: Numbers) -> io::Result<Option<Held>>
    ensures none { IfOk result (λ r. IsNone r) }
    ensures said { OnOk result (Appends (W.contents to.old) (W.contents to.new) (lists_line why)) }
    ensures told { OnOk result (Told (W.contents to.old) (W.contents to.new)) }
{
    reports::say_lists(to, why)?;
    Ok(None)
}

// The lists in the bytes of a file.
fn load_bytes<W: Write>(
    to: &mut W,
    file: &[u8],
    starts: &mut [u32],
    continues: &mut [u32],
    emoji: &mut [u32],
) -> io::Result<Option<Held>>
    ensures loaded { IfOk result (λ r. Loaded file.now starts.new continues.new emoji.new r) }
    ensures done { IfOk result (λ r. is_some r ≡ is_ok (read_answer MAX_PAIRS file.now (counts (length starts.old) (length continues.old) (length emoji.old)))) }
    ensures said { OnOk result (Appends (W.contents to.old) (W.contents to.new) (loading_said (read_answer MAX_PAIRS file.now (counts (length starts.old) (length continues.old) (length emoji.old))))) }
    ensures silent { IfOk result (λ r. IsSome r → Keeps (W.contents to.old) (W.contents to.new)) }
    ensures told { IfOk result (λ r. IsNone r → Told (W.contents to.old) (W.contents to.new)) }
    ensures kept { (length starts.new ≡ length starts.old) × ((length continues.new ≡ length continues.old) × (length emoji.new ≡ length emoji.old)) }
{
    match lists_in::read_lists(file, starts, continues, emoji) {
        Ok(held) => Ok(Some(held)),
        why => refused(to, lists_in::read_numbers(why)),
    }
}

// The file that the first argument names; its path fills a part of a room, as there is no heap.
// There is none where no argument is, or one that is no path of a file that can be opened.
fn named<R: Env + Files>(rt: &R) -> Option<R::File> {
    let mut path: [u8; 4096] = input::filled(0);
    let n = rt.arg(1, &mut path).ok()?;
    let name = str::from_utf8(&path[..n]).ok()?;
    fs::open(rt, name).ok()
}

// The lists of the file that the first argument names: the version, and how many numbers each run then holds; None where there are no lists. A file that cannot
// be opened or read is told as one that is refused, and is no error: an error is that the line could not be written. The runs keep their lengths then too.
pub fn load<R: Env + Files, W: Write>(
    rt: &R,
    to: &mut W,
    starts: &mut [u32],
    continues: &mut [u32],
    emoji: &mut [u32],
) -> io::Result<Option<Held>>
    ensures inside { IfOk result (λ r. Inside starts.new continues.new emoji.new r) }
    ensures silent { IfOk result (λ r. IsSome r → Keeps (W.contents to.old) (W.contents to.new)) }
    ensures told { IfOk result (λ r. IsNone r → Told (W.contents to.old) (W.contents to.new)) }
    ensures kept { (length starts.new ≡ length starts.old) × ((length continues.new ≡ length continues.old) × (length emoji.new ≡ length emoji.old)) }
{
    // `done(0, 0)` here and below, three zeros: the line is of numbers, and 0, which no refusal has, stands for a file that cannot be read
    let Some(mut opened) = named(rt) else {
        return refused(to, refusal::done(0, 0));
    };
    // a room of a fixed size, and how much of it the file fills: there is no heap
    let mut file: [u8; 524289] = input::filled(0);
    let Ok(bytes) = input::read_full(&mut opened, &mut file) else {
        return refused(to, refusal::done(0, 0));
    };
    if 524288 < bytes {
        return refused(to, refusal::bad_numbers(Bad::TooLong));
    }
    load_bytes(to, &file[..bytes], starts, continues, emoji)
}
