// The writer of a file of lists (document 02, W1), in a lent buffer. Every refusal is found, and the file is measured, before the first byte is written;
// both passes go over each list once.
#![tactic(auto)]

ghost use Rattle.std.specs.Prelude.{◌+◌, ◌≤◌, ◌≡◌, ◌∷◌, length};
ghost use Rattle.token.specs.Lists.{lent};
ghost use Rattle.puts.specs.Put.{Put};
ghost use Rattle.fields.specs.Numerals.{numeral};
ghost use Rattle.lists_file.specs.Names.{tab, name_of};
ghost use Rattle.lists_file.specs.File.{line, first_text, record_text, group_lines, file_of};
ghost use Rattle.lists_out.specs.Parts.{record_bytes, first_bytes, file_bytes, Short, AllShort, Counted};
ghost use Rattle.lists_out.specs.declared.WriteRefusal.TheVariants.{Shared};
ghost use Rattle.lists_out.specs.Answers.{write_numbers, Writing};

use lists_file::Version;
use ranges::MAX_PAIRS;
use refusal::{Bad, Numbers};

// Why nothing is written: fewer bytes than the file has (7), with the bytes that it has; or a refusal that calls share: a list that breaks a rule (3).
#[derive(Clone, Copy)]
pub enum WriteRefusal {
    Room(usize),
    Shared(Bad),
}

impl From<Bad> for WriteRefusal {
    ghost from_gives = { λ bad refusal. refusal ≡ Shared bad };

    fn from(bad: Bad) -> WriteRefusal {
        WriteRefusal::Shared(bad)
    }
}

// The answer by number. Named as its rule, as the guide has it, and no `From`: neither type is this crate's.
pub fn write_numbers(answer: Result<usize, WriteRefusal>) -> Numbers
    ensures { result ≡ write_numbers answer }
{
    match answer {
        Ok(bytes) => refusal::done(bytes, 0),
        Err(WriteRefusal::Room(bytes)) => refusal::refused(7, bytes),
        Err(WriteRefusal::Shared(bad)) => refusal::bad_numbers(bad),
    }
}

// The name of a list, by its number, here and below: no enum, since `ranges::check_list` takes that number, and refusal 3 hands it to the C interface.
fn name_of(which: usize) -> &'static [u8]
    ensures { result.now ≡ name_of which }
{
    match which {
        0 => b"start",
        1 => b"continue",
        _ => b"emoji",
    }
}

// Puts the line of a record. Each local is the place of what is put next.
// By `puts` and `fields`, here and below: of a `fmt::Write` nothing is promised of the place in a lent buffer.
fn put_record(out: &mut [u8], at: usize, which: usize, low: u32, high: u32) -> usize
    requires { at + record_bytes which low high ≤ length out.old }
    ensures { Put (line (record_text which low high)) out.old at out.new result }
{
    let gap = puts::put_bytes(out, at, name_of(which));
    let first = puts::put_byte(out, gap, b'\t');
    let between = fields::put_hex(out, first, low);
    let second = puts::put_byte(out, between, b'\t');
    let end = fields::put_hex(out, second, high);
    puts::put_byte(out, end, b'\n')
}

// Puts a tab and a number in decimal.
fn put_number(out: &mut [u8], at: usize, n: u16) -> usize
    requires { at + length (numeral 10 n) + 1 ≤ length out.old }
    ensures { Put (tab ∷ numeral 10 n) out.old at out.new result }
{
    let digits = puts::put_byte(out, at, b'\t');
    fields::put_decimal(out, digits, u32::from(n))
}

// Puts the first line. Each local is the place of what is put next.
fn put_first(out: &mut [u8], at: usize, version: Version) -> usize
    requires { at + first_bytes version ≤ length out.old }
    ensures { Put (line (first_text version)) out.old at out.new result }
{
    let major = puts::put_bytes(out, at, b"unicode");
    let minor = put_number(out, major, version.major);
    let update = put_number(out, minor, version.minor);
    let end = put_number(out, update, version.update);
    puts::put_byte(out, end, b'\n')
}

// The bytes of the line of a record. A line has at most 32.
fn record_bytes(which: usize, low: u32, high: u32) -> usize
    ensures { Counted (line (record_text which low high)) 1 result }
{
    let mut text = [0u8; 32];
    put_record(&mut text, 0, which, low, high)
}

// The bytes of the first line.
fn first_bytes(version: Version) -> usize
    ensures { Counted (line (first_text version)) 1 result }
{
    let mut text = [0u8; 32];
    put_first(&mut text, 0, version)
}

// The bytes of the lines of a list. Pairs are taken by a pattern, here and in `put_group`: one of `chunks` would be a slice, whose two places are indexed.
fn group_bytes(which: usize, list: &[u32]) -> usize
    requires { Short list.now }
    ensures { Counted (group_lines which list.now) (length list.now) result }
{
    let mut n = 0;
    let mut rest = list;
    while let [low, high, more @ ..] = rest {
        n += record_bytes(which, *low, *high);
        rest = more;
    }
    n
}

// The bytes of the file. The version and the lists stay four parameters, here and in `put_file`: a struct of them would serve these two functions alone, and
// `Lists` answers questions of a character and hands out no list.
fn file_bytes(version: Version, starts: &[u32], continues: &[u32], emoji: &[u32]) -> usize
    requires { AllShort (lent starts.now continues.now emoji.now) }
    ensures { result ≡ file_bytes version (lent starts.now continues.now emoji.now) }
{
    let first = first_bytes(version);
    let start = group_bytes(0, starts);
    let goes_on = group_bytes(1, continues);
    first + start + goes_on + group_bytes(2, emoji)
}

// Puts the lines of a list. It goes as `group_bytes` does, which writes nothing: there is no heap, and the file is measured before the caller's buffer is touched.
fn put_group(out: &mut [u8], at: usize, which: usize, list: &[u32]) -> usize
    requires { at + length (group_lines which list.now) ≤ length out.old }
    ensures { Put (group_lines which list.now) out.old at out.new result }
{
    let mut n = at;
    let mut rest = list;
    while let [low, high, more @ ..] = rest {
        n = put_record(out, n, which, *low, *high);
        rest = more;
    }
    n
}

// Puts the file into the first bytes of a buffer that has room for it.
fn put_file(
    version: Version,
    starts: &[u32],
    continues: &[u32],
    emoji: &[u32],
    out: &mut [u8],
) -> usize
    requires { file_bytes version (lent starts.now continues.now emoji.now) ≤ length out.old }
    ensures { Put (file_of version (lent starts.now continues.now emoji.now)) out.old 0 out.new result }
{
    let first = put_first(out, 0, version);
    let start = put_group(out, first, 0, starts);
    let goes_on = put_group(out, start, 1, continues);
    put_group(out, goes_on, 2, emoji)
}

// PUBLIC. The file of a version and three lists, in the first bytes of a lent buffer. Refusals 3 and 7 in this order; neither writes a byte.
pub fn write_lists(
    version: Version,
    starts: &[u32],
    continues: &[u32],
    emoji: &[u32],
    out: &mut [u8],
) -> Result<usize, WriteRefusal>
    ensures { Writing MAX_PAIRS version (lent starts.now continues.now emoji.now) out.old out.new result }
{
    // list by list, each with its number: calls share `check_list` and `lists_in_order`, and the place among the other checks is each call's own (document 01)
    let start = ranges::check_list(0, starts);
    let goes_on = ranges::check_list(1, continues);
    let last = ranges::check_list(2, emoji);
    refusal::lists_in_order(start, goes_on, last)?;
    let bytes = file_bytes(version, starts, continues, emoji);
    if out.len() < bytes {
        return Err(WriteRefusal::Room(bytes));
    }
    Ok(put_file(version, starts, continues, emoji, out))
}
