// The reader of the file of a Unicode version's lists (document 02, W1). It goes through the file twice: once over every line, to find every refusal
// and to count, and once to write the numbers. Each line is read from its beginning to its end a fixed number of times.
#![tactic(auto)]

ghost use Rattle.std.specs.Prelude.{◌+◌, ◌*◌, ◌≤◌, ◌≡◌, length, drop};
ghost use Rattle.token.specs.Lists.{none};
ghost use Rattle.fields.specs.Pieces.{piece};
ghost use Rattle.lists_file.specs.Load.{load_at, load};
ghost use Rattle.lists_in.specs.declared.ReadRefusal.TheVariants.{Shared};
ghost use Rattle.lists_in.specs.Tallies.{tally_on, tallies_on, tallies_of, verdict_of, RoomForTwo, RoomForPair};
ghost use Rattle.lists_in.specs.Surveys.{step_of, surveyed, Starting};
ghost use Rattle.lists_in.specs.Fills.{FillRoom, Filled};
ghost use Rattle.lists_in.specs.Answers.{roomed_for, judged_of, read_numbers, Reading};

use lists_file::{Entry, Version};
use ranges::MAX_PAIRS;
use refusal::{Bad, Numbers};

// What is loaded: the version, and how many numbers each run now holds.
// The runs are the caller's, as there is no heap, and the C interface hands these numbers on.
#[derive(Clone, Copy)]
pub struct Held {
    pub version: Version,
    pub starts: usize,
    pub continues: usize,
    pub emoji: usize,
}

// Why nothing is loaded: a bad line (9), with the number of the first, from 0; a list for which the run has too little room (7), and the numbers it
// needs; or a refusal that calls share: a list that breaks a rule (3).
#[derive(Clone, Copy)]
pub enum ReadRefusal {
    Line(usize),
    Room(usize, usize),
    Shared(Bad),
}

impl From<Bad> for ReadRefusal {
    ghost from_gives = { λ bad refusal. refusal ≡ Shared bad };

    fn from(bad: Bad) -> ReadRefusal {
        ReadRefusal::Shared(bad)
    }
}

// The answer by number. Named as its rule, as the guide has it, and no `From`: neither type is this crate's.
pub fn read_numbers(answer: Result<Held, ReadRefusal>) -> Numbers
    ensures { result ≡ read_numbers answer }
{
    match answer {
        Ok(_) => refusal::done(0, 0),
        Err(ReadRefusal::Line(index)) => refusal::refused(9, index),
        Err(ReadRefusal::Room(list, needed)) => Numbers {
            number: 7,
            beside: list,
            second: needed,
        },
        Err(ReadRefusal::Shared(bad)) => refusal::bad_numbers(bad),
    }
}

// One for each of the three lists: of any type, where `lists::Lists` is the three slices once they are checked.
#[derive(Clone, Copy)]
struct Each<T> {
    starts: T,
    continues: T,
    emoji: T,
}

// What is known of a list so far: how many numbers it has, where its last pair ends (0 where it has none), and where it breaks a rule first.
#[derive(Clone, Copy)]
struct Tally {
    numbers: usize,
    previous: u32,
    flaw: Option<usize>,
}

// A pair more.
fn tally_on(t: Tally, low: u32, high: u32) -> Tally
    requires { RoomForTwo t }
    ensures { result ≡ tally_on t low high }
{
    let flaw = match t.flaw {
        None if !ranges::good_pair(t.previous, low, high) => Some(t.numbers / 2),
        before => before,
    };
    Tally {
        numbers: t.numbers + 2,
        previous: high,
        flaw,
    }
}

// A record more, in its list, which `Entry` holds by its number. The three arms differ in the field alone: a field is not chosen by a number.
fn tallies_on(t: Each<Tally>, entry: Entry) -> Each<Tally>
    requires { RoomForPair t }
    ensures { result ≡ tallies_on t entry }
{
    match entry.which {
        0 => Each {
            starts: tally_on(t.starts, entry.low, entry.high),
            ..t
        },
        1 => Each {
            continues: tally_on(t.continues, entry.low, entry.high),
            ..t
        },
        _ => Each {
            emoji: tally_on(t.emoji, entry.low, entry.high),
            ..t
        },
    }
}

// The record in the line at a place, and the place past its LF. None where the line is bad.
fn line_at(file: &[u8], at: usize) -> Option<(Entry, usize)>
    requires { at ≤ length file.now }
    ensures { result ≡ step_of at (drop at file.now) }
{
    let (line, _) = fields::cut(&file[at..], b'\n')?;
    let entry = lists_file::record_of(line)?;
    Some((entry, at + line.len() + 1))
}

// What a whole file says: its version, where its records begin, and what is known of its lists.
#[derive(Clone, Copy)]
struct Found {
    version: Version,
    from: usize,
    tallies: Each<Tally>,
}

// Before the first record. No `Default`: that these are the tallies of no list is what is promised, and it would promise zeros, field by field.
fn none_yet() -> Each<Tally>
    ensures { result ≡ tallies_of none }
{
    let none = Tally {
        numbers: 0,
        previous: 0,
        flaw: None,
    };
    Each {
        starts: none,
        continues: none,
        emoji: none,
    }
}

// The lines after the first, which begin at a place. Err is the number of the first bad line, alone: `ReadRefusal::Line` is made of it once, in `read_lists`.
fn survey_records(file: &[u8], version: Version, from: usize) -> Result<Found, usize>
    requires { Starting from (length file.now) }
    ensures { result ≡ surveyed from (load_at 1 0 version none (drop from file.now)) }
{
    let mut at = from;
    let mut index: usize = 1;
    let mut group: usize = 0;
    let mut tallies = none_yet();
    // A turn is a line, of any length: `at` is where it begins, `index` its number.
    while at < file.len() {
        let (entry, next) = line_at(file, at).ok_or(index)?;
        if entry.which < group {
            return Err(index);
        }
        tallies = tallies_on(tallies, entry);
        group = entry.which;
        at = next;
        index += 1;
    }
    Ok(Found {
        version,
        from,
        tallies,
    })
}

// Every line of a file. Err is the number of the first bad line.
fn survey_file(file: &[u8]) -> Result<Found, usize>
    ensures { result ≡ surveyed (length (piece 10 file.now) + 1) (load file.now) }
{
    let (first, _) = fields::cut(file, b'\n').ok_or(0usize)?;
    let version = lists_file::version_of(first).ok_or(0usize)?;
    survey_records(file, version, first.len() + 1)
}

// Refusal 3 for a list, told by its number, as `Bad::List` holds it for the C interface: the count first, then the pairs.
fn verdict_of(which: usize, t: Tally) -> Result<(), Bad>
    ensures { result ≡ verdict_of MAX_PAIRS which t }
{
    if MAX_PAIRS < t.numbers / 2 {
        return Err(Bad::List(which, MAX_PAIRS));
    }
    match t.flaw {
        None => Ok(()),
        Some(pair) => Err(Bad::List(which, pair)),
    }
}

// Refusal 7: the first list for which a run has too little room. The numbers are copied one by one: `Held` has fields of its own, which the public call names.
fn roomed_for(
    version: Version,
    numbers: Each<usize>,
    rooms: Each<usize>,
) -> Result<Held, ReadRefusal>
    ensures { result ≡ roomed_for version numbers rooms }
{
    if rooms.starts < numbers.starts {
        return Err(ReadRefusal::Room(0, numbers.starts));
    }
    if rooms.continues < numbers.continues {
        return Err(ReadRefusal::Room(1, numbers.continues));
    }
    if rooms.emoji < numbers.emoji {
        return Err(ReadRefusal::Room(2, numbers.emoji));
    }
    Ok(Held {
        version,
        starts: numbers.starts,
        continues: numbers.continues,
        emoji: numbers.emoji,
    })
}

// What is said of a file whose lines are good: 3, then 7, else that it is loaded.
fn judged(found: Found, rooms: Each<usize>) -> Result<Held, ReadRefusal>
    ensures { result ≡ judged_of MAX_PAIRS found rooms }
{
    let t = found.tallies;
    let starts = verdict_of(0, t.starts);
    let continues = verdict_of(1, t.continues);
    let emoji = verdict_of(2, t.emoji);
    refusal::lists_in_order(starts, continues, emoji)?;
    let numbers = Each {
        starts: t.starts.numbers,
        continues: t.continues.numbers,
        emoji: t.emoji.numbers,
    };
    roomed_for(found.version, numbers, rooms)
}

// Writes the pairs of so many records from a place on into a run, and hands back the place past them.
fn fill(file: &[u8], from: usize, pairs: usize, run: &mut [u32]) -> usize
    requires { FillRoom file.now from pairs run.old }
    ensures { Filled file.now from pairs run.old run.new result }
{
    let mut at = from;
    // By index: of a run that is lent to `as_chunks_mut` or `chunks_exact_mut`, or parted by a pattern turn by turn, nothing is known of what it ends as, which is
    // what is promised here.
    for k in 0..pairs {
        let Some((entry, next)) = line_at(file, at) else {
            return at;
        };
        run[k * 2] = entry.low;
        run[k * 2 + 1] = entry.high;
        at = next;
    }
    at
}

// PUBLIC. The version and the lists that a file holds, the lists in the first numbers of three lent runs. Refusals 9, 3 and 7 in this order; none of them
// writes a number.
pub fn read_lists(
    file: &[u8],
    starts: &mut [u32],
    continues: &mut [u32],
    emoji: &mut [u32],
) -> Result<Held, ReadRefusal>
    ensures { Reading MAX_PAIRS file.now starts.old continues.old emoji.old starts.new continues.new emoji.new result }
{
    let found = survey_file(file).map_err(ReadRefusal::Line)?;
    let rooms = Each {
        starts: starts.len(),
        continues: continues.len(),
        emoji: emoji.len(),
    };
    let held = judged(found, rooms)?;
    let past_starts = fill(file, found.from, held.starts / 2, starts);
    let past_continues = fill(file, past_starts, held.continues / 2, continues);
    fill(file, past_continues, held.emoji / 2, emoji);
    Ok(held)
}
