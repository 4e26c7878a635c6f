// Replays stored answers of the Rust, and of document 01 where the Rust has no word for it, in the files that the arguments name.
// For each file it writes how many vectors agree and how many do not, the place of each that does not, and the sums at the end.
// tools/oracle/README.md describes the files and how they are made.
#![tactic(auto)]

ghost use Rattle.std.specs.Prelude.{◌≡◌, ◌+◌, ◌<◌, ◌≤◌, length, IfSome, IfOk, IfErr};
ghost use Rattle.replay.specs.Counted.{Tallied, Within, One, Steps, Short, Halted, After};
ghost use Rattle.replay.specs.declared.Stop.TheVariants.{Output};

use std::env::{Env, FillError};
use std::io::Write;
use std::rt::Files;
use std::{fs, io};
use stored::Lent;
use vectors::{Part, Vector};

// How far a file was read, what agreed and what did not.
#[derive(Clone, Copy)]
struct Tally {
    pub at: usize,
    pub same: usize,
    pub other: usize,
}

// Why a file was not read to its end: it is out of form past what was counted, or what was to be written could not be.
#[derive(Drop)]
enum Stop {
    OutOfForm(Tally),
    Output(io::Error),
}

impl From<io::Error> for Stop {
    ghost from_gives = { λ why stop. stop ≡ Output why };

    fn from(why: io::Error) -> Stop {
        Stop::Output(why)
    }
}

fn say_bad<W: Write>(to: &mut W, at: usize) -> io::Result<()> {
    writeln!(to, "differs at {at}")
}

// Whether the answer of an operation on a part of a file is the answer that stands in another part; where it has none, whether that part is empty.
fn agrees(s: &[u8], v: Vector, lists: Lent, out: &mut [u8]) -> bool
    requires { Within (length s.now) v.input × Within (length s.now) v.answer }
{
    let input = &s[v.input.from..v.input.to];
    let answer = &s[v.answer.from..v.answer.to];
    match stored::answer(v.operation, input, lists, out) {
        Some(k) => &out[..k] == answer,
        None => answer.is_empty(),
    }
}

// One vector more, up to a place: it agrees, or it differs.
fn counted(t: Tally, to: usize, agrees: bool) -> Tally
    requires { t.same + t.other < to }
    ensures { One t to agrees result }
{
    if agrees {
        Tally {
            at: to,
            same: t.same + 1,
            ..t
        }
    } else {
        Tally {
            at: to,
            other: t.other + 1,
            ..t
        }
    }
}

// The vector at the tally's place.
fn step<W: Write>(
    to: &mut W,
    s: &[u8],
    t: Tally,
    lists: Lent,
    out: &mut [u8],
) -> Result<Tally, Stop>
    requires { Tallied (length s.now) t }
    ensures all { IfOk result (Steps (length s.now) 1 t) }
    ensures few { IfErr result (Short (length s.now) 1 t) }
{
    let Some(v) = vectors::vector_at(s, t.at) else {
        return Err(Stop::OutOfForm(t));
    };
    let same = agrees(s, v, lists, out);
    if !same {
        say_bad(to, t.at)?;
    }
    Ok(counted(t, v.answer.to, same))
}

// As many vectors as `count` says.
fn steps<W: Write>(
    to: &mut W,
    s: &[u8],
    from: Tally,
    count: u32,
    lists: Lent,
    out: &mut [u8],
) -> Result<Tally, Stop>
    requires { Tallied (length s.now) from }
    ensures all { IfOk result (Steps (length s.now) count from) }
    ensures few { IfErr result (Short (length s.now) count from) }
{
    let mut t = from;
    for _ in 0..count {
        t = step(to, s, t, lists, out)?;
    }
    Ok(t)
}

// How a section begins: where its lists stand, how many vectors it has, and where the first of them is.
#[derive(Clone, Copy)]
struct Head {
    pub starts: Part,
    pub continues: Part,
    pub emoji: Part,
    pub count: u32,
    pub end: usize,
}

fn head_at(s: &[u8], at: usize) -> Option<Head>
    ensures { IfSome result (λ h. After (length s.now) at h.end) }
{
    let starts = vectors::numbers_at(s, at)?;
    let continues = vectors::numbers_at(s, starts.to)?;
    let emoji = vectors::numbers_at(s, continues.to)?;
    let count = vectors::number_at(s, emoji.to)?;
    Some(Head {
        starts,
        continues,
        emoji,
        count,
        end: emoji.to + 4,
    })
}

// The vectors of a section, with its lists. Their rooms have fixed sizes, and `load` says how much of each is in use: there is no heap.
// There is room for as many numbers as a whole file has, so that no list in a file has more.
fn section<W: Write>(to: &mut W, s: &[u8], t: Tally, out: &mut [u8]) -> Result<Tally, Stop>
    requires { Tallied (length s.now) t }
    ensures counted { IfOk result (Tallied (length s.now)) }
    ensures on { IfOk result (λ r. t.at < r.at) }
    ensures few { IfErr result (Halted (length s.now)) }
{
    let Some(head) = head_at(s, t.at) else {
        return Err(Stop::OutOfForm(t));
    };
    let mut starts: [u32; 65536] = input::filled(0);
    let i = vectors::load(s, head.starts, &mut starts);
    let mut continues: [u32; 65536] = input::filled(0);
    let j = vectors::load(s, head.continues, &mut continues);
    let mut emoji: [u32; 65536] = input::filled(0);
    let k = vectors::load(s, head.emoji, &mut emoji);
    let lists = Lent {
        starts: &starts[..i],
        continues: &continues[..j],
        emoji: &emoji[..k],
    };
    let first = Tally { at: head.end, ..t };
    steps(to, s, first, head.count, lists, out)
}

// Before the first vector. No `Default`: that this is a tally of no byte is what is promised, and it would promise zeros, field by field.
fn nothing() -> Tally
    ensures { Tallied 0 result }
{
    Tally {
        at: 0,
        same: 0,
        other: 0,
    }
}

// Every section of a file.
fn sections<W: Write>(to: &mut W, s: &[u8], out: &mut [u8]) -> Result<Tally, Stop>
    ensures counted { IfOk result (Tallied (length s.now)) }
    ensures few { IfErr result (Halted (length s.now)) }
{
    let mut t = nothing();
    while t.at < s.len() {
        t = section(to, s, t, out)?;
    }
    Ok(t)
}

fn say<W: Write>(to: &mut W, t: Tally) -> io::Result<()> {
    let same = t.same;
    let other = t.other;
    writeln!(to, ": {same} agree, {other} differ")
}

fn say_out_of_form<W: Write>(to: &mut W, t: Tally) -> io::Result<()> {
    say(to, t)?;
    writeln!(to, "the file is out of form")
}

// The file at a path. Where it cannot be opened there is none, and standard error says why.
fn opened<R: Files + Eprint>(rt: &R, path: &[u8]) -> io::Result<Option<R::File>> {
    let Ok(name) = str::from_utf8(path) else {
        eprintln!(rt; "a path that is not UTF-8 cannot be opened")?;
        return Ok(None);
    };
    match fs::open(rt, name) {
        Ok(file) => Ok(Some(file)),
        Err(why) => {
            eprintln!(rt; "{name}: {why}")?;
            Ok(None)
        }
    }
}

// The vectors of one file, which fills a part of a room of a fixed size: there is no heap.
// One that cannot be opened, and one that is too long, counts as out of form from its beginning.
fn file<R: Files + Eprint, W: Write>(rt: &R, to: &mut W, path: &[u8]) -> Result<Tally, Stop> {
    let Some(mut opened) = opened(rt, path)? else {
        return Err(Stop::OutOfForm(nothing()));
    };
    let mut s: [u8; 262145] = input::filled(0);
    let n = input::read_full(&mut opened, &mut s)?;
    if 262144 < n {
        return Err(Stop::OutOfForm(nothing()));
    }
    let mut out: [u8; 262144] = input::filled(0);
    sections(to, &s[..n], &mut out)
}

// What was counted in the file at a path, said.
fn said<R: Files + Eprint, W: Write>(rt: &R, to: &mut W, path: &[u8]) -> io::Result<Tally> {
    to.write_all(path)?;
    match file(rt, to, path) {
        Ok(t) => {
            say(to, t)?;
            Ok(t)
        }
        Err(Stop::OutOfForm(t)) => {
            say_out_of_form(to, t)?;
            Ok(t)
        }
        Err(Stop::Output(why)) => Err(why),
    }
}

// The file that argument i names, whose path fills a part of a room, or nothing past the last argument.
// An argument that is too long for a path is read as an empty one, which no file has.
fn argument<R: Env + Files + Eprint, W: Write>(
    rt: &R,
    to: &mut W,
    i: usize,
) -> io::Result<Option<Tally>> {
    let mut path: [u8; 4096] = input::filled(0);
    let n = match rt.arg(i, &mut path) {
        Ok(n) => n,
        Err(FillError::NotPresent) => return Ok(None),
        Err(FillError::TooLong) => 0,
    };
    Ok(Some(said(rt, to, &path[..n])?))
}

// Where no file is named, that is said as of one that is not there.
fn main(rt: HostRuntime) -> io::Result<()> {
    let mut to = rt.stdout();
    let mut sum: Option<Tally> = None;
    for i in 1..usize::MAX {
        let Some(t) = argument(&rt, &mut to, i)? else {
            break;
        };
        let before = sum.unwrap_or(nothing());
        sum = Some(Tally {
            at: 0,
            same: before.same.wrapping_add(t.same),
            other: before.other.wrapping_add(t.other),
        });
    }
    write!(to, "in all")?;
    match sum {
        Some(t) => say(&mut to, t),
        None => say_out_of_form(&mut to, nothing()),
    }
}
