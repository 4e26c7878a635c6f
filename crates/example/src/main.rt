// An example for those who call the crates from Rattle: the key of a text, with empty lists and with those of a file, the tokens of a text, and a refusal explained.
// No call asks anything of its caller: what has to be proved here is only that a part of an array lies within it.
// Each room is an array of a fixed size, and a number says how much of it is in use: there is no heap.
#![tactic(auto)]

use key::KeyRefusal;
use lists_file::Version;
use plan::ListRefusal;
use refusal::{Bad, Cause, Numbers};
use std::io::Write;
use std::{fmt, io};
use token::{Token, TokenKind};

// A refusal by its numbers, and what it means, where this example says so.
#[derive(Clone, Copy)]
struct Explained {
    numbers: Numbers,
    meaning: &'static str,
}

impl fmt::Display for Explained {
    fn fmt<W: fmt::Write>(&self, f: &mut fmt::Formatter<W>) -> fmt::Result {
        let Numbers { number, beside, .. } = self.numbers;
        let meaning = self.meaning;
        write!(f, "refused with number {number} at byte {beside}{meaning}")
    }
}

// What a refusal that calls share means.
fn bad_meaning(bad: Bad) -> &'static str {
    match bad {
        Bad::NotUtf8(_, Cause::Start) => {
            ": the text is not UTF-8 there: the byte there cannot start a character"
        }
        Bad::NotUtf8(_, Cause::Cut) => ": the text is not UTF-8 there: it ends inside a character",
        Bad::NotUtf8(_, Cause::Follow) => {
            ": the text is not UTF-8 there: a byte after the first is wrong"
        }
        Bad::TooLong | Bad::List(_, _) => "",
    }
}

// What a refusal of a key means.
fn key_meaning(refusal: KeyRefusal) -> &'static str {
    match refusal {
        KeyRefusal::Broken(_) => ": a literal or a block comment begins there and does not end",
        KeyRefusal::Shared(bad) => bad_meaning(bad),
        _ => "",
    }
}

// What a refusal of the tokens means.
fn list_meaning(refusal: ListRefusal) -> &'static str {
    match refusal {
        ListRefusal::Slots(_) => "",
        ListRefusal::Shared(bad) => bad_meaning(bad),
    }
}

// A line for a refusal: the numbers are those of the C interface.
fn say_refused<W: Write>(to: &mut W, numbers: Numbers, meaning: &'static str) -> io::Result<()> {
    writeln!(to, "{}", Explained { numbers, meaning })
}

// The key of a text, with lent lists.
fn say_key_by<W: Write>(
    to: &mut W,
    text: &[u8],
    starts: &[u32],
    continues: &[u32],
    emoji: &[u32],
) -> io::Result<()> {
    let mut out = [0u8; 64];
    let answer = key::key(text, starts, continues, emoji, &mut out);
    match answer {
        Ok(n) => to.write_all(&out[..n]),
        Err(refusal) => say_refused(to, key::key_numbers(answer), key_meaning(refusal)),
    }
}

// The key of a text, with empty lists.
fn say_key<W: Write>(to: &mut W, text: &[u8]) -> io::Result<()> {
    say_key_by(to, text, &[], &[], &[])
}

fn say_refused_lists<W: Write>(to: &mut W, n: Numbers) -> io::Result<()> {
    let Numbers {
        number,
        beside: line,
        ..
    } = n;
    writeln!(to, "lists refused with number {number}, line {line}")
}

fn say_version<W: Write>(to: &mut W, version: Version) -> io::Result<()> {
    let Version {
        major,
        minor,
        update,
    } = version;
    writeln!(to, "lists of Unicode {major}.{minor}.{update}")
}

// The key of a text, with the lists of a file.
fn say_key_with<W: Write>(to: &mut W, file: &[u8], text: &[u8]) -> io::Result<()> {
    let mut starts = [0u32; 8];
    let mut continues = [0u32; 8];
    let mut emoji = [0u32; 8];
    let read = lists_in::read_lists(file, &mut starts, &mut continues, &mut emoji);
    let Ok(held) = read else {
        return say_refused_lists(to, lists_in::read_numbers(read));
    };
    say_version(to, held.version)?;
    say_key_by(
        to,
        text,
        &starts[..held.starts],
        &continues[..held.continues],
        &emoji[..held.emoji],
    )
}

// What each record holds before the call. By hand, since no kind of token is the one that a `Default` would take; that of `stored` differs from every token of a text.
fn blank() -> Token {
    Token {
        kind: TokenKind::Eof,
        len: 0,
        start: 0,
        line: 0,
    }
}

// A line for a token: the number of its kind, its length, its start and its line.
fn say_token<W: Write>(to: &mut W, token: &Token) -> io::Result<()> {
    let Token {
        kind,
        len,
        start,
        line,
    } = *token;
    let number = kinds::kind_number(kind);
    writeln!(to, "{number} {len} {start} {line}")
}

// The tokens of a text of at most 64, a line each.
fn say_tokens<W: Write>(to: &mut W, text: &[u8]) -> io::Result<()> {
    let records = list::tokenize_64(text, &[], &[], &[], false, blank());
    match records.answer {
        Ok(n) => records
            .tokens
            .iter()
            .take(n)
            .try_for_each(|token| say_token(to, token)),
        Err(refusal) => say_refused(
            to,
            plan::list_numbers(records.answer),
            list_meaning(refusal),
        ),
    }
}

fn main(rt: HostRuntime) -> io::Result<()> {
    let mut to = rt.stdout();
    say_key(&mut to, b"/* a */x = 1; // b\n")?;
    say_tokens(&mut to, b"a\n+1")?;
    say_key(&mut to, b"x = '/**/'")?;
    say_key(&mut to, b"x = \xE2\x82")?;
    say_key_with(
        &mut to,
        b"unicode\t15\t0\t0\nstart\tef\tef\ncontinue\tef\tef\n",
        b"na\xC3\xAFve = '\xC3\xAF; // b\n",
    )?;
    say_key_with(&mut to, b"unicode\t15\t0\t0\nstart\tEF\tef\n", b"a")
}
