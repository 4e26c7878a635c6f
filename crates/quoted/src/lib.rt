// Quoted literals, each proved equal to its rule in the book. Names are 000's.
// The text and a cursor into it stay two parameters: a cursor that held its text would be three words in every answer, and each promise would have to say besides that
// the text is the same.
#![tactic(auto)]

ghost use Rattle.eaters.specs.Scan.{scan};
ghost use Rattle.token.specs.Quotes.{double_turn, single_turn, single};
ghost use Rattle.eaters.specs.Scan.{first_with};
ghost use Rattle.token.specs.Names.{'double', '#'};
ghost use Rattle.cursor.specs.Ran.{Ran};
ghost use Rattle.quoted.specs.Raws.{CountedMost, RawRan};

use cursor::{Cursor, Ended, Repeated};

// The rest of a double-quoted literal, after its quote: a quote ends it; a backslash takes a backslash or a quote with it.
pub fn double_quoted_string(text: &[u8], from: Cursor) -> Ended
    ensures { Ran (scan double_turn 0 1) text.now from result.next result.terminated }
{
    let mut cur = from;
    while let Some((c, next)) = cur.peek(text) {
        match c {
            0x22 => {
                return Ended {
                    next,
                    terminated: true,
                };
            }
            0x5C => match next.first(text) {
                0x5C | 0x22 => cur = next.bump(text),
                _ => cur = next,
            },
            _ => cur = next,
        }
    }
    Ended {
        next: cur,
        terminated: false,
    }
}

// The scan of a single-quoted literal. It leaves the literal at the first of these that holds: a quote, which ends it well; a slash;
// a newline that no quote follows; the end of the text. A backslash takes two characters.
fn single_rest(text: &[u8], from: Cursor) -> Ended
    ensures { Ran (scan single_turn 0 1) text.now from result.next result.terminated }
{
    let mut cur = from;
    let terminated = loop {
        let Some((c, next)) = cur.peek(text) else {
            break false;
        };
        match c {
            0x27 => {
                cur = next;
                break true;
            }
            0x2F => break false,
            0x0A if cur.second(text) != 0x27 => break false,
            0x5C => cur = next.bump(text),
            _ => cur = next,
        }
    };
    Ended {
        next: cur,
        terminated,
    }
}

// The rest of a single-quoted literal, after its quote: one character and a quote, or the scan.
pub fn single_quoted_string(text: &[u8], from: Cursor) -> Ended
    ensures { Ran single text.now from result.next result.terminated }
{
    if from.second(text) == 0x27 && from.first(text) != 0x5C {
        return Ended {
            next: from.eat(text, 2),
            terminated: true,
        };
    }
    single_rest(text, from)
}

// The hashes at a cursor, `most` at the most. `eat_repeated` has no most: with one, each of its callers would hand in a number that cannot be reached.
pub fn eat_hashes_most(text: &[u8], from: Cursor, most: usize) -> Repeated
    ensures { CountedMost most text.now from result }
{
    let mut cur = from;
    for count in 0..most {
        let Some((0x23, next)) = cur.peek(text) else {
            return Repeated { next: cur, count };
        };
        cur = next;
    }
    Repeated {
        next: cur,
        count: most,
    }
}

// The rest of a raw string, after its quote: the first quote with `count` hashes after it closes. Hashes that were counted are not read again.
pub fn raw_rest(text: &[u8], from: Cursor, count: usize) -> Ended
    ensures { Ran (first_with 'double' '#' count) text.now from result.next result.terminated }
{
    let mut cur = from;
    while let Some((c, next)) = cur.peek(text) {
        cur = next;
        if c == 0x22 {
            let hashes = eat_hashes_most(text, cur, count);
            cur = hashes.next;
            if hashes.count == count {
                return Ended {
                    next: cur,
                    terminated: true,
                };
            }
        }
    }
    Ended {
        next: cur,
        terminated: false,
    }
}

// The cursor past a raw string without its suffix, and its count of hashes, if it has one. A `Repeated` always has a count.
#[derive(Clone, Copy)]
pub struct RawQuoted {
    pub next: Cursor,
    pub count: Option<u8>,
}

// A raw string, after its r: hashes, a quote, and the first quote with as many hashes. No count for a bad start, for no end, and for more than 255.
pub fn raw_double_quoted_string(text: &[u8], from: Cursor) -> RawQuoted
    ensures { RawRan text.now from result }
{
    let hashes = from.eat_repeated(text, 0x23);
    let quote = hashes.next;
    if quote.first(text) != 0x22 {
        return RawQuoted {
            next: quote.bump(text),
            count: None,
        };
    }
    let ended = raw_rest(text, quote.bump(text), hashes.count);
    // The limit of the rule stands here as it is, where `u8::try_from` would hide it.
    let count = if ended.terminated && hashes.count < 256 {
        Some(hashes.count as u8)
    } else {
        None
    };
    RawQuoted {
        next: ended.next,
        count,
    }
}
