// The raw check (000's `validate_raw_str`) and guarded strings (000's `guarded_double_quoted_string`): the scans, each proved equal to its rule
// in the book, and the public calls. A count becomes one of 000's numbers where it is made: it fits, in a text that is not too long.
//
// A scan takes the text and the cursor as two parameters: a cursor that held its text would be three words in every answer, and every promise would have to say
// besides that the text is the same. The scans of a guarded string take the lists beside it, and no `Source`: the call checks two lists, and not the third.
#![tactic(auto)]

ghost use Rattle.std.specs.Prelude.{◌≤◌, ◌≡◌, length, drop};
ghost use Rattle.text.specs.Chars.{chars};
ghost use Rattle.token.specs.RawCheck.{guess, raw_check};
ghost use Rattle.token.specs.Guarded.{guarded_end, guarded_rest};
ghost use Rattle.cursor.specs.Cursors.{rest};
ghost use Rattle.cursor.specs.Ran.{Ran};
ghost use Rattle.strings.specs.Guesses.{guess_of, unguessed};
ghost use Rattle.strings.specs.RawChecks.{is_prefix, raw_answer, error_numbers, check_numbers, raw_numbers};
ghost use Rattle.strings.specs.declared.RawRefusal.TheVariants.{Shared};
ghost use Rattle.strings.specs.Guards.{guarded_at, guarded_answer, guarded_numbers};

use cursor::{Cursor, Ended};
use lists::Lists;
use ranges::MAX_PAIRS;
use refusal::{Bad, Numbers, PlaceRefusal};
use token::{GuardedStr, RawStrError};

// The most hashes that stand after a quote, and the offset past the first quote that has them.
#[derive(Clone, Copy)]
struct Guessed {
    most: u32,
    offset: Option<u32>,
}

// Where a raw string that does not end may have been meant to end. Hashes that were counted are not read again.
fn raw_guess(text: &[u8], from: Cursor) -> Guessed
    requires { length text.now ≤ 4294967295 }
    ensures { guess_of result ≡ guess from.at unguessed (rest text.now from) }
{
    let mut cur = from;
    let mut best = Guessed {
        most: 0,
        offset: None,
    };
    while let Some((c, next)) = cur.peek(text) {
        if c == 0x22 {
            let place = next.place();
            let hashes = next.eat_repeated(text, 0x23);
            let count = cursor::narrow(hashes.count);
            cur = hashes.next;
            if best.most < count {
                let offset = Some(cursor::narrow(place));
                best = Guessed {
                    most: count,
                    offset,
                };
            }
        } else {
            cur = next;
        }
    }
    best
}

// The raw check of a literal with a prefix of `prefix` bytes. A string that does not end is reported before one with too many hashes.
fn raw_check(text: &[u8], prefix: usize) -> Result<(), RawStrError>
    requires { length text.now ≤ 4294967295 }
    ensures { result ≡ raw_check prefix (chars (drop prefix text.now)) }
{
    let hashes = Cursor::new(prefix).eat_repeated(text, 0x23);
    let n = hashes.count;
    let quote = hashes.next;
    let c = quote.first(text);
    if c != 0x22 {
        return Err(RawStrError::InvalidStarter { bad_char: c });
    }
    let body = quote.bump(text);
    if !quoted::raw_rest(text, body, n).terminated {
        let best = raw_guess(text, body);
        return Err(RawStrError::NoTerminator {
            expected: cursor::narrow(n),
            found: best.most,
            possible_terminator_offset: best.offset,
        });
    }
    if n < 256 {
        return Ok(());
    }
    Err(RawStrError::TooManyDelimiters {
        found: cursor::narrow(n),
    })
}

// Whether a text begins with a raw string's prefix of `prefix` bytes.
fn is_prefix(text: &[u8], prefix: usize) -> bool
    ensures { result ≡ is_prefix text.now prefix }
{
    match prefix {
        1 => text.starts_with(b"r"),
        2 => text.starts_with(b"br") || text.starts_with(b"cr"),
        _ => false,
    }
}

// The refusals of `validate_raw_str`: the prefix is none of a raw string (8), or one that calls share (1, 2).
#[derive(Clone, Copy)]
pub enum RawRefusal {
    Prefix,
    Shared(Bad),
}

impl From<Bad> for RawRefusal {
    ghost from_gives = { λ bad refusal. refusal ≡ Shared bad };

    fn from(bad: Bad) -> RawRefusal {
        RawRefusal::Shared(bad)
    }
}

// PUBLIC. The raw check of a literal with a prefix of `prefix` bytes: 000's `validate_raw_str`. Refusals 1, 2 and 8 in this order.
pub fn validate_raw_str(text: &[u8], prefix: usize) -> Result<Result<(), RawStrError>, RawRefusal>
    ensures { result ≡ raw_answer text.now prefix }
{
    text::check_text(text)?;
    if !is_prefix(text, prefix) {
        return Err(RawRefusal::Prefix);
    }
    Ok(raw_check(text, prefix))
}

// What is wrong with a raw string, by number. A usize is at least as wide as 000's numbers, but has no `From` of them. It and the three below that give numbers
// are named as their rules, as the guide has them, and no `From`: `Numbers` and `Result` are no types of this crate.
fn error_numbers(error: RawStrError) -> Numbers
    ensures { result ≡ error_numbers error }
{
    match error {
        RawStrError::InvalidStarter { bad_char } => refusal::done(1, bad_char as usize),
        RawStrError::NoTerminator { expected, .. } => refusal::done(2, expected as usize),
        RawStrError::TooManyDelimiters { found } => refusal::done(3, found as usize),
    }
}

// What the raw check says, by number.
fn check_numbers(check: Result<(), RawStrError>) -> Numbers
    ensures { result ≡ check_numbers check }
{
    match check {
        Ok(()) => refusal::done(0, 0),
        Err(error) => error_numbers(error),
    }
}

// The answer by number.
pub fn raw_numbers(answer: Result<Result<(), RawStrError>, RawRefusal>) -> Numbers
    ensures { result ≡ raw_numbers answer }
{
    match answer {
        Ok(check) => check_numbers(check),
        Err(RawRefusal::Prefix) => refusal::refused(8, 0),
        Err(RawRefusal::Shared(bad)) => refusal::bad_numbers(bad),
    }
}

// What may follow a guarded string that ends: hashes, `most` at the most, and a suffix.
fn guarded_end(text: &[u8], from: Cursor, most: usize, lists: &Lists) -> Cursor
    ensures { Ran (guarded_end lists.now most) text.now from result tt }
{
    let hashes = quoted::eat_hashes_most(text, from, most);
    words::eat_identifier(text, hashes.next, lists)
}

// The rest of a guarded string, after `count` hashes and its quote.
fn guarded_rest(text: &[u8], from: Cursor, count: usize, lists: &Lists) -> Ended
    ensures { Ran (guarded_rest lists.now count) text.now from result.next result.terminated }
{
    let ended = quoted::double_quoted_string(text, from);
    if !ended.terminated {
        return ended;
    }
    Ended {
        next: guarded_end(text, ended.next, count, lists),
        terminated: true,
    }
}

// What is found at a position, and where the cursor then stands: where there is no quote, past the hashes.
#[derive(Clone, Copy)]
pub struct GuardedAt {
    pub found: Option<GuardedStr>,
    pub next: usize,
}

// A guarded string: hashes, a quote, the string, up to as many hashes and a suffix. Its length counts from the first hash.
fn guarded_at(text: &[u8], at: usize, lists: &Lists) -> GuardedAt
    requires { length text.now ≤ 4294967295 }
    ensures { result ≡ guarded_at lists.now text.now at }
{
    let from = Cursor::new(at);
    let hashes = from.eat_repeated(text, 0x23);
    let n = hashes.count;
    let quote = hashes.next;
    if quote.first(text) != 0x22 {
        return GuardedAt {
            found: None,
            next: quote.place(),
        };
    }
    let ended = guarded_rest(text, quote.bump(text), n, lists);
    let end = ended.next;
    let next = end.place();
    let string = GuardedStr {
        n_hashes: cursor::narrow(n),
        terminated: ended.terminated,
        token_len: cursor::narrow(next - at),
    };
    GuardedAt {
        found: Some(string),
        next,
    }
}

// PUBLIC. The guarded string at a position: 000's `guarded_double_quoted_string`, and where its cursor then stands. Refusals 1, 3, 2 and 4 in
// this order; it uses the two lists of identifiers.
pub fn guarded_double_quoted_string(
    text: &[u8],
    starts: &[u32],
    continues: &[u32],
    at: usize,
) -> Result<GuardedAt, PlaceRefusal>
    ensures { result ≡ guarded_answer MAX_PAIRS text.now starts.now continues.now at }
{
    classes::ident_verdict(text, starts, continues)?;
    // calls share `starts_here`; with the refusal, which each gives after its own checks (document 01), it would be one more public function for these three lines
    if !text::starts_here(text, at) {
        return Err(PlaceRefusal::Position(at));
    }
    let lists = Lists::new(starts, continues, &[]);
    Ok(guarded_at(text, at, &lists))
}

// The answer by number: beside done, 1 where a string is found.
pub fn guarded_numbers(answer: Result<GuardedAt, PlaceRefusal>) -> Numbers
    ensures { result ≡ guarded_numbers answer }
{
    match answer {
        Ok(given) => refusal::done(given.next, usize::from(given.found.is_some())),
        Err(refusal) => refusal::place_numbers(refusal),
    }
}
