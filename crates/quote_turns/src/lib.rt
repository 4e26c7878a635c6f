// What a character does in a string, in single quotes, in a lifetime and in a raw string, mode by mode. Each mode has its function, as it has its rule in specs/.
// A count is asked to be small enough to go on: `Mode` is the machine's own data, of which theorems speak with any count, so that the bound is no part of the type.
#![tactic(auto)]

ghost use Rattle.std.specs.Prelude.{◌≡◌, ◌<◌};
ghost use Rattle.machine.specs.Machine.{raw_at};
ghost use Rattle.goes.specs.Went.{Among, Shallow};
ghost use Rattle.quote_turns.specs.Quotes.{string_goes, quoted_goes, quote_goes, quotes_goes, wants_goes, life_goes, quoted_name_goes, in_quotes_goes};
ghost use Rattle.quote_turns.specs.Raw.{raw_hashes_goes, raw_body_goes, raw_end_goes};
ghost use Rattle.quote_turns.specs.Quoted.{quote_modes, Quoted};

use goes::Goes;
use lists::Lists;
use machine::Mode;
use text::CodePoint;

// In a string (mode InString).
pub fn string_goes(c: CodePoint) -> Goes
    ensures { result ≡ string_goes c }
{
    match c {
        0x22 => Goes::Takes(Mode::Suffix),
        0x5C => Goes::Takes(Mode::StringEscape),
        _ => Goes::Takes(Mode::InString),
    }
}

// The first character in single quotes (mode GotByteQuote).
fn quoted_goes(c: CodePoint) -> Goes
    ensures { result ≡ quoted_goes c }
{
    match c {
        0x27 => Goes::Takes(Mode::GotQuotes),
        0x2F | 0x0A => Goes::Takes(Mode::WantsQuote),
        0x5C => Goes::Takes(Mode::QuotesEscape),
        _ => Goes::Takes(Mode::InQuotes),
    }
}

// After a single quote (mode GotQuote): a lifetime or a character.
fn quote_goes(c: CodePoint, lists: &Lists) -> Goes
    ensures { result ≡ quote_goes lists.now c }
{
    if lists.is_start(c) || classes::is_digit(c) {
        Goes::Takes(Mode::QuotedName {
            letter_r: c == 0x72,
        })
    } else {
        quoted_goes(c)
    }
}

// After two single quotes (mode GotQuotes): a third one is quoted.
fn quotes_goes(c: CodePoint, lists: &Lists) -> Goes
    ensures { result ≡ quotes_goes lists.now c }
{
    match c {
        0x27 => Goes::Takes(Mode::Suffix),
        _ => goes::suffix_goes(c, lists),
    }
}

// Where a single quote has to come (mode WantsQuote).
fn wants_goes(c: CodePoint) -> Goes
    ensures { result ≡ wants_goes c }
{
    match c {
        0x27 => Goes::Takes(Mode::Suffix),
        _ => Goes::Drops(Mode::Broken),
    }
}

// In a lifetime (mode InLifetime): a quote after more than one character is taken, and the token is over.
fn life_goes(c: CodePoint, lists: &Lists) -> Goes
    ensures { result ≡ life_goes lists.now c }
{
    if lists.is_continue(c) {
        Goes::Takes(Mode::InLifetime)
    } else if c == 0x27 {
        Goes::Takes(Mode::Start { gap: false })
    } else {
        Goes::Ends(false)
    }
}

// After a quote and one character that may begin a name (mode QuotedName); `letter` says that it is r.
fn quoted_name_goes(letter: bool, c: CodePoint, lists: &Lists) -> Goes
    ensures { result ≡ quoted_name_goes lists.now letter c }
{
    match c {
        0x27 => Goes::Takes(Mode::Suffix),
        0x23 if letter => Goes::Takes(Mode::GotNameHash),
        _ => life_goes(c, lists),
    }
}

// In single quotes, further on (mode InQuotes): no / may stand there.
fn in_quotes_goes(c: CodePoint) -> Goes
    ensures { result ≡ in_quotes_goes c }
{
    match c {
        0x27 => Goes::Takes(Mode::Suffix),
        0x2F => Goes::Drops(Mode::Broken),
        0x0A => Goes::Takes(Mode::WantsQuote),
        0x5C => Goes::Takes(Mode::QuotesEscape),
        _ => Goes::Takes(Mode::InQuotes),
    }
}

// Of n hashes that are to close a raw string, j are still to come; more than 255 cannot be.
fn raw_at(n: u32, j: u32) -> Mode
    ensures { result ≡ raw_at n j }
{
    if j > 0 {
        Mode::RawEnd {
            hashes: n,
            more: j - 1,
        }
    } else if n < 256 {
        Mode::Suffix
    } else {
        Mode::Broken
    }
}

// After n hashes of a raw string, before its quote (mode RawHashes).
fn raw_hashes_goes(n: u32, c: CodePoint) -> Goes
    requires { n < 4294967295 }
    ensures { result ≡ raw_hashes_goes n c }
{
    match c {
        0x23 => Goes::Takes(Mode::RawHashes { hashes: n + 1 }),
        0x22 => Goes::Takes(Mode::RawBody { hashes: n }),
        _ => Goes::Drops(Mode::Broken),
    }
}

// In a raw string of n hashes (mode RawBody).
fn raw_body_goes(n: u32, c: CodePoint) -> Goes
    ensures { result ≡ raw_body_goes n c }
{
    match c {
        0x22 => Goes::Takes(raw_at(n, n)),
        _ => Goes::Takes(Mode::RawBody { hashes: n }),
    }
}

// After a quote in it, where one hash and j more are to come (mode RawEnd).
fn raw_end_goes(n: u32, j: u32, c: CodePoint) -> Goes
    ensures { result ≡ raw_end_goes n j c }
{
    match c {
        0x23 => Goes::Takes(raw_at(n, j)),
        _ => raw_body_goes(n, c),
    }
}

// IN QUOTES, in a lifetime or in a raw string. No other mode is asked for, and not InString: crate `turns` calls `string_goes` at once.
#[tactic(auto, using(goes::proofs::Picks::went_pick))]
pub fn in_quoted(mode: Mode, c: CodePoint, lists: &Lists) -> Goes
    requires { Among quote_modes mode × Shallow mode }
    ensures { Quoted lists.now.starts lists.now.continues mode c result }
{
    match mode {
        Mode::StringEscape => Goes::Takes(Mode::InString),
        Mode::GotQuote => quote_goes(c, lists),
        Mode::GotByteQuote => quoted_goes(c),
        Mode::GotQuotes => quotes_goes(c, lists),
        Mode::WantsQuote => wants_goes(c),
        Mode::QuotedName { letter_r } => quoted_name_goes(letter_r, c, lists),
        Mode::InLifetime => life_goes(c, lists),
        Mode::InQuotes => in_quotes_goes(c),
        Mode::QuotesEscape => Goes::Takes(Mode::InQuotes),
        Mode::RawHashes { hashes } => raw_hashes_goes(hashes, c),
        Mode::RawBody { hashes } => raw_body_goes(hashes, c),
        Mode::RawEnd { hashes, more } => raw_end_goes(hashes, more, c),
        _ => Goes::Drops(Mode::Broken),
    }
}
