// What a character does in a word, and after the prefix of one, of a string or of a raw string, mode by mode. Each mode has its function, as it has its rule in specs/Words:
// those that differ in characters and modes alone would be a table, which is no plainer than a `match`.
#![tactic(auto)]

ghost use Rattle.std.specs.Prelude.{◌≡◌};
ghost use Rattle.goes.specs.Went.{Went, Among};
ghost use Rattle.word_turns.specs.Words.{word_modes, word_goes, bad_word_goes, name_goes, hash_goes, r_goes, r_hash_goes, k_goes, name_hash_goes, c_goes, b_goes, br_goes};

use goes::Goes;
use lists::Lists;
use machine::Mode;
use text::CodePoint;

// In an identifier (mode InWord).
pub fn word_goes(c: CodePoint, lists: &Lists) -> Goes
    ensures { result ≡ word_goes lists.now c }
{
    if lists.is_continue(c) {
        Goes::Takes(Mode::InWord)
    } else if lists.is_emoji(c) {
        Goes::Takes(Mode::InBadWord)
    } else {
        Goes::Ends(false)
    }
}

// In an identifier that has emoji in it (mode InBadWord).
fn bad_word_goes(c: CodePoint, lists: &Lists) -> Goes
    ensures { result ≡ bad_word_goes lists.now c }
{
    if lists.is_invalid_part(c) {
        Goes::Takes(Mode::InBadWord)
    } else {
        Goes::Ends(false)
    }
}

// In an identifier that cannot have them: a raw one, a suffix (mode InName).
fn name_goes(c: CodePoint, lists: &Lists) -> Goes
    ensures { result ≡ name_goes lists.now c }
{
    if lists.is_continue(c) {
        Goes::Takes(Mode::InName)
    } else {
        Goes::Ends(false)
    }
}

// After # (mode GotHash): with # or a double quote it is the prefix of a guarded string.
fn hash_goes(c: CodePoint) -> Goes
    ensures { result ≡ hash_goes c }
{
    if token::is_hash_or_quote(c) {
        Goes::Takes(Mode::Start { gap: false })
    } else {
        Goes::Ends(false)
    }
}

// After r (mode GotR): a raw identifier, a raw string or a word.
fn r_goes(c: CodePoint, lists: &Lists) -> Goes
    ensures { result ≡ r_goes lists.now c }
{
    match c {
        0x23 => Goes::Takes(Mode::GotRHash),
        0x22 => Goes::Takes(Mode::RawBody { hashes: 0 }),
        _ => word_goes(c, lists),
    }
}

// After r# (mode GotRHash): a raw identifier, a raw string or a broken one.
fn r_hash_goes(c: CodePoint, lists: &Lists) -> Goes
    ensures { result ≡ r_hash_goes lists.now c }
{
    match c {
        _ if lists.is_start(c) => Goes::Takes(Mode::InName),
        0x23 => Goes::Takes(Mode::RawHashes { hashes: 2 }),
        0x22 => Goes::Takes(Mode::RawBody { hashes: 1 }),
        _ => Goes::Drops(Mode::Broken),
    }
}

// After k (mode GotK): k# or a word.
fn k_goes(c: CodePoint, lists: &Lists) -> Goes
    ensures { result ≡ k_goes lists.now c }
{
    match c {
        0x23 => Goes::Takes(Mode::GotNameHash),
        _ => word_goes(c, lists),
    }
}

// After k# and 'r# (mode GotNameHash): a name, or the # was a token.
fn name_hash_goes(c: CodePoint, lists: &Lists) -> Goes
    ensures { result ≡ name_hash_goes lists.now c }
{
    if lists.is_start(c) {
        Goes::Takes(Mode::InName)
    } else {
        hash_goes(c)
    }
}

// After c (mode GotC): a string, cr or a word.
fn c_goes(c: CodePoint, lists: &Lists) -> Goes
    ensures { result ≡ c_goes lists.now c }
{
    match c {
        0x22 => Goes::Takes(Mode::InString),
        0x72 => Goes::Takes(Mode::GotBR),
        _ => word_goes(c, lists),
    }
}

// After b (mode GotB): as after c, or a byte.
fn b_goes(c: CodePoint, lists: &Lists) -> Goes
    ensures { result ≡ b_goes lists.now c }
{
    match c {
        0x27 => Goes::Takes(Mode::GotByteQuote),
        _ => c_goes(c, lists),
    }
}

// After br and cr (mode GotBR): a raw string or a word.
fn br_goes(c: CodePoint, lists: &Lists) -> Goes
    ensures { result ≡ br_goes lists.now c }
{
    match c {
        0x22 => Goes::Takes(Mode::RawBody { hashes: 0 }),
        0x23 => Goes::Takes(Mode::RawHashes { hashes: 1 }),
        _ => word_goes(c, lists),
    }
}

// IN A WORD, or after a prefix. No other mode is asked for, and not InWord: most characters are read there, and crate `turns` calls `word_goes` at once.
#[tactic(auto, using(goes::proofs::Picks::went_pick))]
pub fn in_word(mode: Mode, c: CodePoint, lists: &Lists) -> Goes
    requires { Among word_modes mode }
    ensures { Went lists.now mode c result }
{
    match mode {
        Mode::InBadWord => bad_word_goes(c, lists),
        Mode::InName => name_goes(c, lists),
        Mode::Suffix => goes::suffix_goes(c, lists),
        Mode::GotR => r_goes(c, lists),
        Mode::GotRHash => r_hash_goes(c, lists),
        Mode::GotK => k_goes(c, lists),
        Mode::GotNameHash => name_hash_goes(c, lists),
        Mode::GotB => b_goes(c, lists),
        Mode::GotC => c_goes(c, lists),
        Mode::GotBR => br_goes(c, lists),
        Mode::GotHash => hash_goes(c),
        _ => Goes::Drops(Mode::Broken),
    }
}
