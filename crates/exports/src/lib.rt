// What C and other languages link: the calls over numbers and slices. bindings/c/lovemudarn.h declares the same for C.
//
// Every answer begins with three numbers: the refusal's number in document 01's table (0: done), and the two numbers beside it. A slice goes in as a
// pointer and a count.
//
// The C interface wants flat structs of numbers and flags, each with its three numbers first and zeros where a call refuses: so no `Option`, no `Result`, no struct
// in a struct, the parameters as C has them, and a function named as its rule in specs/ for each answer, where a `From` would stand for a rule that has a name. Each
// field is named: `..no_token(n)` would call a token that is given a refused one.
#![tactic(auto)]

ghost use Rattle.std.specs.Prelude.{◌≡◌, true, Some, None};
ghost use Rattle.basics.specs.Choice.{pick};
ghost use Rattle.text.specs.Position.{on_boundary};
ghost use Rattle.classes.specs.Whitespace.{is_whitespace, is_horizontal_whitespace};
ghost use Rattle.classes.specs.Answers.{answer_numbers, id_start_answer, id_continue_answer, emoji_answer, ident_answer};
ghost use Rattle.refusal.specs.Numbers.{verdict_numbers};
ghost use Rattle.token.specs.Lists.{lent};
ghost use Rattle.lexer.specs.Answers.{token_verdict, one_token};
ghost use Rattle.lists_file.specs.Lines.{version};
ghost use Rattle.strings.specs.RawChecks.{raw_answer};
ghost use Rattle.strings.specs.Guards.{guarded_answer};
ghost use Rattle.exports.specs.Answers.{answer_of};
ghost use Rattle.exports.specs.Tokens.{no_token, given_out, token_out};
ghost use Rattle.exports.specs.RawStrs.{raw_of, no_end_of, error_of, check_of, raw_out};
ghost use Rattle.exports.specs.Guards.{no_string, found_of, guarded_out};
ghost use Rattle.exports.specs.Shebangs.{StrippedOut};
ghost use Rattle.exports.specs.Buffers.{TokensOut, KeyOut};
ghost use Rattle.exports.specs.Runs.{no_run, ran_out, RunOut};
ghost use Rattle.exports.specs.Going.{RunPut};
ghost use Rattle.exports.specs.Files.{no_lists, held_out, lists_out, ListsOut, is_version, FileOut};

use lexer::{Scan, Source};
use lists_file::Version;
use lists_in::{Held, ReadRefusal};
use ranges::MAX_PAIRS;
use refusal::{Numbers, PlaceRefusal};
use strings::{GuardedAt, RawRefusal};
use token::{GuardedStr, RawStrError};

// An answer by number.
#[repr(C)]
#[derive(Clone, Copy)]
pub struct Answer {
    pub number: u32,
    pub beside: usize,
    pub second: usize,
}

// The one-token call's answer. Done: the position past the token and 1 where frontmatter is on there are beside the 0, and stand in `next` and `on`
// too. Refused: every number past the third is 0.
#[repr(C)]
#[derive(Clone, Copy)]
pub struct TokenAnswer {
    pub number: u32,
    pub beside: usize,
    pub second: usize,
    pub kind: u32,
    pub suffix_start: u32,
    pub len: u32,
    pub start: usize,
    pub line: u32,
    pub next: usize,
    pub on: bool,
}

// The answer of the call that goes on from a position. Done: the number of tokens and the position past the last of them are beside the 0, and stand in
// `tokens` and `next` too; `on` says whether frontmatter is on there. Refused: every number past the third is 0.
#[repr(C)]
#[derive(Clone, Copy)]
pub struct RunAnswer {
    pub number: u32,
    pub beside: usize,
    pub second: usize,
    pub tokens: usize,
    pub next: usize,
    pub on: bool,
}

// The raw check's answer. Done: the case is beside the 0, and stands in `check` too: 0 good, 1 no quote, 2 no end, 3 too many hashes; `second` has the
// case's first number. A number that the case has not is 0, and so is every number past the third where the call is refused.
#[repr(C)]
#[derive(Clone, Copy)]
pub struct RawStrAnswer {
    pub number: u32,
    pub beside: usize,
    pub second: usize,
    pub check: u32,
    pub bad_char: u32,
    pub expected: u32,
    pub found: u32,
    pub has_offset: bool,
    pub offset: u32,
}

// The guarded string's answer. Done: the position where the cursor then stands and 1 where a string is found are beside the 0, and stand in `next` and
// `found` too. Where none is found its numbers are 0. Refused: every number past the third is 0.
#[repr(C)]
#[derive(Clone, Copy)]
pub struct GuardedStrAnswer {
    pub number: u32,
    pub beside: usize,
    pub second: usize,
    pub found: bool,
    pub n_hashes: u32,
    pub terminated: bool,
    pub token_len: u32,
    pub next: usize,
}

// The answer of the reader of a file of lists. Done: 0, 0, 0, the version, and how many numbers each run now holds. Refused: every number past the third is 0.
#[repr(C)]
#[derive(Clone, Copy)]
pub struct ListsAnswer {
    pub number: u32,
    pub beside: usize,
    pub second: usize,
    pub major: u32,
    pub minor: u32,
    pub update: u32,
    pub starts: usize,
    pub continues: usize,
    pub emoji: usize,
}

fn answer_of(n: Numbers) -> Answer
    ensures { result ≡ answer_of n }
{
    Answer {
        number: n.number,
        beside: n.beside,
        second: n.second,
    }
}

// A refused token call.
fn no_token(n: Numbers) -> TokenAnswer
    ensures { result ≡ no_token n }
{
    TokenAnswer {
        number: n.number,
        beside: n.beside,
        second: n.second,
        kind: 0,
        suffix_start: 0,
        len: 0,
        start: 0,
        line: 0,
        next: 0,
        on: false,
    }
}

// A token that is given, with its numbers.
fn given_out(n: Numbers, scan: Scan) -> TokenAnswer
    ensures { result ≡ given_out n scan }
{
    let token = scan.token;
    let kind = token.kind;
    TokenAnswer {
        number: n.number,
        beside: n.beside,
        second: n.second,
        kind: kinds::kind_code(kind),
        suffix_start: kinds::suffix_of(kind),
        len: token.len,
        start: token.start,
        line: token.line,
        next: scan.next,
        on: scan.on,
    }
}

fn token_out(answer: Result<Scan, PlaceRefusal>) -> TokenAnswer
    ensures { result ≡ token_out answer }
{
    let n = lexer::token_numbers(answer);
    match answer {
        Ok(scan) => given_out(n, scan),
        Err(_) => no_token(n),
    }
}

// A refused call that goes on.
fn no_run(n: Numbers) -> RunAnswer
    ensures { result ≡ no_run n }
{
    RunAnswer {
        number: n.number,
        beside: n.beside,
        second: n.second,
        tokens: 0,
        next: 0,
        on: false,
    }
}

// So many tokens, up to a scan.
fn ran_out(tokens: usize, scan: Scan) -> RunAnswer
    ensures { result ≡ ran_out tokens scan }
{
    let next = scan.next;
    let on = scan.on;
    RunAnswer {
        number: 0,
        beside: tokens,
        second: next,
        tokens,
        next,
        on,
    }
}

// Writes the numbers of the tokens from a position on, until the text or the slots end. Its loop ends at the slots, where that of `slots::fill` has room for all
// tokens: one function for both would count them first.
fn put_run(source: &Source, at: usize, on: bool, slots: &mut [u32]) -> RunAnswer
    requires { on_boundary source.now.text at ≡ true }
    ensures { RunPut source.now.lists source.now.text at on slots.old slots.new result }
{
    let text = source.text();
    let most = slots.len() / slots::WIDTH;
    let mut used: usize = 0;
    let mut scan = lexer::before(text, at, on);
    for done in 0..most {
        if text.len() <= scan.next {
            return ran_out(done, scan);
        }
        scan = lexer::step(source, scan);
        used = slots::put_token(slots, used, scan.token);
    }
    ran_out(most, scan)
}

// The three numbers, and those of a case of the raw check.
fn raw_of(
    n: Numbers,
    check: u32,
    bad_char: u32,
    expected: u32,
    found: u32,
    has_offset: bool,
    offset: u32,
) -> RawStrAnswer
    ensures { result ≡ raw_of n check bad_char expected found has_offset offset }
{
    RawStrAnswer {
        number: n.number,
        beside: n.beside,
        second: n.second,
        check,
        bad_char,
        expected,
        found,
        has_offset,
        offset,
    }
}

fn no_end_of(n: Numbers, expected: u32, found: u32, offset: Option<u32>) -> RawStrAnswer
    ensures { result ≡ no_end_of n expected found offset }
{
    match offset {
        Some(place) => raw_of(n, 2, 0, expected, found, true, place),
        None => raw_of(n, 2, 0, expected, found, false, 0),
    }
}

fn error_of(n: Numbers, error: RawStrError) -> RawStrAnswer
    ensures { result ≡ error_of n error }
{
    match error {
        RawStrError::InvalidStarter { bad_char } => raw_of(n, 1, bad_char, 0, 0, false, 0),
        RawStrError::NoTerminator {
            expected,
            found,
            possible_terminator_offset,
        } => no_end_of(n, expected, found, possible_terminator_offset),
        RawStrError::TooManyDelimiters { found } => raw_of(n, 3, 0, 0, found, false, 0),
    }
}

fn check_of(n: Numbers, check: Result<(), RawStrError>) -> RawStrAnswer
    ensures { result ≡ check_of n check }
{
    match check {
        Ok(()) => raw_of(n, 0, 0, 0, 0, false, 0),
        Err(error) => error_of(n, error),
    }
}

fn raw_out(answer: Result<Result<(), RawStrError>, RawRefusal>) -> RawStrAnswer
    ensures { result ≡ raw_out answer }
{
    let n = strings::raw_numbers(answer);
    match answer {
        Ok(check) => check_of(n, check),
        Err(_) => raw_of(n, 0, 0, 0, 0, false, 0),
    }
}

// The three numbers, and no string.
fn no_string(n: Numbers, next: usize) -> GuardedStrAnswer
    ensures { result ≡ no_string n next }
{
    GuardedStrAnswer {
        number: n.number,
        beside: n.beside,
        second: n.second,
        found: false,
        n_hashes: 0,
        terminated: false,
        token_len: 0,
        next,
    }
}

// What is found, and where the cursor then stands.
fn found_of(n: Numbers, found: Option<GuardedStr>, next: usize) -> GuardedStrAnswer
    ensures { result ≡ found_of n found next }
{
    match found {
        Some(string) => GuardedStrAnswer {
            number: n.number,
            beside: n.beside,
            second: n.second,
            found: true,
            n_hashes: string.n_hashes,
            terminated: string.terminated,
            token_len: string.token_len,
            next,
        },
        None => no_string(n, next),
    }
}

fn guarded_out(answer: Result<GuardedAt, PlaceRefusal>) -> GuardedStrAnswer
    ensures { result ≡ guarded_out answer }
{
    let n = strings::guarded_numbers(answer);
    match answer {
        Ok(given) => found_of(n, given.found, given.next),
        Err(_) => no_string(n, 0),
    }
}

// A refused reader.
fn no_lists(n: Numbers) -> ListsAnswer
    ensures { result ≡ no_lists n }
{
    ListsAnswer {
        number: n.number,
        beside: n.beside,
        second: n.second,
        major: 0,
        minor: 0,
        update: 0,
        starts: 0,
        continues: 0,
        emoji: 0,
    }
}

// What was loaded.
fn held_out(n: Numbers, held: Held) -> ListsAnswer
    ensures { result ≡ held_out n held }
{
    let version = held.version;
    ListsAnswer {
        number: n.number,
        beside: n.beside,
        second: n.second,
        major: u32::from(version.major),
        minor: u32::from(version.minor),
        update: u32::from(version.update),
        starts: held.starts,
        continues: held.continues,
        emoji: held.emoji,
    }
}

fn read_out(answer: Result<Held, ReadRefusal>) -> ListsAnswer
    ensures { result ≡ lists_out answer }
{
    let n = lists_in::read_numbers(answer);
    match answer {
        Ok(held) => held_out(n, held),
        Err(_) => no_lists(n),
    }
}

// The version of three numbers; None where one of them is such as no file can have.
fn version_of(major: u32, minor: u32, update: u32) -> Option<Version>
    ensures { result ≡ pick (is_version major minor update) (Some (version major minor update)) None }
{
    let major = u16::try_from(major).ok()?;
    let minor = u16::try_from(minor).ok()?;
    let update = u16::try_from(update).ok()?;
    Some(Version {
        major,
        minor,
        update,
    })
}

// What the token calls check of a text and three lists: 1, 3, 2, or 0.
#[unsafe(no_mangle)]
pub extern "C" fn lovemudarn_check(
    text: &[u8],
    starts: &[u32],
    continues: &[u32],
    emoji: &[u32],
) -> Answer
    ensures { result ≡ answer_of (verdict_numbers (token_verdict MAX_PAIRS text.now (lent starts.now continues.now emoji.now))) }
{
    answer_of(refusal::verdict_numbers(lexer::token_verdict(text, starts, continues, emoji)))
}

// The token at a position: 1, 3, 2, 4, or 0.
#[unsafe(no_mangle)]
pub extern "C" fn lovemudarn_token(
    text: &[u8],
    starts: &[u32],
    continues: &[u32],
    emoji: &[u32],
    at: usize,
    on: bool,
) -> TokenAnswer
    ensures { result ≡ token_out (one_token MAX_PAIRS text.now (lent starts.now continues.now emoji.now) at on) }
{
    token_out(lexer::advance_token(text, starts, continues, emoji, at, on))
}

// The tokens of a text, five numbers each: 1, 3, 2, 5 with the tokens needed, or 0 with the number of tokens. Only 0 writes.
#[unsafe(no_mangle)]
pub extern "C" fn lovemudarn_tokens(
    text: &[u8],
    starts: &[u32],
    continues: &[u32],
    emoji: &[u32],
    on: bool,
    slots: &mut [u32],
) -> Answer
    ensures { TokensOut MAX_PAIRS text.now (lent starts.now continues.now emoji.now) on slots.old slots.new result }
{
    let answer = slots::tokens(text, starts, continues, emoji, on, slots);
    answer_of(plan::list_numbers(answer))
}

// The tokens from a position on, five numbers each, as many as the run has slots for: 1, 3, 2, 4, or 0 with how many, the position past them and whether
// frontmatter is on there, from which the next call goes on. Only 0 writes.
#[unsafe(no_mangle)]
pub extern "C" fn lovemudarn_tokens_from(
    text: &[u8],
    starts: &[u32],
    continues: &[u32],
    emoji: &[u32],
    at: usize,
    on: bool,
    slots: &mut [u32],
) -> RunAnswer
    ensures { RunOut MAX_PAIRS text.now (lent starts.now continues.now emoji.now) at on slots.old slots.new result }
{
    let source = match Source::new(text, starts, continues, emoji) {
        Ok(source) => source,
        Err(bad) => return no_run(refusal::bad_numbers(bad)),
    };
    // calls share `starts_here`; with the refusal, which each gives after its own checks (document 01), it would be one more public function for these three lines
    if !text::starts_here(text, at) {
        return no_run(refusal::place_numbers(PlaceRefusal::Position(at)));
    }
    put_run(&source, at, on, slots)
}

// The key of a text: 1, 3, 2, 6 with the start of the first broken token, 7 with the bytes needed, or 0 with the key's bytes. Only 0 writes.
#[unsafe(no_mangle)]
pub extern "C" fn lovemudarn_key(
    text: &[u8],
    starts: &[u32],
    continues: &[u32],
    emoji: &[u32],
    out: &mut [u8],
) -> Answer
    ensures { KeyOut MAX_PAIRS text.now (lent starts.now continues.now emoji.now) out.old out.new result }
{
    let answer = key::key(text, starts, continues, emoji, out);
    answer_of(key::key_numbers(answer))
}

// The version and the lists of a file, the lists in three lent runs: 9 with the first bad line, 3, 7 with the first list for which there is too little room and
// the numbers it needs, or 0 with the version and how many numbers each run now holds. Only 0 writes.
#[unsafe(no_mangle)]
pub extern "C" fn lovemudarn_read_lists(
    file: &[u8],
    starts: &mut [u32],
    continues: &mut [u32],
    emoji: &mut [u32],
) -> ListsAnswer
    ensures { ListsOut MAX_PAIRS file.now starts.old continues.old emoji.old starts.new continues.new emoji.new result }
{
    let answer = lists_in::read_lists(file, starts, continues, emoji);
    read_out(answer)
}

// The file of a version and three lists: 9 with 0 where a number of the version is over 65,535, 3, 7 with the bytes needed, or 0 with the file's bytes. Only 0
// writes.
#[unsafe(no_mangle)]
pub extern "C" fn lovemudarn_write_lists(
    major: u32,
    minor: u32,
    update: u32,
    starts: &[u32],
    continues: &[u32],
    emoji: &[u32],
    out: &mut [u8],
) -> Answer
    ensures { FileOut MAX_PAIRS major minor update (lent starts.now continues.now emoji.now) out.old out.new result }
{
    let Some(version) = version_of(major, minor, update) else {
        return answer_of(refusal::refused(9, 0));
    };
    let answer = lists_out::write_lists(version, starts, continues, emoji, out);
    answer_of(lists_out::write_numbers(answer))
}

// Whether a text is an identifier: 1, 3, 2, or 0 with 1 for yes and 0 for no.
#[unsafe(no_mangle)]
pub extern "C" fn lovemudarn_is_ident(text: &[u8], starts: &[u32], continues: &[u32]) -> Answer
    ensures { result ≡ answer_of (answer_numbers (ident_answer MAX_PAIRS text.now starts.now continues.now)) }
{
    answer_of(classes::answer_numbers(classes::is_ident(text, starts, continues)))
}

// Where a shebang ends: 1, 2, or 0 with the place, which is at least 2, or with 0 where there is none.
#[unsafe(no_mangle)]
pub extern "C" fn lovemudarn_strip_shebang(text: &[u8]) -> Answer
    ensures { StrippedOut text.now result }
{
    let answer = shebang::strip_shebang(text);
    answer_of(shebang::shebang_numbers(answer))
}

// The raw check of a literal with a prefix of `prefix` bytes: 1, 2, 8, or 0 with what it says.
#[unsafe(no_mangle)]
pub extern "C" fn lovemudarn_validate_raw_str(text: &[u8], prefix: usize) -> RawStrAnswer
    ensures { result ≡ raw_out (raw_answer text.now prefix) }
{
    raw_out(strings::validate_raw_str(text, prefix))
}

// The guarded string at a position: 1, 3, 2, 4, or 0 with what is found.
#[unsafe(no_mangle)]
pub extern "C" fn lovemudarn_guarded(
    text: &[u8],
    starts: &[u32],
    continues: &[u32],
    at: usize,
) -> GuardedStrAnswer
    ensures { result ≡ guarded_out (guarded_answer MAX_PAIRS text.now starts.now continues.now at) }
{
    guarded_out(strings::guarded_double_quoted_string(text, starts, continues, at))
}

// The classes take any number; one that is not a Unicode scalar value is in no class.
#[unsafe(no_mangle)]
pub extern "C" fn lovemudarn_is_whitespace(c: u32) -> bool
    ensures { result ≡ is_whitespace c }
{
    classes::is_whitespace(c)
}

#[unsafe(no_mangle)]
pub extern "C" fn lovemudarn_is_horizontal_whitespace(c: u32) -> bool
    ensures { result ≡ is_horizontal_whitespace c }
{
    classes::is_horizontal_whitespace(c)
}

// The classes of a list: 3, or 0 with 1 for yes and 0 for no.
#[unsafe(no_mangle)]
pub extern "C" fn lovemudarn_is_id_start(c: u32, starts: &[u32]) -> Answer
    ensures { result ≡ answer_of (answer_numbers (id_start_answer MAX_PAIRS starts.now c)) }
{
    answer_of(classes::answer_numbers(classes::is_id_start(c, starts)))
}

#[unsafe(no_mangle)]
pub extern "C" fn lovemudarn_is_id_continue(c: u32, continues: &[u32]) -> Answer
    ensures { result ≡ answer_of (answer_numbers (id_continue_answer MAX_PAIRS continues.now c)) }
{
    answer_of(classes::answer_numbers(classes::is_id_continue(c, continues)))
}

#[unsafe(no_mangle)]
pub extern "C" fn lovemudarn_is_emoji_char(c: u32, emoji: &[u32]) -> Answer
    ensures { result ≡ answer_of (answer_numbers (emoji_answer MAX_PAIRS emoji.now c)) }
{
    answer_of(classes::answer_numbers(classes::is_emoji_char(c, emoji)))
}
