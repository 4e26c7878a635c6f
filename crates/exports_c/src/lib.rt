// What C and other languages link, under the names of bindings/c/lovemudarn.h: each function is that of `exports`, with the same clauses. A library that
// Rattle crates use is no archive that C links, so that these stand in a crate of their own. The parameters and the answers are those of the C interface.
#![tactic(auto)]

ghost use Rattle.std.specs.Prelude.{◌≡◌};
ghost use Rattle.classes.specs.Whitespace.{is_whitespace, is_horizontal_whitespace};
ghost use Rattle.classes.specs.Answers.{answer_numbers, id_start_answer, id_continue_answer, emoji_answer, ident_answer};
ghost use Rattle.refusal.specs.Numbers.{verdict_numbers};
ghost use Rattle.token.specs.Lists.{lent};
ghost use Rattle.lexer.specs.Answers.{token_verdict, one_token};
ghost use Rattle.strings.specs.RawChecks.{raw_answer};
ghost use Rattle.strings.specs.Guards.{guarded_answer};
ghost use Rattle.exports.specs.Answers.{answer_of};
ghost use Rattle.exports.specs.Tokens.{token_out};
ghost use Rattle.exports.specs.RawStrs.{raw_out};
ghost use Rattle.exports.specs.Guards.{guarded_out};
ghost use Rattle.exports.specs.Shebangs.{StrippedOut};
ghost use Rattle.exports.specs.Buffers.{TokensOut, KeyOut};
ghost use Rattle.exports.specs.Runs.{RunOut};
ghost use Rattle.exports.specs.Files.{ListsOut, FileOut};

use exports::{Answer, GuardedStrAnswer, ListsAnswer, RawStrAnswer, RunAnswer, TokenAnswer};
use ranges::MAX_PAIRS;

// What the token calls check of a text and three lists: 1, 3, 2, or 0.
#[unsafe(no_mangle)]
pub extern "C" fn lovemudarn_check(
    text: &[u8],
    starts: &[u32],
    continues: &[u32],
    emoji: &[u32],
) -> Answer
    ensures { result ≡ answer_of (verdict_numbers (token_verdict MAX_PAIRS text.now (lent starts.now continues.now emoji.now))) }
{
    exports::lovemudarn_check(text, starts, continues, emoji)
}

// The token at a position: 1, 3, 2, 4, or 0.
#[unsafe(no_mangle)]
pub extern "C" fn lovemudarn_token(
    text: &[u8],
    starts: &[u32],
    continues: &[u32],
    emoji: &[u32],
    at: usize,
    on: bool,
) -> TokenAnswer
    ensures { result ≡ token_out (one_token MAX_PAIRS text.now (lent starts.now continues.now emoji.now) at on) }
{
    exports::lovemudarn_token(text, starts, continues, emoji, at, on)
}

// The tokens of a text, five numbers each: 1, 3, 2, 5 with the tokens needed, or 0 with the number of tokens. Only 0 writes.
#[unsafe(no_mangle)]
pub extern "C" fn lovemudarn_tokens(
    text: &[u8],
    starts: &[u32],
    continues: &[u32],
    emoji: &[u32],
    on: bool,
    slots: &mut [u32],
) -> Answer
    ensures { TokensOut MAX_PAIRS text.now (lent starts.now continues.now emoji.now) on slots.old slots.new result }
{
    exports::lovemudarn_tokens(text, starts, continues, emoji, on, slots)
}

// The tokens from a position on, five numbers each, as many as the run has slots for: 1, 3, 2, 4, or 0 with how many, the position past them and whether
// frontmatter is on there, from which the next call goes on. Only 0 writes.
#[unsafe(no_mangle)]
pub extern "C" fn lovemudarn_tokens_from(
    text: &[u8],
    starts: &[u32],
    continues: &[u32],
    emoji: &[u32],
    at: usize,
    on: bool,
    slots: &mut [u32],
) -> RunAnswer
    ensures { RunOut MAX_PAIRS text.now (lent starts.now continues.now emoji.now) at on slots.old slots.new result }
{
    exports::lovemudarn_tokens_from(text, starts, continues, emoji, at, on, slots)
}

// The key of a text: 1, 3, 2, 6 with the start of the first broken token, 7 with the bytes needed, or 0 with the key's bytes. Only 0 writes.
#[unsafe(no_mangle)]
pub extern "C" fn lovemudarn_key(
    text: &[u8],
    starts: &[u32],
    continues: &[u32],
    emoji: &[u32],
    out: &mut [u8],
) -> Answer
    ensures { KeyOut MAX_PAIRS text.now (lent starts.now continues.now emoji.now) out.old out.new result }
{
    exports::lovemudarn_key(text, starts, continues, emoji, out)
}

// The version and the lists of a file, the lists in three lent runs: 9 with the first bad line, 3, 7 with the first list for which there is too little room and
// the numbers it needs, or 0 with the version and how many numbers each run now holds. Only 0 writes.
#[unsafe(no_mangle)]
pub extern "C" fn lovemudarn_read_lists(
    file: &[u8],
    starts: &mut [u32],
    continues: &mut [u32],
    emoji: &mut [u32],
) -> ListsAnswer
    ensures { ListsOut MAX_PAIRS file.now starts.old continues.old emoji.old starts.new continues.new emoji.new result }
{
    exports::lovemudarn_read_lists(file, starts, continues, emoji)
}

// The file of a version and three lists: 9 with 0 where a number of the version is over 65,535, 3, 7 with the bytes needed, or 0 with the file's bytes. Only 0
// writes.
#[unsafe(no_mangle)]
pub extern "C" fn lovemudarn_write_lists(
    major: u32,
    minor: u32,
    update: u32,
    starts: &[u32],
    continues: &[u32],
    emoji: &[u32],
    out: &mut [u8],
) -> Answer
    ensures { FileOut MAX_PAIRS major minor update (lent starts.now continues.now emoji.now) out.old out.new result }
{
    exports::lovemudarn_write_lists(major, minor, update, starts, continues, emoji, out)
}

// Whether a text is an identifier: 1, 3, 2, or 0 with 1 for yes and 0 for no.
#[unsafe(no_mangle)]
pub extern "C" fn lovemudarn_is_ident(text: &[u8], starts: &[u32], continues: &[u32]) -> Answer
    ensures { result ≡ answer_of (answer_numbers (ident_answer MAX_PAIRS text.now starts.now continues.now)) }
{
    exports::lovemudarn_is_ident(text, starts, continues)
}

// Where a shebang ends: 1, 2, or 0 with the place, which is at least 2, or with 0 where there is none.
#[unsafe(no_mangle)]
pub extern "C" fn lovemudarn_strip_shebang(text: &[u8]) -> Answer
    ensures { StrippedOut text.now result }
{
    exports::lovemudarn_strip_shebang(text)
}

// The raw check of a literal with a prefix of `prefix` bytes: 1, 2, 8, or 0 with what it says.
#[unsafe(no_mangle)]
pub extern "C" fn lovemudarn_validate_raw_str(text: &[u8], prefix: usize) -> RawStrAnswer
    ensures { result ≡ raw_out (raw_answer text.now prefix) }
{
    exports::lovemudarn_validate_raw_str(text, prefix)
}

// The guarded string at a position: 1, 3, 2, 4, or 0 with what is found.
#[unsafe(no_mangle)]
pub extern "C" fn lovemudarn_guarded(
    text: &[u8],
    starts: &[u32],
    continues: &[u32],
    at: usize,
) -> GuardedStrAnswer
    ensures { result ≡ guarded_out (guarded_answer MAX_PAIRS text.now starts.now continues.now at) }
{
    exports::lovemudarn_guarded(text, starts, continues, at)
}

// The classes take any number; one that is not a Unicode scalar value is in no class.
#[unsafe(no_mangle)]
pub extern "C" fn lovemudarn_is_whitespace(c: u32) -> bool
    ensures { result ≡ is_whitespace c }
{
    exports::lovemudarn_is_whitespace(c)
}

#[unsafe(no_mangle)]
pub extern "C" fn lovemudarn_is_horizontal_whitespace(c: u32) -> bool
    ensures { result ≡ is_horizontal_whitespace c }
{
    exports::lovemudarn_is_horizontal_whitespace(c)
}

// The classes of a list: 3, or 0 with 1 for yes and 0 for no.
#[unsafe(no_mangle)]
pub extern "C" fn lovemudarn_is_id_start(c: u32, starts: &[u32]) -> Answer
    ensures { result ≡ answer_of (answer_numbers (id_start_answer MAX_PAIRS starts.now c)) }
{
    exports::lovemudarn_is_id_start(c, starts)
}

#[unsafe(no_mangle)]
pub extern "C" fn lovemudarn_is_id_continue(c: u32, continues: &[u32]) -> Answer
    ensures { result ≡ answer_of (answer_numbers (id_continue_answer MAX_PAIRS continues.now c)) }
{
    exports::lovemudarn_is_id_continue(c, continues)
}

#[unsafe(no_mangle)]
pub extern "C" fn lovemudarn_is_emoji_char(c: u32, emoji: &[u32]) -> Answer
    ensures { result ≡ answer_of (answer_numbers (emoji_answer MAX_PAIRS emoji.now c)) }
{
    exports::lovemudarn_is_emoji_char(c, emoji)
}
