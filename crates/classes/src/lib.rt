// The character classes of 000 and `is_ident`.
//
// A class that needs a lent list comes twice: the call of the public (`is_id_start`), which takes any list and checks it, and the
// test that scans use (`id_start`), which asks for a list that was checked. Any number may be handed in as a code point.
#![tactic(auto)]

ghost use Rattle.std.specs.Prelude.{◌≡◌, drop};
ghost use Rattle.basics.specs.Tests.{all};
ghost use Rattle.text.specs.Chars.{chars};
ghost use Rattle.ranges.specs.Rules.{Good};
ghost use Rattle.classes.specs.Whitespace.{is_whitespace, is_horizontal_whitespace};
ghost use Rattle.classes.specs.Identifiers.{digit, id_start, id_continue, is_ident};
ghost use Rattle.classes.specs.Emoji.{emoji_char};
ghost use Rattle.classes.specs.Answers.{answer_numbers, id_start_answer, id_continue_answer, emoji_answer, ident_verdict, ident_answer};

use ranges::MAX_PAIRS;
use refusal::{Bad, Numbers};
use text::{CodePoint, Decoded};

// The answer of a class call by number: 1 for yes, 0 for no, or the refusal.
// Named as its rule, as the guide has it, and no `From`: neither type is this crate's.
pub fn answer_numbers(answer: Result<bool, Bad>) -> Numbers
    ensures { result ≡ answer_numbers answer }
{
    match answer {
        Ok(true) => refusal::done(1, 0),
        Ok(false) => refusal::done(0, 0),
        Err(bad) => refusal::bad_numbers(bad),
    }
}

// PUBLIC. Whether c is one of the 11 points of whitespace.
#[tactic(auto, unfolding(crate::specs::Whitespace::is_whitespace))]
pub fn is_whitespace(c: CodePoint) -> bool
    ensures { result ≡ is_whitespace c }
{
    matches!(
        c,
        0x0A | 0x0B | 0x0C | 0x0D | 0x85 | 0x2028 | 0x2029 | 0x200E | 0x200F | 0x09 | 0x20
    )
}

// PUBLIC. Whether c is a tab or a space.
#[tactic(auto, unfolding(crate::specs::Whitespace::is_horizontal_whitespace))]
pub fn is_horizontal_whitespace(c: CodePoint) -> bool
    ensures { result ≡ is_horizontal_whitespace c }
{
    matches!(c, 0x09 | 0x20)
}

// Whether c is a letter of ASCII.
#[tactic(auto, unfolding(crate::specs::Identifiers::letter))]
fn letter(c: CodePoint) -> bool
    ensures { result ≡ Rattle.classes.specs.Identifiers.letter c }
{
    matches!(c, 0x41..=0x5A | 0x61..=0x7A)
}

// Whether c is a decimal digit.
pub fn is_digit(c: CodePoint) -> bool
    ensures { result ≡ digit c }
{
    matches!(c, 0x30..=0x39)
}

// Whether c starts an identifier. This and the next two have a rule of the Rust Reference or of 000 each, which differ in ASCII.
#[tactic(auto, unfolding(crate::specs::Identifiers::id_start))]
pub fn id_start(c: CodePoint, starts: &[u32]) -> bool
    requires { Good starts.now }
    ensures { result ≡ id_start starts.now c }
{
    if 0x80 <= c {
        ranges::in_pairs(c, starts)
    } else {
        letter(c) || c == 0x5F
    }
}

// Whether c goes on in an identifier.
#[tactic(auto, unfolding(crate::specs::Identifiers::id_continue))]
pub fn id_continue(c: CodePoint, continues: &[u32]) -> bool
    requires { Good continues.now }
    ensures { result ≡ id_continue continues.now c }
{
    if 0x80 <= c {
        ranges::in_pairs(c, continues)
    } else {
        letter(c) || c == 0x5F || is_digit(c)
    }
}

// Whether c is an emoji character, as 000 asks it: of characters past ASCII alone.
#[tactic(auto, unfolding(crate::specs::Emoji::emoji_char))]
pub fn emoji_char(c: CodePoint, emoji: &[u32]) -> bool
    requires { Good emoji.now }
    ensures { result ≡ emoji_char emoji.now c }
{
    0x80 <= c && ranges::in_pairs(c, emoji)
}

// PUBLIC. Whether c starts an identifier; refusal 3 where the list breaks a rule. Three calls, as 000 has them: only the list and its test differ, and a call that
// took both would be longer than each.
pub fn is_id_start(c: CodePoint, starts: &[u32]) -> Result<bool, Bad>
    ensures { result ≡ id_start_answer MAX_PAIRS starts.now c }
{
    ranges::check_list(0, starts)?;
    Ok(id_start(c, starts))
}

// PUBLIC. Whether c goes on in an identifier; refusal 3 where the list breaks a rule.
pub fn is_id_continue(c: CodePoint, continues: &[u32]) -> Result<bool, Bad>
    ensures { result ≡ id_continue_answer MAX_PAIRS continues.now c }
{
    ranges::check_list(1, continues)?;
    Ok(id_continue(c, continues))
}

// PUBLIC. Whether c is an emoji character; refusal 3 where the list breaks a rule.
pub fn is_emoji_char(c: CodePoint, emoji: &[u32]) -> Result<bool, Bad>
    ensures { result ≡ emoji_answer MAX_PAIRS emoji.now c }
{
    ranges::check_list(2, emoji)?;
    Ok(emoji_char(c, emoji))
}

// Whether every character from `from` on goes on in an identifier. By position: `chars` of std is of a `str`, and any bytes come in here.
#[tactic(auto, using(crate::proofs::Idents::onward_none, crate::proofs::Idents::onward_more, crate::proofs::Idents::onward_not, crate::proofs::Idents::onward_end, crate::proofs::Idents::onward_ill, text::proofs::Places::char_room, text::proofs::Places::char_less))]
fn all_continue(text: &[u8], from: usize, continues: &[u32]) -> bool
    requires { Good continues.now }
    ensures { result ≡ all (id_continue continues.now) (chars (drop from text.now)) }
{
    let mut at = from;
    loop {
        match text::decode(text, at) {
            Decoded::Char(c, w) if id_continue(c, continues) => at += w,
            Decoded::Char(..) => return false,
            Decoded::End | Decoded::Ill(_) => return true,
        }
    }
}

// Whether the characters of a text are an identifier.
#[tactic(auto, using(crate::proofs::Idents::ident_more, crate::proofs::Idents::ident_not, crate::proofs::Idents::ident_end, crate::proofs::Idents::ident_ill))]
fn ident(text: &[u8], starts: &[u32], continues: &[u32]) -> bool
    requires { Good starts.now × Good continues.now }
    ensures { result ≡ is_ident starts.now continues.now (chars text.now) }
{
    match text::decode(text, 0) {
        Decoded::Char(c, w) => id_start(c, starts) && all_continue(text, w, continues),
        Decoded::End | Decoded::Ill(_) => false,
    }
}

// What `is_ident` checks: 1, 3 for its two lists, 2.
#[tactic(auto, unfolding(crate::specs::Answers::ident_verdict))]
pub fn ident_verdict(text: &[u8], starts: &[u32], continues: &[u32]) -> Result<(), Bad>
    ensures { result ≡ ident_verdict MAX_PAIRS text.now starts.now continues.now }
{
    let long = text::check_length(text);
    // list by list, each with its number: calls share `check_list` and `lists_in_order`, and the place among the other checks is each call's own (document 01)
    let first = ranges::check_list(0, starts);
    let second = ranges::check_list(1, continues);
    let both = refusal::lists_in_order(first, second, Ok(()));
    let utf8 = text::check_utf8(text);
    refusal::in_order(long, both, utf8)
}

// PUBLIC. Whether a text is an identifier, as 000's `is_ident` says; refusals 1, 3 and 2 in this order.
pub fn is_ident(text: &[u8], starts: &[u32], continues: &[u32]) -> Result<bool, Bad>
    ensures { result ≡ ident_answer MAX_PAIRS text.now starts.now continues.now }
{
    ident_verdict(text, starts, continues)?;
    Ok(ident(text, starts, continues))
}
