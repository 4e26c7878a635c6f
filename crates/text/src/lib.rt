// UTF-8 by RFC 3629: the character at a position of any bytes, and the verdict on a whole text.
// A place is `text` and `at`, two parameters, here and in the crates above: a rest of the text (`&text[at..]`) would say both in one, but a place that is handed back or
// reported counts from the start of the whole text, and every clause would have to tie the rest to it.
#![tactic(auto)]

ghost use Rattle.std.specs.Prelude.{◌≡◌, true, ◌+◌, ◌≤◌, ◌<◌, length, drop};
ghost use Rattle.text.specs.Ascii.{AsciiRun};
ghost use Rattle.text.specs.Utf8.{value2, value3, value4, two, three, four, lead, decoded, as_decoded};
ghost use Rattle.text.specs.Next.{next, Lead, Second, Tail};
ghost use Rattle.text.specs.Position.{starts_here};
ghost use Rattle.text.specs.Verdicts.{too_long, utf8_verdict, text_verdict};

use refusal::{Bad, Cause};

// A code point: the number type that stands for 000's `char`. Any number may be handed in where one is taken.
pub type CodePoint = u32;

// What stands at a position: a character and its bytes, the end of the text, or an ill-formed sequence and why it is one. Three cases, so that it is neither
// an `Option` nor a `Result`; one inside the other would be no plainer.
#[derive(Clone, Copy)]
pub enum Decoded {
    Char(CodePoint, usize),
    End,
    Ill(Cause),
}

// A byte as a number: `u32::from`, with the bound that its own promise does not say.
pub fn wide(x: u8) -> u32
    ensures { (result ≡ x) × (result < 256) }
{
    u32::from(x)
}

// The byte at a position, if it lies from low to high; else why not.
#[tactic(auto, using(crate::proofs::Bytes::next_past, crate::proofs::Bytes::next_under, crate::proofs::Bytes::next_over, crate::proofs::Bytes::next_is, std::proofs::lemmas::Option::slice_get_cases))]
fn next_byte(text: &[u8], at: usize, low: u32, high: u32) -> Result<u32, Cause>
    ensures { result ≡ next low high (drop at text.now) }
{
    let b = wide(*text.get(at).ok_or(Cause::Cut)?);
    if b < low || high < b {
        return Err(Cause::Follow);
    }
    Ok(b)
}

// The value of a sequence: the bits that its bytes carry. One function for each length, here and below, as RFC 3629 has one row for each: a loop over the tails
// would say in an invariant what each row says by itself.
fn join_two(a: u32, b: u32) -> CodePoint
    requires { (Lead 0xC0 a) × (Tail b) }
    ensures { result ≡ value2 a b }
{
    (a - 0xC0) * 0x40 + (b - 0x80)
}

fn join_three(a: u32, b: u32, c: u32) -> CodePoint
    requires { (Lead 0xE0 a) × (Tail b) × (Tail c) }
    ensures { result ≡ value3 a b c }
{
    (a - 0xE0) * 0x1000 + (b - 0x80) * 0x40 + (c - 0x80)
}

fn join_four(a: u32, b: u32, c: u32, d: u32) -> CodePoint
    requires { (Lead 0xF0 a) × (Tail b) × (Tail c) × (Tail d) }
    ensures { result ≡ value4 a b c d }
{
    (a - 0xF0) * 0x40000 + (b - 0x80) * 0x1000 + (c - 0x80) * 0x40 + (d - 0x80)
}

// The rest of a sequence of two bytes, at `at`, after its first byte a. The second byte lies from low to high.
#[tactic(auto, using(crate::proofs::Bytes::two_ill, crate::proofs::Bytes::two_is, crate::proofs::Bytes::second_tail))]
fn decode_two(
    text: &[u8],
    at: usize,
    a: u32,
    low: u32,
    high: u32,
) -> Result<(CodePoint, usize), Cause>
    requires { (Lead 0xC0 a) × (Second low high) }
    ensures { as_decoded result ≡ two a low high (drop at text.now) }
{
    let b = next_byte(text, at, low, high)?;
    Ok((join_two(a, b), 2))
}

// The same of three bytes.
#[tactic(auto, using(crate::proofs::Bytes::three_ill_2, crate::proofs::Bytes::three_ill_3, crate::proofs::Bytes::three_is, crate::proofs::Bytes::second_tail, crate::proofs::Bytes::next_tail))]
fn decode_three(
    text: &[u8],
    at: usize,
    a: u32,
    low: u32,
    high: u32,
) -> Result<(CodePoint, usize), Cause>
    requires { (Lead 0xE0 a) × (Second low high) × (at ≤ length text.now) }
    ensures { as_decoded result ≡ three a low high (drop at text.now) }
{
    let b = next_byte(text, at, low, high)?;
    let c = next_byte(text, at + 1, 0x80, 0xBF)?;
    Ok((join_three(a, b, c), 3))
}

// The same of four bytes.
#[tactic(auto, using(crate::proofs::Bytes::four_ill_2, crate::proofs::Bytes::four_ill_3, crate::proofs::Bytes::four_ill_4, crate::proofs::Bytes::four_is, crate::proofs::Bytes::second_tail, crate::proofs::Bytes::next_tail))]
fn decode_four(
    text: &[u8],
    at: usize,
    a: u32,
    low: u32,
    high: u32,
) -> Result<(CodePoint, usize), Cause>
    requires { (Lead 0xF0 a) × (Second low high) × (at ≤ length text.now) }
    ensures { as_decoded result ≡ four a low high (drop at text.now) }
{
    let b = next_byte(text, at, low, high)?;
    let c = next_byte(text, at + 1, 0x80, 0xBF)?;
    let d = next_byte(text, at + 2, 0x80, 0xBF)?;
    Ok((join_four(a, b, c, d), 4))
}

// The sequence whose first byte is a and whose rest is at `at`: the rows of RFC 3629 section 4.
#[tactic(auto, using(crate::proofs::Rows::row_00, crate::proofs::Rows::row_C2, crate::proofs::Rows::row_E0, crate::proofs::Rows::row_E1, crate::proofs::Rows::row_ED, crate::proofs::Rows::row_EE, crate::proofs::Rows::row_F0, crate::proofs::Rows::row_F1, crate::proofs::Rows::row_F4, crate::proofs::Rows::row_none_80, crate::proofs::Rows::row_none_F5))]
fn decode_lead(text: &[u8], at: usize, a: u32) -> Result<(CodePoint, usize), Cause>
    requires { (a < 256) × (at ≤ length text.now) }
    ensures { as_decoded result ≡ lead a (drop at text.now) }
{
    match a {
        0x00..=0x7F => Ok((a, 1)),
        0xC2..=0xDF => decode_two(text, at, a, 0x80, 0xBF),
        0xE0 => decode_three(text, at, a, 0xA0, 0xBF),
        0xE1..=0xEC => decode_three(text, at, a, 0x80, 0xBF),
        0xED => decode_three(text, at, a, 0x80, 0x9F),
        0xEE..=0xEF => decode_three(text, at, a, 0x80, 0xBF),
        0xF0 => decode_four(text, at, a, 0x90, 0xBF),
        0xF1..=0xF3 => decode_four(text, at, a, 0x80, 0xBF),
        0xF4 => decode_four(text, at, a, 0x80, 0x8F),
        _ => Err(Cause::Start),
    }
}

// The character at a position of any bytes. Past the end there is the end. The row of ASCII is answered here: most bytes are in it.
#[tactic(auto, using(crate::proofs::Places::at_end, crate::proofs::Places::at_ascii, crate::proofs::Places::at_byte, std::proofs::lemmas::Option::slice_get_cases))]
pub fn decode(text: &[u8], at: usize) -> Decoded
    ensures { result ≡ decoded (drop at text.now) }
{
    let Some(&first) = text.get(at) else {
        return Decoded::End;
    };
    let a = wide(first);
    if a < 0x80 {
        return Decoded::Char(a, 1);
    }
    match decode_lead(text, at + 1, a) {
        Ok((c, w)) => Decoded::Char(c, w),
        Err(cause) => Decoded::Ill(cause),
    }
}

// Whether a position of a well-formed text is the end, or the first byte of a character.
#[tactic(auto, unfolding(crate::specs::Position::starts_here))]
pub fn starts_here(text: &[u8], at: usize) -> bool
    ensures { result ≡ starts_here text.now at }
{
    at == text.len() || at < text.len() && !matches!(text[at], 0x80..=0xBF)
}

// The check of a text's length: refusal 1.
#[tactic(auto, unfolding(crate::specs::Verdicts::too_long))]
pub fn check_length(text: &[u8]) -> Result<(), Bad>
    ensures { result ≡ too_long text.now }
{
    if 4294967295 < text.len() {
        Err(Bad::TooLong)
    } else {
        Ok(())
    }
}

// Whether the next eight bytes are there and all of them are ASCII: joined, they are asked at once. It looks at every eighth position alone,
// so that a text of other letters pays little; where it says no, nothing is promised. By their places: `all` would ask of each byte by itself.
#[tactic(auto, using(crate::proofs::Runs::joined_more))]
pub fn eight_ascii(text: &[u8], at: usize) -> bool
    requires { at ≤ length text.now }
    ensures { result ≡ true → AsciiRun text.now at 8 }
{
    if at % 8 != 0 || text.len() - at < 8 {
        return false;
    }
    let mut bits: u8 = 0;
    for i in 0..8 {
        bits |= text[at + i];
    }
    bits < 0x80
}

// The check of a text's bytes: refusal 2. Eight bytes of ASCII are taken in one turn, and else one character: no iterator of std goes on by both.
#[tactic(auto, using(crate::proofs::Places::reached_none, crate::proofs::Places::char_room, crate::proofs::Places::char_less, crate::proofs::Places::reached_more, crate::proofs::Places::reached_end, crate::proofs::Places::reached_ill, crate::proofs::Runs::reached_run))]
pub fn check_utf8(text: &[u8]) -> Result<(), Bad>
    ensures { result ≡ utf8_verdict text.now }
{
    let mut at = 0;
    loop {
        if eight_ascii(text, at) {
            at += 8;
            continue;
        }
        match decode(text, at) {
            Decoded::Char(_, w) => at += w,
            Decoded::End => return Ok(()),
            Decoded::Ill(cause) => return Err(Bad::NotUtf8(at, cause)),
        }
    }
}

// PUBLIC: whether a text is UTF-8 within the limit; if not, refusal 1, or 2 with the start of the first ill-formed sequence and its cause.
pub fn check_text(text: &[u8]) -> Result<(), Bad>
    ensures { result ≡ text_verdict text.now }
{
    check_length(text)?;
    check_utf8(text)
}
