// What a quote and the letters r, k, b and c begin, after them, each proved equal to its rule in the book.
// The text and a cursor into it stay two parameters: a cursor that held its text would be three words in every answer, and each promise would have to say besides that
// the text is the same.
// Functions that take a form hand it on: it chooses the kind alone (crate `literals`).
#![tactic(auto)]

ghost use Rattle.std.specs.Prelude.{◌≡◌};
ghost use Rattle.basics.specs.Choice.{and};
ghost use Rattle.token.specs.Lists.{starting};
ghost use Rattle.token.specs.Names.{is, '#', 'r'};
ghost use Rattle.token.specs.Words.{ident_or_unknown_prefix};
ghost use Rattle.token.specs.Lifetimes.{lifetime_or_char};
ghost use Rattle.token.specs.Punctuation.{hash_or_quote};
ghost use Rattle.token.specs.Prefixed.{after_r, after_k, after_c, after_b};
ghost use Rattle.cursor.specs.Ran.{Begun};
ghost use Rattle.literals.specs.Forms.{double_kind, raw_kind};

use cursor::{Cursor, Scanned};
use lists::Lists;
use literals::Form;
use text::CodePoint;
use token::TokenKind;

// What a quote begins: a lifetime or a character literal.
pub fn lifetime_or_char(text: &[u8], from: Cursor, lists: &Lists) -> Scanned
    ensures { Begun (lifetime_or_char lists.now) text.now from result }
{
    // A match: of a closure for `unwrap_or_else` too little is known here.
    match words::lifetime(text, from, lists) {
        Some(scanned) => scanned,
        None => literals::single_literal(text, from, false, lists),
    }
}

// Whether c and d, after an r or a k, are a hash and the start of an identifier.
fn is_raw_name(c: CodePoint, d: CodePoint, lists: &Lists) -> bool
    ensures { result ≡ and (is '#' c) (starting lists.now d) }
{
    c == 0x23 && lists.is_start(d)
}

// Whether c and d, after a b or a c, begin a raw string.
fn is_raw(c: CodePoint, d: CodePoint) -> bool
    ensures { result ≡ and (is 'r' c) (hash_or_quote d) }
{
    c == 0x72 && token::is_hash_or_quote(d)
}

// An identifier or an unknown prefix.
fn word(text: &[u8], from: Cursor, lists: &Lists) -> Scanned
    ensures { Begun (ident_or_unknown_prefix lists.now) text.now from result }
{
    words::ident_or_unknown_prefix(text, from, lists).into()
}

// What the letter r begins: a raw identifier, a raw string or a word.
pub fn after_r(text: &[u8], from: Cursor, lists: &Lists) -> Scanned
    ensures { Begun (after_r lists.now) text.now from result }
{
    let c = from.first(text);
    let d = from.second(text);
    if is_raw_name(c, d, lists) {
        let next = words::eat_identifier(text, from.bump(text), lists);
        return Scanned::plain(TokenKind::RawIdent, next);
    }
    if token::is_hash_or_quote(c) {
        return literals::raw_literal(text, from, Form::Plain, lists);
    }
    word(text, from, lists)
}

// What the letter k begins: a forced keyword or a word. Its first half reads as that of `after_r` but for the kind: each is a rule of the book by itself.
pub fn after_k(text: &[u8], from: Cursor, lists: &Lists) -> Scanned
    ensures { Begun (after_k lists.now) text.now from result }
{
    let c = from.first(text);
    let d = from.second(text);
    if is_raw_name(c, d, lists) {
        let next = words::eat_identifier(text, from.bump(text), lists);
        return Scanned::plain(TokenKind::ForcedKeywordIdent, next);
    }
    word(text, from, lists)
}

// What the letter c begins, and b but for a byte: a string, a raw string or a word. 000 has c_or_byte_string.
pub fn after_c(text: &[u8], from: Cursor, form: Form, lists: &Lists) -> Scanned
    ensures { Begun (after_c lists.now (double_kind form) (raw_kind form)) text.now from result }
{
    let c = from.first(text);
    if c == 0x22 {
        return literals::double_literal(text, from.bump(text), form, lists);
    }
    let d = from.second(text);
    if is_raw(c, d) {
        return literals::raw_literal(text, from.bump(text), form, lists);
    }
    word(text, from, lists)
}

// What the letter b begins: a byte, or what c begins, of bytes.
pub fn after_b(text: &[u8], from: Cursor, lists: &Lists) -> Scanned
    ensures { Begun (after_b lists.now) text.now from result }
{
    let c = from.first(text);
    if c == 0x27 {
        return literals::single_literal(text, from.bump(text), true, lists);
    }
    after_c(text, from, Form::Byte, lists)
}
