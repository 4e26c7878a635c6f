// One decision over the first character of a token (000's `advance_token`), proved equal to the rule in the book.
// The end of the text is answered before, where tokens are made: here a first character c was read, and `from` is past it.
// The text and a cursor into it stay two parameters: a cursor that held its text would be three words in every answer, and each promise would have to say besides that
// the text is the same.
#![tactic(auto)]

ghost use Rattle.std.specs.Prelude.{◌≡◌};
ghost use Rattle.basics.specs.Choice.{and};
ghost use Rattle.token.specs.Punctuation.{pound};
ghost use Rattle.token.specs.Advance;
ghost use Rattle.token.specs.Advance.{decided, stays};
ghost use Rattle.cursor.specs.Cursors.{rest};
ghost use Rattle.cursor.specs.Ran.{Ran, Begun};
ghost use Rattle.advance.specs.Arms.{guards, Led, fence};

use cursor::{Cursor, Lexed, Scanned};
use lists::Lists;
use literals::Form;
use text::CodePoint;
use token::TokenKind;

// What a hash begins, after it: a hash or a quote makes it the prefix of a guarded string.
fn after_hash(text: &[u8], from: Cursor) -> Scanned
    ensures { Begun pound text.now from result }
{
    if token::is_hash_or_quote(from.first(text)) {
        return Scanned::plain(TokenKind::GuardedStrPrefix, from.bump(text));
    }
    Scanned::plain(TokenKind::Pound, from)
}

// What any other character begins: whitespace, an identifier, an invalid one, or an unknown token.
fn other(text: &[u8], c: CodePoint, from: Cursor, lists: &Lists) -> Scanned
    ensures { Begun (guards lists.now c) text.now from result }
{
    if classes::is_whitespace(c) {
        return comment::whitespace(text, from).into();
    }
    if lists.is_start(c) {
        return words::ident_or_unknown_prefix(text, from, lists).into();
    }
    if lists.is_emoji(c) {
        return words::invalid_ident(text, from, lists).into();
    }
    Scanned::plain(TokenKind::Unknown, from)
}

// The decision over the first character c of a token, frontmatter off, in 000's order of arms; its guards come last.
fn plain(text: &[u8], c: CodePoint, from: Cursor, lists: &Lists) -> Scanned
    ensures { Begun (Advance.plain lists.now c) text.now from result }
{
    match c {
        0x2F => comment::slash(text, from).into(),
        0x72 => prefixed::after_r(text, from, lists),
        0x6B => prefixed::after_k(text, from, lists),
        0x62 => prefixed::after_b(text, from, lists),
        0x63 => prefixed::after_c(text, from, Form::C, lists),
        0x30..=0x39 => literals::number_literal(text, from, c, lists),
        0x23 => after_hash(text, from),
        0x3B => Scanned::plain(TokenKind::Semi, from),
        0x2C => Scanned::plain(TokenKind::Comma, from),
        0x2E => Scanned::plain(TokenKind::Dot, from),
        0x28 => Scanned::plain(TokenKind::OpenParen, from),
        0x29 => Scanned::plain(TokenKind::CloseParen, from),
        0x7B => Scanned::plain(TokenKind::OpenBrace, from),
        0x7D => Scanned::plain(TokenKind::CloseBrace, from),
        0x5B => Scanned::plain(TokenKind::OpenBracket, from),
        0x5D => Scanned::plain(TokenKind::CloseBracket, from),
        0x40 => Scanned::plain(TokenKind::At, from),
        0x7E => Scanned::plain(TokenKind::Tilde, from),
        0x3F => Scanned::plain(TokenKind::Question, from),
        0x3A => Scanned::plain(TokenKind::Colon, from),
        0x24 => Scanned::plain(TokenKind::Dollar, from),
        0x3D => Scanned::plain(TokenKind::Eq, from),
        0x21 => Scanned::plain(TokenKind::Bang, from),
        0x3C => Scanned::plain(TokenKind::Lt, from),
        0x3E => Scanned::plain(TokenKind::Gt, from),
        0x2D => Scanned::plain(TokenKind::Minus, from),
        0x26 => Scanned::plain(TokenKind::And, from),
        0x7C => Scanned::plain(TokenKind::Or, from),
        0x2B => Scanned::plain(TokenKind::Plus, from),
        0x2A => Scanned::plain(TokenKind::Star, from),
        0x5E => Scanned::plain(TokenKind::Caret, from),
        0x25 => Scanned::plain(TokenKind::Percent, from),
        0x27 => prefixed::lifetime_or_char(text, from, lists),
        0x22 => literals::double_literal(text, from, Form::Plain, lists),
        _ => other(text, c, from, lists),
    }
}

// Past the whitespace after a first character, and the last character of it: the first one, if there is no more.
// A struct of its own, as those of crate `cursor`: the second field says by its name what was found.
#[derive(Clone, Copy)]
struct Blanks {
    next: Cursor,
    last: CodePoint,
}

// The run is no `eat_while`: that says nothing of the characters that it took.
fn eat_leading(text: &[u8], c: CodePoint, from: Cursor) -> Blanks
    ensures { Led c text.now from result }
{
    let mut cur = from;
    let mut last = c;
    while let Some((d, next)) = cur.peek(text) {
        if !classes::is_whitespace(d) {
            break;
        }
        cur = next;
        last = d;
    }
    Blanks { next: cur, last }
}

// Whitespace that may stand before a frontmatter: a fence right after it belongs to it, unless a newline ends it.
fn leading(text: &[u8], c: CodePoint, from: Cursor, lists: &Lists) -> Lexed
    ensures { Ran (Advance.leading lists.now c) text.now from result.next result.kind }
{
    let blanks = eat_leading(text, c, from);
    let next = blanks.next;
    if blanks.last != 0x0A && frontmatter::at_dashes(text, next) {
        return frontmatter::frontmatter(text, next.bump(text), true, lists);
    }
    Lexed {
        kind: TokenKind::Whitespace,
        next,
    }
}

// Whether c is the first of three dashes.
fn opens(text: &[u8], c: CodePoint, from: Cursor) -> bool
    ensures { result ≡ fence c (rest text.now from) }
{
    c == 0x2D && from.first(text) == 0x2D && from.second(text) == 0x2D
}

// The decision over the first character c of a token, frontmatter on.
fn fronted(text: &[u8], c: CodePoint, from: Cursor, lists: &Lists) -> Scanned
    ensures { Begun (Advance.fronted lists.now c) text.now from result }
{
    if classes::is_whitespace(c) {
        return leading(text, c, from, lists).into();
    }
    if opens(text, c, from) {
        return frontmatter::frontmatter(text, from, false, lists).into();
    }
    plain(text, c, from, lists)
}

// The decision over the first character c of a token, frontmatter on or off: the flag is what 000 holds between two tokens, and has two rules.
pub fn advance_token(text: &[u8], c: CodePoint, from: Cursor, on: bool, lists: &Lists) -> Scanned
    ensures { Begun (decided lists.now on c) text.now from result }
{
    if on {
        return fronted(text, c, from, lists);
    }
    plain(text, c, from, lists)
}

// Whether frontmatter is on after a token: on stays on through whitespace only.
pub fn stays_on(on: bool, kind: TokenKind) -> bool
    ensures { result ≡ and on (stays kind) }
{
    on && matches!(kind, TokenKind::Whitespace)
}
