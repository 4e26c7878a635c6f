// Identifiers, prefixes, invalid identifiers and lifetimes, each proved equal to its rule in the book. Names are 000's.
// The text and a cursor into it stay two parameters: a cursor that held its text would be three words in every answer, and each promise would have to say besides that
// the text is the same.
#![tactic(auto)]

ghost use Rattle.std.specs.Prelude.{◌≡◌};
ghost use Rattle.eaters.specs.Eat.{while};
ghost use Rattle.token.specs.Lists.{going};
ghost use Rattle.token.specs.Literals.{identifier};
ghost use Rattle.token.specs.Words.{in_invalid, invalid_ident, prefix_mark, ident_or_unknown_prefix};
ghost use Rattle.token.specs.Lifetimes.{raw_name};
ghost use Rattle.words.specs.Lives.{RestRan, RawNameRan, LifeRan};
ghost use Rattle.token.specs.declared.TokenKind.TheVariants.{RawLifetime};
ghost use Rattle.cursor.specs.Cursors.{rest};
ghost use Rattle.cursor.specs.Moved.{Moved};
ghost use Rattle.cursor.specs.Ran.{left, Ran};

use cursor::{Cursor, Kinded, Lexed, Scanned};
use lists::Lists;
use text::CodePoint;
use token::{LiteralKind, TokenKind};

// Past what goes on in an identifier.
fn eat_continue(text: &[u8], from: Cursor, lists: &Lists) -> Cursor
    ensures { Moved text.now from result (left (while (going lists.now)) (rest text.now from)) }
{
    from.eat_while(text, |c| lists.is_continue(c))
}

// An identifier, if there is one. The infostring of crate `frontmatter` is read alike, but goes on by another class, and its rule in the book is another one.
pub fn eat_identifier(text: &[u8], from: Cursor, lists: &Lists) -> Cursor
    ensures { Ran (identifier lists.now) text.now from result tt }
{
    if lists.is_start(from.first(text)) {
        return eat_continue(text, from.bump(text), lists);
    }
    from
}

// Past what goes on in an invalid identifier.
fn eat_invalid(text: &[u8], from: Cursor, lists: &Lists) -> Cursor
    ensures { Moved text.now from result (left (while (in_invalid lists.now)) (rest text.now from)) }
{
    from.eat_while(text, |c| lists.is_invalid_part(c))
}

// An invalid identifier, after its first character.
pub fn invalid_ident(text: &[u8], from: Cursor, lists: &Lists) -> Lexed
    ensures { Ran (invalid_ident lists.now) text.now from result.next result.kind }
{
    Lexed {
        kind: TokenKind::InvalidIdent,
        next: eat_invalid(text, from, lists),
    }
}

// Whether c makes an unknown prefix of the identifier before it.
fn is_prefix_mark(c: CodePoint) -> bool
    ensures { result ≡ prefix_mark c }
{
    matches!(c, 0x23 | 0x22 | 0x27)
}

// An identifier or an unknown prefix, after its first character.
pub fn ident_or_unknown_prefix(text: &[u8], from: Cursor, lists: &Lists) -> Lexed
    ensures { Ran (ident_or_unknown_prefix lists.now) text.now from result.next result.kind }
{
    let next = eat_continue(text, from, lists);
    let c = next.first(text);
    if is_prefix_mark(c) {
        return Lexed {
            kind: TokenKind::UnknownPrefix,
            next,
        };
    }
    if lists.is_emoji(c) {
        return invalid_ident(text, next, lists);
    }
    Lexed {
        kind: TokenKind::Ident,
        next,
    }
}

// The rest of a name after a quote. A quote after it makes it a character literal, without a suffix.
fn lifetime_rest(text: &[u8], from: Cursor, numbered: bool, lists: &Lists) -> Scanned
    ensures { RestRan lists.now numbered text.now from result }
{
    let next = eat_continue(text, from, lists);
    match next.first(text) {
        0x27 => {
            let past = next.bump(text);
            let kind = LiteralKind::Char { terminated: true };
            Scanned {
                kind: Kinded::Literal(kind, past),
                next: past,
            }
        }
        0x23 if !numbered => Scanned::plain(TokenKind::UnknownPrefixLifetime, next),
        _ => {
            let kind = TokenKind::Lifetime {
                starts_with_number: numbered,
            };
            Scanned::plain(kind, next)
        }
    }
}

// A raw lifetime, from its hash on: the hash, the start of an identifier and what goes on in it.
fn raw_lifetime(text: &[u8], from: Cursor, lists: &Lists) -> Cursor
    ensures { Ran (raw_name lists.now) text.now from result RawLifetime }
{
    eat_continue(text, from.eat(text, 2), lists)
}

// What a quote and an r begin, after them: a raw lifetime, or the rest of a name.
fn after_quote_r(text: &[u8], from: Cursor, lists: &Lists) -> Scanned
    ensures { RawNameRan lists.now text.now from result }
{
    if from.first(text) == 0x23 && lists.is_start(from.second(text)) {
        return Scanned::plain(TokenKind::RawLifetime, raw_lifetime(text, from, lists));
    }
    lifetime_rest(text, from, false, lists)
}

// What a quote begins, after it, if it is a lifetime or a name that a quote closes. If it is neither, the quote begins a character literal.
pub fn lifetime(text: &[u8], from: Cursor, lists: &Lists) -> Option<Scanned>
    ensures { LifeRan lists.now text.now from result }
{
    if from.second(text) == 0x27 {
        return None;
    }
    match from.first(text) {
        0x72 => Some(after_quote_r(text, from.bump(text), lists)),
        c if classes::is_digit(c) => Some(lifetime_rest(text, from.bump(text), true, lists)),
        c if lists.is_start(c) => Some(lifetime_rest(text, from.bump(text), false, lists)),
        _ => None,
    }
}
