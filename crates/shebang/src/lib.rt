// Where a shebang ends (000's `strip_shebang`), proved equal to the rule in the book, in linear time.
//
// Nothing is asked of the text, and no list is lent: any lists give the same answer. A scan takes the text and the cursor as two parameters: a cursor that held its
// text would be three words in every answer, and every promise would have to say besides that the text is the same.
#![tactic(auto)]

ghost use Rattle.std.specs.Prelude.{◌≡◌, ◌+◌};
ghost use Rattle.token.specs.Advance.{plain};
ghost use Rattle.token.specs.Shebang.{line_bytes, is_bracket, bracketed};
ghost use Rattle.cursor.specs.Cursors.{rest};
ghost use Rattle.cursor.specs.Ran.{Begun};
ghost use Rattle.token.specs.Lists.{none};
ghost use Rattle.shebang.specs.Answers.{ShebangEnds, Stripped, shebang_numbers};

use cursor::{Cursor, Kinded, Scanned};
use refusal::{Bad, Numbers};
use text::CodePoint;
use token::TokenKind;

// Whether a token is an opening bracket.
fn is_bracket(kind: TokenKind) -> bool
    ensures { result ≡ is_bracket kind }
{
    matches!(kind, TokenKind::OpenBracket)
}

// The token of which c is the first character, with empty lists and frontmatter off.
fn token_after(text: &[u8], c: CodePoint, from: Cursor) -> Scanned
    ensures { Begun (plain none c) text.now from result }
{
    advance::advance_token(text, c, from, false, &lists::none())
}

// Whether the first token that is not trivia is an opening bracket.
fn bracket_follows(text: &[u8], from: Cursor) -> bool
    ensures { result ≡ bracketed none (rest text.now from) }
{
    let mut cur = from;
    while let Some((c, next)) = cur.peek(text) {
        let scanned = token_after(text, c, next);
        let Kinded::Plain(kind) = scanned.kind else {
            return false;
        };
        if !kinds::is_trivia(kind) {
            return is_bracket(kind);
        }
        cur = scanned.next;
    }
    false
}

// Up to LF, CR LF or the end. No `eat_while`: whether a CR ends the line, the character after it says.
fn line_end(text: &[u8], from: Cursor) -> Cursor
    ensures { result.at ≡ from.at + line_bytes (rest text.now from) }
{
    let mut cur = from;
    while let Some((c, next)) = cur.peek(text) {
        if c == 0x0A {
            return cur;
        }
        if c == 0x0D && next.first(text) == 0x0A {
            return cur;
        }
        cur = next;
    }
    cur
}

// Where a shebang ends: a text that begins with `#!` has one, unless the first token after it that is not trivia is `[`.
fn shebang_end(text: &[u8]) -> Option<usize>
    ensures { ShebangEnds text.now result }
{
    let start = Cursor::new(0);
    if start.first(text) != 0x23 {
        return None;
    }
    let hash = start.bump(text);
    if hash.first(text) != 0x21 {
        return None;
    }
    let mark = hash.bump(text);
    if bracket_follows(text, mark) {
        return None;
    }
    let end = line_end(text, mark);
    Some(end.place())
}

// PUBLIC. Where a shebang ends, in bytes, if there is one: 000's `strip_shebang`. Refusals 1 and 2 in this order.
pub fn strip_shebang(text: &[u8]) -> Result<Option<usize>, Bad>
    ensures { Stripped text.now result }
{
    text::check_text(text)?;
    Ok(shebang_end(text))
}

// The answer by number. Named as its rule, as the guide has it, and no `From`: neither type is this crate's.
pub fn shebang_numbers(answer: Result<Option<usize>, Bad>) -> Numbers
    ensures { result ≡ shebang_numbers answer }
{
    match answer {
        Ok(end) => refusal::done(end.unwrap_or(0), 0),
        Err(bad) => refusal::bad_numbers(bad),
    }
}
