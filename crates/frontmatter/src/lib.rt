// Frontmatter, in linear time, proved equal to its rule in the book. Names are 000's.
//
// Every search goes over the text once.
// The text and a cursor into it stay two parameters: a cursor that held its text would be three words in every answer, and each promise would have to say besides that
// the text is the same.
#![tactic(auto)]

ghost use Rattle.std.specs.Prelude.{◌≡◌, [], ◌∷◌, true, drop};
ghost use Rattle.classes.specs.Whitespace.{is_horizontal_whitespace};
ghost use Rattle.eaters.specs.Eat.{while};
ghost use Rattle.eaters.specs.Look.{begins};
ghost use Rattle.eaters.specs.Find.{further};
ghost use Rattle.token.specs.Names.{'newline'};
ghost use Rattle.token.specs.Frontmatter;
ghost use Rattle.token.specs.Frontmatter.{dashes, first, still_blank, line_at, in_infostring, infostring};
ghost use Rattle.cursor.specs.Cursors.{rest};
ghost use Rattle.cursor.specs.Moved.{Moved};
ghost use Rattle.cursor.specs.Ran.{left, Ran};
ghost use Rattle.frontmatter.specs.Searches.{SoughtAt};

use cursor::{Cursor, Lexed};
use lists::Lists;
use text::CodePoint;
use token::TokenKind;

// Whether these characters, all of ASCII, are at the cursor: each byte of the pattern is a character. By hand, since a cursor steps by characters and the words of
// slices go by bytes: with them the clause would want a law that a text begins with the same characters as bytes, where all are ASCII.
fn starts_with(text: &[u8], from: Cursor, pattern: &[u8]) -> bool
    ensures { result ≡ begins pattern.now (rest text.now from) }
{
    let mut cur = from;
    for b in pattern {
        let Some((c, next)) = cur.peek(text) else {
            return false;
        };
        if c != u32::from(*b) {
            return false;
        }
        cur = next;
    }
    true
}

// Where these characters, all of ASCII, are first found.
fn find(text: &[u8], from: Cursor, pattern: &[u8]) -> Option<Cursor>
    ensures { SoughtAt text.now from (first pattern.now (rest text.now from)) result }
{
    let mut cur = from;
    loop {
        if starts_with(text, cur, pattern) {
            return Some(cur);
        }
        let (_, next) = cur.peek(text)?;
        cur = next;
    }
}

// Past the first newline with `count` dashes after it. Dashes that were counted are not read again: no newline is among them.
fn find_fence(text: &[u8], from: Cursor, count: usize) -> Option<Cursor>
    ensures { SoughtAt text.now from (further (first ('newline' ∷ dashes count) (rest text.now from))) result }
{
    let mut cur = from;
    loop {
        let (c, next) = cur.peek(text)?;
        if c == 0x0A {
            let fence = next.eat_repeated(text, 0x2D);
            if count <= fence.count {
                return Some(next);
            }
            cur = fence.next;
        } else {
            cur = next;
        }
    }
}

// Whether there are three dashes at the cursor.
pub fn at_dashes(text: &[u8], from: Cursor) -> bool
    ensures { result ≡ begins (dashes 3) (rest text.now from) }
{
    starts_with(text, from, b"---")
}

// Whether there are only blanks on the line up to and with c, if `blank` says so before it.
fn still_blank(c: CodePoint, blank: bool) -> bool
    ensures { result ≡ still_blank blank c }
{
    c == 0x0A || (blank && classes::is_horizontal_whitespace(c))
}

// The last search: the first three dashes before which there are only blanks, counted from their line's start, from where the search began, or
// from the three dashes passed before them. It goes on after the dashes that it passes, and looks at most three characters ahead.
fn last_search(text: &[u8], from: Cursor) -> Option<Cursor>
    ensures { SoughtAt text.now from (Frontmatter.last_search 0 true (rest text.now from)) result }
{
    let mut cur = from;
    let mut blank: bool = true;
    loop {
        if at_dashes(text, cur) {
            if blank {
                return Some(cur);
            }
            cur = cur.eat(text, 3);
            blank = true;
        } else {
            let (c, next) = cur.peek(text)?;
            blank = still_blank(c, blank);
            cur = next;
        }
    }
}

// Where a frontmatter without a closing fence may end: past the first newline with three dashes after it; else at the first newline that Rust
// may begin after; else what the last search finds. Each search goes through the whole rest before the next one begins.
fn recovery(text: &[u8], from: Cursor) -> Option<Cursor>
    ensures { SoughtAt text.now from (Frontmatter.recovery (rest text.now from)) result }
{
    find_fence(text, from, 3)
        .or_else(|| find(text, from, b"\nuse "))
        .or_else(|| find(text, from, b"\n//!"))
        .or_else(|| find(text, from, b"\n#!["))
        .or_else(|| last_search(text, from))
}

// Past everything.
fn eat_all(text: &[u8], from: Cursor) -> Cursor
    ensures { Moved text.now from result [] }
{
    from.eat_while(text, |_| true)
}

// To where a frontmatter without a closing fence ends, and past the rest of that line; past everything, if it ends nowhere.
fn recover(text: &[u8], from: Cursor) -> Cursor
    ensures { Moved text.now from result (drop (line_at (Frontmatter.recovery (rest text.now from)) (rest text.now from)) (rest text.now from)) }
{
    match recovery(text, from) {
        Some(line) => comment::eat_line(text, line),
        None => eat_all(text, from),
    }
}

// The body and the closing fence, after an opening fence of `count` dashes. The same `match` as above, over another search and another way out.
fn body(text: &[u8], from: Cursor, count: usize) -> Cursor
    ensures { Ran (Frontmatter.body count) text.now from result tt }
{
    match find_fence(text, from, count) {
        Some(line) => comment::eat_line(text, line),
        None => recover(text, from),
    }
}

// Past the blanks at a cursor.
fn eat_blanks(text: &[u8], from: Cursor) -> Cursor
    ensures { Moved text.now from result (left (while is_horizontal_whitespace) (rest text.now from)) }
{
    from.eat_while(text, classes::is_horizontal_whitespace)
}

// Whether c goes on in an infostring.
fn in_infostring(c: CodePoint, lists: &Lists) -> bool
    ensures { result ≡ in_infostring lists.now c }
{
    lists.is_continue(c) || matches!(c, 0x2D | 0x2E)
}

// Past what goes on in an infostring.
fn infostring_rest(text: &[u8], from: Cursor, lists: &Lists) -> Cursor
    ensures { Moved text.now from result (left (while (in_infostring lists.now)) (rest text.now from)) }
{
    from.eat_while(text, |c| in_infostring(c, lists))
}

// The infostring, if there is one. An identifier (crate `words`) is read alike, but goes on by another class, and its rule in the book is another one.
fn eat_infostring(text: &[u8], from: Cursor, lists: &Lists) -> Cursor
    ensures { Ran (infostring lists.now) text.now from result tt }
{
    if lists.is_start(from.first(text)) {
        return infostring_rest(text, from.bump(text), lists);
    }
    from
}

// Frontmatter, after its first dash.
pub fn frontmatter(text: &[u8], from: Cursor, invalid_before: bool, lists: &Lists) -> Lexed
    ensures { Ran (Frontmatter.frontmatter lists.now invalid_before) text.now from result.next result.kind }
{
    let fence = from.eat_repeated(text, 0x2D);
    let more = fence.count;
    let open = fence.next;
    let name = eat_blanks(text, open);
    let blanks = eat_infostring(text, name, lists);
    let line = eat_blanks(text, blanks);
    let invalid_infostring = line.first(text) != 0x0A;
    let next = body(text, line, more + 1);
    Lexed {
        kind: TokenKind::Frontmatter {
            has_invalid_preceding_whitespace: invalid_before,
            invalid_infostring,
        },
        next,
    }
}
