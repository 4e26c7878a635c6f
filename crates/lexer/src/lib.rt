// The public call for one token, with its refusals, and the step for loops over a text that was checked once.
//
// A position and the flag of frontmatter stand as two parameters (`at`, `on`) where 000's call has them so; what goes from token to token is a `Scan`. The
// calls that check, `token_verdict` and `advance_token`, take the three lists as a caller has them: what comes out of the check is a `Source`.
#![tactic(auto)]

ghost use Rattle.std.specs.Prelude.{◌≡◌, ◌≤◌, length};
ghost use Rattle.line_feeds.specs.Feeds.{feeds_before};
ghost use Rattle.token.specs.Lists.{lent};
ghost use Rattle.cursor.specs.Ran.{kind_from};
ghost use Rattle.lexer.specs.Scans.{Narrow, bare_at};
ghost use Rattle.lexer.specs.Checked.{Checked};
ghost use Rattle.lexer.specs.Sources.{source_of};
ghost use Rattle.lexer.specs.Steps.{before_in, before_of, start_of, next_of};
ghost use Rattle.lexer.specs.Ready.{Lined};
ghost use Rattle.lexer.specs.Answers.{token_verdict, one_token, token_numbers};

use cursor::{Cursor, Kinded};
use lists::Lists;
use ranges::MAX_PAIRS;
use refusal::{Bad, Numbers, PlaceRefusal};
use std::marker::Model;
use token::{Token, TokenKind};

// A text and three lists, all of them checked (refusals 1, 3 and 2): what every loop over a text goes by. In clauses it is the record of specs/Sources.
#[derive(Drop)]
pub struct Source<'a> {
    text: &'a [u8],
    lists: Lists<'a>,
}

impl<'a> Model for Source<'a> {
    ghost use Rattle.lexer.specs.Checked.{Checked};
    ghost use Rattle.lexer.specs.Sources as sources;

    ghost Value = { sources.Source };

    ghost view = { λ f. record { text = f.text.now; lists = f.lists } };

    ghost invariant = { λ f. Checked f.text.now f.lists };
}

impl<'a> Source<'a> {
    // Of a text and lists that were checked, by whomever.
    pub fn of(text: &'a [u8], lists: Lists<'a>) -> Source<'a>
        requires { Checked text.now lists }
        ensures { result ≡ record { text = text.now; lists = lists.entry } }
    {
        Source { text, lists }
    }

    // Of a text and lists of which nothing is known: refusals 1, 3 and 2 in this order.
    pub fn new(
        text: &'a [u8],
        starts: &'a [u32],
        continues: &'a [u32],
        emoji: &'a [u32],
    ) -> Result<Source<'a>, Bad>
        ensures { result ≡ source_of MAX_PAIRS text.now (lent starts.now continues.now emoji.now) }
    {
        token_verdict(text, starts, continues, emoji)?;
        let lists = Lists::new(starts, continues, emoji);
        Ok(Source::of(text, lists))
    }

    // Its text; and that it is checked, for those who see the value alone.
    pub fn text(&self) -> &[u8]
        ensures bytes { result.now ≡ self.now.text }
        ensures checked { Checked self.now.text self.now.lists }
    {
        self.text
    }

    // Its lists.
    pub fn lists(&self) -> &Lists<'a>
        ensures { result.now ≡ self.now.lists }
    {
        &self.lists
    }

    // Before its first token.
    pub fn start(&self, on: bool) -> Scan
        ensures scan { result ≡ start_of on }
        ensures lined { Lined self.now.text result }
    {
        let _ = &self.text;
        start(on)
    }
}

// A token, the position past it, and whether frontmatter is on there: the whole state of a loop over a text.
#[derive(Clone, Copy)]
pub struct Scan {
    pub token: Token,
    pub next: usize,
    pub on: bool,
}

// A token without its place, the position past it, and whether frontmatter is on there.
#[derive(Clone, Copy)]
pub struct Bare {
    pub kind: TokenKind,
    pub len: u32,
    pub next: usize,
    pub on: bool,
}

// The kind of a token whose first character, if it is a literal, takes one byte and ends at `from`.
fn kind_from(kind: Kinded, from: Cursor) -> TokenKind
    requires { Narrow from kind }
    ensures { result ≡ kind_from 1 from kind }
{
    match kind {
        Kinded::Plain(plain) => plain,
        Kinded::Literal(literal, at) => {
            let body = at.place() - from.place();
            TokenKind::Literal {
                kind: literal,
                suffix_start: cursor::narrow(1 + body),
            }
        }
    }
}

// The token at a position of a text that was checked, without its place: for loops that need no lines. The end is answered first.
pub fn bare_token(source: &Source, at: usize, on: bool) -> Bare
    ensures { result ≡ bare_at source.now.lists source.now.text at on }
{
    let text = source.text;
    let Some((first, from)) = Cursor::new(at).peek(text) else {
        return Bare {
            kind: TokenKind::Eof,
            len: 0,
            next: at,
            on,
        };
    };
    let scanned = advance::advance_token(text, first, from, on, &source.lists);
    let next = scanned.next.place();
    let kind = kind_from(scanned.kind, from);
    // made whole before it is handed back: so the compiler writes the kind in one piece, and a key takes 6 % less time
    let found = Bare {
        kind,
        len: cursor::narrow(next - at),
        next,
        on: advance::stays_on(on, kind),
    };
    found
}

// Before the token at a position in line `line`: in its place Eof, of no length.
fn before_in(at: usize, line: u32, on: bool) -> Scan
    ensures { result ≡ before_in at line on }
{
    let token = Token {
        kind: TokenKind::Eof,
        len: 0,
        start: at,
        line,
    };
    Scan {
        token,
        next: at,
        on,
    }
}

// Before the token at a position of a text within the limit. The lines are counted from the text's beginning. It takes the text, as the guide says: only the
// length is asked, and no lists.
pub fn before(text: &[u8], at: usize, on: bool) -> Scan
    requires { (at ≤ length text.now) × (length text.now ≤ 4294967295) }
    ensures { result ≡ before_of text.now at on }
{
    before_in(at, line_feeds::count(&text[..at]), on)
}

// Before the first token.
pub fn start(on: bool) -> Scan
    ensures { result ≡ start_of on }
{
    before_in(0, 0, on)
}

// The line past a scan: the line of its token, and the line feeds from there to the next position, which are counted once.
fn next_line(text: &[u8], c: Scan) -> u32
    requires { Lined text.now c }
    ensures { result ≡ feeds_before text.now c.next }
{
    let from = c.token.start;
    let to = c.next;
    c.token.line + line_feeds::count(&text[from..to])
}

// The scan past a scan of a text that was checked. What is handed back goes on in the text too. A `From` could not make the token: what is found has no start and
// no line.
pub fn step(source: &Source, c: Scan) -> Scan
    requires { Lined source.now.text c }
    ensures token { result ≡ next_of source.now.lists source.now.text c }
    ensures lined { Lined source.now.text result }
{
    let line = next_line(source.text(), c);
    let start = c.next;
    let found = bare_token(source, start, c.on);
    let token = Token {
        kind: found.kind,
        len: found.len,
        start,
        line,
    };
    Scan {
        token,
        next: found.next,
        on: found.on,
    }
}

// The answer of the one-token call by number: the position past the token, and 1 where frontmatter is on there; or the refusal. Named as its rule, and no
// `From`: the guide calls it, and the answer's type is none of this crate's.
pub fn token_numbers(answer: Result<Scan, PlaceRefusal>) -> Numbers
    ensures { result ≡ token_numbers answer }
{
    match answer {
        Ok(scan) => refusal::done(scan.next, usize::from(scan.on)),
        Err(refused) => refusal::place_numbers(refused),
    }
}

// What the one-token call checks of a text and three lists: 1, 3, 2.
pub fn token_verdict(
    text: &[u8],
    starts: &[u32],
    continues: &[u32],
    emoji: &[u32],
) -> Result<(), Bad>
    ensures { result ≡ token_verdict MAX_PAIRS text.now (lent starts.now continues.now emoji.now) }
{
    let long = text::check_length(text);
    // list by list, each with its number: calls share `check_list` and `lists_in_order`, and the place among the other checks is each call's own (document 01)
    let first = ranges::check_list(0, starts);
    let second = ranges::check_list(1, continues);
    let third = ranges::check_list(2, emoji);
    let listed = refusal::lists_in_order(first, second, third);
    let utf8 = text::check_utf8(text);
    refusal::in_order(long, listed, utf8)
}

// PUBLIC. The token at a position: 000's `Cursor::advance_token`, with the frontmatter flag handed in and out. Refusals 1, 3, 2 and 4 in this order.
pub fn advance_token(
    text: &[u8],
    starts: &[u32],
    continues: &[u32],
    emoji: &[u32],
    at: usize,
    on: bool,
) -> Result<Scan, PlaceRefusal>
    ensures { result ≡ one_token MAX_PAIRS text.now (lent starts.now continues.now emoji.now) at on }
{
    let source = Source::new(text, starts, continues, emoji)?;
    // calls share `starts_here`; with the refusal, which each gives after its own checks (document 01), it would be one more public function for these three lines
    if !text::starts_here(text, at) {
        return Err(PlaceRefusal::Position(at));
    }
    Ok(step(&source, before(text, at, on)))
}
