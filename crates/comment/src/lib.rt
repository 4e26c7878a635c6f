// Whitespace and comments, each proved equal to its rule in the book. Names are 000's.
// The text and a cursor into it stay two parameters: a cursor that held its text would be three words in every answer, and each promise would have to say besides that
// the text is the same.
#![tactic(auto)]

ghost use Rattle.std.specs.Prelude.{◌≡◌};
ghost use Rattle.classes.specs.Whitespace.{is_whitespace};
ghost use Rattle.eaters.specs.Eat.{while};
ghost use Rattle.eaters.specs.Scan.{scan};
ghost use Rattle.token.specs.Whitespace;
ghost use Rattle.token.specs.Comments;
ghost use Rattle.token.specs.Comments.{in_line, line_doc, block_doc, block_turn, line_comment, block_comment};
ghost use Rattle.cursor.specs.Cursors.{rest};
ghost use Rattle.cursor.specs.Moved.{Moved};
ghost use Rattle.cursor.specs.Ran.{left, Ran};

use cursor::{Cursor, Ended, Lexed};
use text::CodePoint;
use token::{DocStyle, TokenKind};

// Past the whitespace at a cursor.
fn eat_whitespace(text: &[u8], from: Cursor) -> Cursor
    ensures { Moved text.now from result (left (while is_whitespace) (rest text.now from)) }
{
    from.eat_while(text, classes::is_whitespace)
}

// The rest of a whitespace token.
pub fn whitespace(text: &[u8], from: Cursor) -> Lexed
    ensures { Ran Whitespace.whitespace text.now from result.next result.kind }
{
    Lexed {
        kind: TokenKind::Whitespace,
        next: eat_whitespace(text, from),
    }
}

// Up to the end of the line.
pub fn eat_line(text: &[u8], from: Cursor) -> Cursor
    ensures { Moved text.now from result (left (while in_line) (rest text.now from)) }
{
    from.eat_while(text, |c| c != 0x0A)
}

// What the characters after a comment's beginning make of it: `!` is inner; the character that the comment began with is outer, unless it or a slash follows.
fn doc_style(text: &[u8], from: Cursor, mark: CodePoint) -> Option<DocStyle>
    ensures line { mark ≡ 0x2F → result ≡ line_doc (rest text.now from) }
    ensures block { mark ≡ 0x2A → result ≡ block_doc (rest text.now from) }
{
    let c = from.first(text);
    if c == 0x21 {
        return Some(DocStyle::Inner);
    }
    let d = from.second(text);
    if c == mark && d != mark && d != 0x2F {
        return Some(DocStyle::Outer);
    }
    None
}

// A line comment, after its two slashes.
fn line_comment(text: &[u8], from: Cursor) -> Lexed
    ensures { Ran line_comment text.now from result.next result.kind }
{
    let doc_style = doc_style(text, from, 0x2F);
    let next = eat_line(text, from);
    Lexed {
        kind: TokenKind::LineComment { doc_style },
        next,
    }
}

// The rest of a block comment: depth 1 after `/*`, one more at each `/*`, one less at each `*/`.
fn block_rest(text: &[u8], from: Cursor) -> Ended
    ensures { Ran (scan block_turn 0 1) text.now from result.next result.terminated }
{
    let mut cur = from;
    let mut depth: usize = 1;
    while let Some((c, next)) = cur.peek(text) {
        cur = next;
        if c == 0x2F {
            if cur.first(text) == 0x2A {
                cur = cur.bump(text);
                depth += 1;
            }
        } else if c == 0x2A {
            if cur.first(text) == 0x2F {
                cur = cur.bump(text);
                if depth == 1 {
                    return Ended {
                        next: cur,
                        terminated: true,
                    };
                }
                depth -= 1;
            }
        }
    }
    Ended {
        next: cur,
        terminated: false,
    }
}

// A block comment, after its slash and star.
fn block_comment(text: &[u8], from: Cursor) -> Lexed
    ensures { Ran block_comment text.now from result.next result.kind }
{
    let doc_style = doc_style(text, from, 0x2A);
    let ended = block_rest(text, from);
    let terminated = ended.terminated;
    let next = ended.next;
    Lexed {
        kind: TokenKind::BlockComment {
            doc_style,
            terminated,
        },
        next,
    }
}

// What a slash begins, after it: a comment, or nothing more.
pub fn slash(text: &[u8], from: Cursor) -> Lexed
    ensures { Ran Comments.slash text.now from result.next result.kind }
{
    let c = from.first(text);
    if c == 0x2F {
        return line_comment(text, from.bump(text));
    }
    if c == 0x2A {
        return block_comment(text, from.bump(text));
    }
    Lexed {
        kind: TokenKind::Slash,
        next: from,
    }
}
