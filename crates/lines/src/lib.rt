// The lines of the tokens of a text, put into a lent buffer part by part.
#![tactic(auto)]

ghost use Rattle.std.specs.Prelude.{◌≤◌, length};
ghost use Rattle.lines.specs.Filled.{Filled};

use lexer::Source;

// The position past the last token whose line was put, and the bytes that were put.
// The buffer is the caller's, as there is no heap: so the number of its bytes is told.
#[derive(Clone, Copy)]
pub struct Chunk {
    pub next: usize,
    pub used: usize,
}

// Lines of the tokens from a position on, with frontmatter off, as many as are sure to fit into out. Eof has no length and no line: the loop ends
// there, as 000's iterator does. No other token is without a byte, so that its length tells it as its kind does.
// Its loop is none of those over scans: it ends where a line might not fit, and a line here has no count of line feeds.
pub fn fill(source: &Source, at: usize, out: &mut [u8]) -> Chunk
    requires { 33 ≤ length out.old }
    ensures { Filled source.now.lists source.now.text at out.old out.new result }
{
    let mut next = at;
    let mut used = 0;
    // by position: each token says where the next one begins
    while 33 <= out.len() - used {
        let token = lexer::bare_token(source, next, false);
        if token.len == 0 {
            break;
        }
        used = token_line::put_line(out, used, token.kind, token.len);
        next = token.next;
    }
    Chunk { next, used }
}
