// What a character does in a comment, mode by mode. The three facts of a block stay apart, as the machine's `Mode::Block` has them: its theorems speak of any depth,
// so that the bound which is asked is no part of a type.
#![tactic(auto)]

ghost use Rattle.std.specs.Prelude.{◌≡◌, ◌<◌};
ghost use Rattle.token.specs.Names.{is, 'newline'};
ghost use Rattle.machine.specs.declared.Last.TheVariants.{AStar};
ghost use Rattle.comment_turns.specs.Comments.{last_char, block_mode, doc_goes, plain_goes, block_goes};

use goes::Goes;
use machine::{Last, Mode};
use text::CodePoint;

// What the last character of a block comment is, for the next one.
pub fn last_of(c: CodePoint) -> Last
    ensures { result ≡ last_char c }
{
    match c {
        0x2F => Last::ASlash,
        0x2A => Last::AStar,
        _ => Last::PlainChar,
    }
}

// In a block comment, after a star.
pub fn star_block(doc: bool, depth: u32, c: CodePoint) -> Mode
    ensures { result ≡ block_mode doc depth AStar c }
{
    match (c, depth) {
        (0x2F, 0) => Mode::Start { gap: !doc },
        (0x2F, _) => Mode::Block {
            doc,
            depth: depth - 1,
            last: Last::PlainChar,
        },
        _ => Mode::Block {
            doc,
            depth,
            last: last_of(c),
        },
    }
}

// In a block comment, after any character.
fn in_block(doc: bool, depth: u32, last: Last, c: CodePoint) -> Mode
    requires { depth < 4294967295 }
    ensures { result ≡ block_mode doc depth last c }
{
    match (last, c) {
        (Last::AStar, _) => star_block(doc, depth, c),
        (Last::ASlash, 0x2A) => Mode::Block {
            doc,
            depth: depth + 1,
            last: Last::PlainChar,
        },
        _ => Mode::Block {
            doc,
            depth,
            last: last_of(c),
        },
    }
}

// Whether c ends a line comment: LF does, CR does not.
fn ends_line(c: CodePoint) -> bool
    ensures { result ≡ is 'newline' c }
{
    c == 0x0A
}

// In a line comment that is a doc comment (mode DocLine).
pub fn doc_goes(c: CodePoint) -> Goes
    ensures { result ≡ doc_goes c }
{
    if ends_line(c) {
        Goes::Ends(false)
    } else {
        Goes::Takes(Mode::DocLine)
    }
}

// In a line comment that is none (mode PlainLine).
pub fn plain_goes(c: CodePoint) -> Goes
    ensures { result ≡ plain_goes c }
{
    if ends_line(c) {
        Goes::Ends(true)
    } else {
        Goes::Drops(Mode::PlainLine)
    }
}

// In a block comment (mode Block): a doc comment is written, another one is not.
pub fn block_goes(doc: bool, depth: u32, last: Last, c: CodePoint) -> Goes
    requires { depth < 4294967295 }
    ensures { result ≡ block_goes doc depth last c }
{
    let mode = in_block(doc, depth, last, c);
    if doc {
        Goes::Takes(mode)
    } else {
        Goes::Drops(mode)
    }
}
