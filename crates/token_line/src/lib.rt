// The line that is printed for a token, put into a lent buffer: the name of its kind, a tab, its length in decimal, and, where it is asked for, a tab and the
// line feeds before it; a newline.
// By `puts` and `fields`: of a `fmt::Write` nothing is promised of the place in a lent buffer.
#![tactic(auto)]

ghost use Rattle.std.specs.Prelude.{◌+◌, ◌≤◌, length};
ghost use Rattle.token.specs.Kinds.{kind_name};
ghost use Rattle.token_line.specs.Line.{front, line, lined_line, Named};
ghost use Rattle.puts.specs.Put.{PutFew};

use token::TokenKind;

// The name of a kind: one arm a kind, in the order of 000.
fn name(kind: TokenKind) -> &'static [u8]
    ensures { Named kind result.now }
{
    match kind {
        TokenKind::LineComment { .. } => b"LineComment",
        TokenKind::BlockComment { .. } => b"BlockComment",
        TokenKind::Whitespace => b"Whitespace",
        TokenKind::Frontmatter { .. } => b"Frontmatter",
        TokenKind::Ident => b"Ident",
        TokenKind::InvalidIdent => b"InvalidIdent",
        TokenKind::RawIdent => b"RawIdent",
        TokenKind::ForcedKeywordIdent => b"ForcedKeywordIdent",
        TokenKind::UnknownPrefix => b"UnknownPrefix",
        TokenKind::UnknownPrefixLifetime => b"UnknownPrefixLifetime",
        TokenKind::RawLifetime => b"RawLifetime",
        TokenKind::GuardedStrPrefix => b"GuardedStrPrefix",
        TokenKind::Literal { .. } => b"Literal",
        TokenKind::Lifetime { .. } => b"Lifetime",
        TokenKind::Semi => b"Semi",
        TokenKind::Comma => b"Comma",
        TokenKind::Dot => b"Dot",
        TokenKind::OpenParen => b"OpenParen",
        TokenKind::CloseParen => b"CloseParen",
        TokenKind::OpenBrace => b"OpenBrace",
        TokenKind::CloseBrace => b"CloseBrace",
        TokenKind::OpenBracket => b"OpenBracket",
        TokenKind::CloseBracket => b"CloseBracket",
        TokenKind::At => b"At",
        TokenKind::Pound => b"Pound",
        TokenKind::Tilde => b"Tilde",
        TokenKind::Question => b"Question",
        TokenKind::Colon => b"Colon",
        TokenKind::Dollar => b"Dollar",
        TokenKind::Eq => b"Eq",
        TokenKind::Bang => b"Bang",
        TokenKind::Lt => b"Lt",
        TokenKind::Gt => b"Gt",
        TokenKind::Minus => b"Minus",
        TokenKind::And => b"And",
        TokenKind::Or => b"Or",
        TokenKind::Plus => b"Plus",
        TokenKind::Star => b"Star",
        TokenKind::Slash => b"Slash",
        TokenKind::Caret => b"Caret",
        TokenKind::Percent => b"Percent",
        TokenKind::Unknown => b"Unknown",
        TokenKind::Eof => b"Eof",
    }
}

// The name of a kind. The longest has 21 bytes.
fn put_name(out: &mut [u8], at: usize, kind: TokenKind) -> usize
    requires { at + 21 ≤ length out.old }
    ensures { PutFew 21 (kind_name kind) out.old at out.new result }
{
    puts::put_bytes(out, at, name(kind))
}

// How the line of a token begins: the name of its kind, a tab, its length in decimal. At most 32 bytes.
fn put_front(out: &mut [u8], at: usize, kind: TokenKind, len: u32) -> usize
    requires { at + 32 ≤ length out.old }
    ensures { PutFew 32 (front kind len) out.old at out.new result }
{
    let tab = put_name(out, at, kind);
    let digits = puts::put_byte(out, tab, 9);
    fields::put_decimal(out, digits, len)
}

// The line of a token, and the place past it. A line has at most 33 bytes.
pub fn put_line(out: &mut [u8], at: usize, kind: TokenKind, len: u32) -> usize
    requires { at + 33 ≤ length out.old }
    ensures { PutFew 33 (line kind len) out.old at out.new result }
{
    let end = put_front(out, at, kind, len);
    puts::put_byte(out, end, 10)
}

// The same with the number of line feeds before the token, after one more tab. At most 44 bytes.
pub fn put_lined(out: &mut [u8], at: usize, kind: TokenKind, len: u32, feeds: u32) -> usize
    requires { at + 44 ≤ length out.old }
    ensures { PutFew 44 (lined_line kind len feeds) out.old at out.new result }
{
    let past = put_front(out, at, kind, len);
    let number = puts::put_byte(out, past, 9);
    let end = fields::put_decimal(out, number, feeds);
    puts::put_byte(out, end, 10)
}
