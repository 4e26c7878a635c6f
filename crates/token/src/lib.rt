// The types of 000, by value, with its `Option`s and its `Result`; and two tests of a character that several scans ask. The rules of tokens stand in specs/.
#![tactic(auto)]

ghost use Rattle.std.specs.Prelude.{◌≡◌};
ghost use Rattle.token.specs.Numbers.{hex_digit};
ghost use Rattle.token.specs.Punctuation.{hash_or_quote};

use text::CodePoint;

// The style of a doc comment. A comment that is not a doc comment has none: its kind holds `None`.
#[derive(Clone, Copy, PartialEq, Eq)]
pub enum DocStyle {
    Outer,
    Inner,
}

#[derive(Clone, Copy, PartialEq, Eq)]
pub enum Base {
    Binary,
    Octal,
    Decimal,
    Hexadecimal,
}

// The `n_hashes` of a raw string: none for a bad start, for no end, and for more than 255.
#[derive(Clone, Copy, PartialEq, Eq)]
pub enum LiteralKind {
    Int { base: Base, empty_int: bool },
    Float { base: Base, empty_exponent: bool },
    Char { terminated: bool },
    Byte { terminated: bool },
    Str { terminated: bool },
    ByteStr { terminated: bool },
    CStr { terminated: bool },
    RawStr { n_hashes: Option<u8> },
    RawByteStr { n_hashes: Option<u8> },
    RawCStr { n_hashes: Option<u8> },
}

// In the order of 000. `suffix_start` counts bytes from the token's start; where there is no suffix it is the token's length.
#[derive(Clone, Copy, PartialEq, Eq)]
pub enum TokenKind {
    LineComment {
        doc_style: Option<DocStyle>,
    },
    BlockComment {
        doc_style: Option<DocStyle>,
        terminated: bool,
    },
    Whitespace,
    Frontmatter {
        has_invalid_preceding_whitespace: bool,
        invalid_infostring: bool,
    },
    Ident,
    InvalidIdent,
    RawIdent,
    ForcedKeywordIdent,
    UnknownPrefix,
    UnknownPrefixLifetime,
    RawLifetime,
    GuardedStrPrefix,
    Literal {
        kind: LiteralKind,
        suffix_start: u32,
    },
    Lifetime {
        starts_with_number: bool,
    },
    Semi,
    Comma,
    Dot,
    OpenParen,
    CloseParen,
    OpenBrace,
    CloseBrace,
    OpenBracket,
    CloseBracket,
    At,
    Pound,
    Tilde,
    Question,
    Colon,
    Dollar,
    Eq,
    Bang,
    Lt,
    Gt,
    Minus,
    And,
    Or,
    Plus,
    Star,
    Slash,
    Caret,
    Percent,
    Unknown,
    Eof,
}

// A token of a text: `len` bytes from byte `start` on, with `line` line feeds before it.
#[derive(Clone, Copy, PartialEq, Eq)]
pub struct Token {
    pub kind: TokenKind,
    pub len: u32,
    pub start: usize,
    pub line: u32,
}

// What `guarded_double_quoted_string` finds, field by field as 000 has it: the hashes before it, whether it ends, and its bytes.
#[derive(Clone, Copy, PartialEq, Eq)]
pub struct GuardedStr {
    pub n_hashes: u32,
    pub terminated: bool,
    pub token_len: u32,
}

// What is wrong with a raw string. `bad_char` is 0 where the text ends; the offset counts bytes to where the string may have been meant to end.
#[derive(Clone, Copy, PartialEq, Eq)]
pub enum RawStrError {
    InvalidStarter {
        bad_char: u32,
    },
    NoTerminator {
        expected: u32,
        found: u32,
        possible_terminator_offset: Option<u32>,
    },
    TooManyDelimiters {
        found: u32,
    },
}

// Whether c is a hexadecimal digit.
pub fn is_hex_digit(c: CodePoint) -> bool
    ensures { result ≡ hex_digit c }
{
    matches!(c, 0x30..=0x39 | 0x61..=0x66 | 0x41..=0x46)
}

// Whether c is a hash or a double quote.
pub fn is_hash_or_quote(c: CodePoint) -> bool
    ensures { result ≡ hash_or_quote c }
{
    matches!(c, 0x23 | 0x22)
}
