// What a kind of token is: trivia or broken (document 01, "The key"); and the kind as one number, for records of numbers: the number and the start
// of the suffix give the kind back, and nothing is lost (proofs/Decode.antt).
#![tactic(auto)]

ghost use Rattle.std.specs.Prelude.{◌≡◌};
ghost use Rattle.token.specs.Kinds.{kind_number};
ghost use Rattle.token.specs.Trivia.{is_trivia};
ghost use Rattle.token.specs.Broken.{broken_literal, is_broken};
ghost use Rattle.kinds.specs.Codes.{doc_code, base_code, hash_code, literal_number, literal_detail, literal_code, detail, kind_code, suffix_of};
ghost use Rattle.kinds.specs.Coded.{Coded};

use token::{Base, DocStyle, LiteralKind, TokenKind};

// Whether a token is trivia: whitespace, or a comment that is not a doc comment.
pub fn is_trivia(kind: TokenKind) -> bool
    ensures { result ≡ is_trivia kind }
{
    matches!(
        kind,
        TokenKind::Whitespace
            | TokenKind::LineComment { doc_style: None }
            | TokenKind::BlockComment {
                doc_style: None,
                ..
            }
    )
}

// Whether a literal is broken: it does not end, or it has no hash count.
fn is_broken_literal(kind: LiteralKind) -> bool
    ensures { result ≡ broken_literal kind }
{
    matches!(
        kind,
        LiteralKind::Char { terminated: false }
            | LiteralKind::Byte { terminated: false }
            | LiteralKind::Str { terminated: false }
            | LiteralKind::ByteStr { terminated: false }
            | LiteralKind::CStr { terminated: false }
            | LiteralKind::RawStr { n_hashes: None }
            | LiteralKind::RawByteStr { n_hashes: None }
            | LiteralKind::RawCStr { n_hashes: None }
    )
}

// Whether a token is broken: a broken literal, or a block comment that does not end.
pub fn is_broken(kind: TokenKind) -> bool
    ensures { result ≡ is_broken kind }
{
    match kind {
        TokenKind::BlockComment { terminated, .. } => !terminated,
        TokenKind::Literal { kind: literal, .. } => is_broken_literal(literal),
        _ => false,
    }
}

// The codes, here and below, are the numbers that the C interface and the stored answers have: each is a table of its own, one arm a case.
fn doc_code(doc_style: Option<DocStyle>) -> u32
    ensures { Coded 2 (doc_code doc_style) result }
{
    match doc_style {
        None => 0,
        Some(DocStyle::Outer) => 1,
        Some(DocStyle::Inner) => 2,
    }
}

fn base_code(base: Base) -> u32
    ensures { Coded 3 (base_code base) result }
{
    match base {
        Base::Binary => 0,
        Base::Octal => 1,
        Base::Decimal => 2,
        Base::Hexadecimal => 3,
    }
}

fn hash_code(n_hashes: Option<u8>) -> u32
    ensures { Coded 256 (hash_code n_hashes) result }
{
    match n_hashes {
        None => 0,
        Some(n) => u32::from(n) + 1,
    }
}

fn literal_number(kind: LiteralKind) -> u32
    ensures { Coded 9 (literal_number kind) result }
{
    match kind {
        LiteralKind::Int { .. } => 0,
        LiteralKind::Float { .. } => 1,
        LiteralKind::Char { .. } => 2,
        LiteralKind::Byte { .. } => 3,
        LiteralKind::Str { .. } => 4,
        LiteralKind::ByteStr { .. } => 5,
        LiteralKind::CStr { .. } => 6,
        LiteralKind::RawStr { .. } => 7,
        LiteralKind::RawByteStr { .. } => 8,
        LiteralKind::RawCStr { .. } => 9,
    }
}

fn literal_detail(kind: LiteralKind) -> u32
    ensures { Coded 256 (literal_detail kind) result }
{
    match kind {
        LiteralKind::Int {
            base,
            empty_int: empty,
        }
        | LiteralKind::Float {
            base,
            empty_exponent: empty,
        } => base_code(base) + 4 * u32::from(empty),
        LiteralKind::Char { terminated }
        | LiteralKind::Byte { terminated }
        | LiteralKind::Str { terminated }
        | LiteralKind::ByteStr { terminated }
        | LiteralKind::CStr { terminated } => u32::from(terminated),
        LiteralKind::RawStr { n_hashes }
        | LiteralKind::RawByteStr { n_hashes }
        | LiteralKind::RawCStr { n_hashes } => hash_code(n_hashes),
    }
}

fn literal_code(kind: LiteralKind) -> u32
    ensures { Coded 4105 (literal_code kind) result }
{
    literal_number(kind) + 16 * literal_detail(kind)
}

// What a kind holds, but for the start of a suffix.
fn kind_detail(kind: TokenKind) -> u32
    ensures { Coded 4105 (detail kind) result }
{
    match kind {
        TokenKind::LineComment { doc_style } => doc_code(doc_style),
        TokenKind::BlockComment {
            doc_style,
            terminated,
        } => doc_code(doc_style) + 4 * u32::from(terminated),
        TokenKind::Frontmatter {
            has_invalid_preceding_whitespace,
            invalid_infostring,
        } => u32::from(has_invalid_preceding_whitespace) + 2 * u32::from(invalid_infostring),
        TokenKind::Literal { kind, .. } => literal_code(kind),
        TokenKind::Lifetime { starts_with_number } => u32::from(starts_with_number),
        _ => 0,
    }
}

// The number of a kind: one arm a kind, in the order of 000.
pub fn kind_number(kind: TokenKind) -> u32
    ensures { Coded 42 (kind_number kind) result }
{
    match kind {
        TokenKind::LineComment { .. } => 0,
        TokenKind::BlockComment { .. } => 1,
        TokenKind::Whitespace => 2,
        TokenKind::Frontmatter { .. } => 3,
        TokenKind::Ident => 4,
        TokenKind::InvalidIdent => 5,
        TokenKind::RawIdent => 6,
        TokenKind::ForcedKeywordIdent => 7,
        TokenKind::UnknownPrefix => 8,
        TokenKind::UnknownPrefixLifetime => 9,
        TokenKind::RawLifetime => 10,
        TokenKind::GuardedStrPrefix => 11,
        TokenKind::Literal { .. } => 12,
        TokenKind::Lifetime { .. } => 13,
        TokenKind::Semi => 14,
        TokenKind::Comma => 15,
        TokenKind::Dot => 16,
        TokenKind::OpenParen => 17,
        TokenKind::CloseParen => 18,
        TokenKind::OpenBrace => 19,
        TokenKind::CloseBrace => 20,
        TokenKind::OpenBracket => 21,
        TokenKind::CloseBracket => 22,
        TokenKind::At => 23,
        TokenKind::Pound => 24,
        TokenKind::Tilde => 25,
        TokenKind::Question => 26,
        TokenKind::Colon => 27,
        TokenKind::Dollar => 28,
        TokenKind::Eq => 29,
        TokenKind::Bang => 30,
        TokenKind::Lt => 31,
        TokenKind::Gt => 32,
        TokenKind::Minus => 33,
        TokenKind::And => 34,
        TokenKind::Or => 35,
        TokenKind::Plus => 36,
        TokenKind::Star => 37,
        TokenKind::Slash => 38,
        TokenKind::Caret => 39,
        TokenKind::Percent => 40,
        TokenKind::Unknown => 41,
        TokenKind::Eof => 42,
    }
}

// The whole kind as one number, but for the start of a suffix.
pub fn kind_code(kind: TokenKind) -> u32
    ensures { result ≡ kind_code kind }
{
    kind_number(kind) + 64 * kind_detail(kind)
}

// Where the suffix of a literal starts; 0 for every other kind, as the field of the C interface has it.
pub fn suffix_of(kind: TokenKind) -> u32
    ensures { result ≡ suffix_of kind }
{
    match kind {
        TokenKind::Literal { suffix_start, .. } => suffix_start,
        _ => 0,
    }
}
