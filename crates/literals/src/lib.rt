// Literals with their suffixes: bytes and C strings are forms of the same scans, by a small choice. Each function is proved equal to its rule in the book.
// The text and a cursor into it stay two parameters: a cursor that held its text would be three words in every answer, and each promise would have to say besides that
// the text is the same.
// A form or `byte` chooses the kind alone, by the small functions below: a constructor that is lent as a closure would stand in each promise as a predicate.
#![tactic(auto)]

ghost use Rattle.std.specs.Prelude.{◌≡◌};
ghost use Rattle.token.specs.Numbers.{number};
ghost use Rattle.token.specs.Quotes.{single_quoted, double_quoted};
ghost use Rattle.token.specs.RawStrings.{raw_string};
ghost use Rattle.literals.specs.Forms.{single_kind, double_kind, raw_kind, SuffixRan, LiteralRan};

use cursor::{Cursor, Kinded, Scanned};
use lists::Lists;
use text::CodePoint;
use token::LiteralKind;

// The form of a string: plain, of bytes, of C.
#[derive(Clone, Copy)]
pub enum Form {
    Plain,
    Byte,
    C,
}

// A character, or a byte.
fn single_kind(byte: bool, terminated: bool) -> LiteralKind
    ensures { result ≡ single_kind byte terminated }
{
    if byte {
        LiteralKind::Byte { terminated }
    } else {
        LiteralKind::Char { terminated }
    }
}

// A string by its form.
fn double_kind(form: Form, terminated: bool) -> LiteralKind
    ensures { result ≡ double_kind form terminated }
{
    match form {
        Form::Plain => LiteralKind::Str { terminated },
        Form::Byte => LiteralKind::ByteStr { terminated },
        Form::C => LiteralKind::CStr { terminated },
    }
}

// A raw string by its form.
fn raw_kind(form: Form, n_hashes: Option<u8>) -> LiteralKind
    ensures { result ≡ raw_kind form n_hashes }
{
    match form {
        Form::Plain => LiteralKind::RawStr { n_hashes },
        Form::Byte => LiteralKind::RawByteStr { n_hashes },
        Form::C => LiteralKind::RawCStr { n_hashes },
    }
}

// The suffix of a literal whose body ends at `at`, if one is read: `suffixed` and the cursor are no Option, since the body ends there in either case.
fn eat_literal_suffix(
    text: &[u8],
    kind: LiteralKind,
    at: Cursor,
    suffixed: bool,
    lists: &Lists,
) -> Scanned
    ensures { SuffixRan lists.now kind suffixed text.now at result }
{
    let next = if suffixed {
        words::eat_identifier(text, at, lists)
    } else {
        at
    };
    Scanned {
        kind: Kinded::Literal(kind, at),
        next,
    }
}

// A single-quoted literal, after its quote.
pub fn single_literal(text: &[u8], from: Cursor, byte: bool, lists: &Lists) -> Scanned
    ensures { LiteralRan lists.now (single_quoted (single_kind byte)) text.now from result }
{
    let ended = quoted::single_quoted_string(text, from);
    let kind = single_kind(byte, ended.terminated);
    eat_literal_suffix(text, kind, ended.next, ended.terminated, lists)
}

// A double-quoted literal, after its quote.
pub fn double_literal(text: &[u8], from: Cursor, form: Form, lists: &Lists) -> Scanned
    ensures { LiteralRan lists.now (double_quoted (double_kind form)) text.now from result }
{
    let ended = quoted::double_quoted_string(text, from);
    let kind = double_kind(form, ended.terminated);
    eat_literal_suffix(text, kind, ended.next, ended.terminated, lists)
}

// A raw string, after its r. A suffix is read only after one with a count.
pub fn raw_literal(text: &[u8], from: Cursor, form: Form, lists: &Lists) -> Scanned
    ensures { LiteralRan lists.now (raw_string (raw_kind form)) text.now from result }
{
    let raw = quoted::raw_double_quoted_string(text, from);
    let kind = raw_kind(form, raw.count);
    eat_literal_suffix(text, kind, raw.next, raw.count.is_some(), lists)
}

// A number, after its first digit. A suffix may follow every number.
pub fn number_literal(text: &[u8], from: Cursor, first: CodePoint, lists: &Lists) -> Scanned
    ensures { LiteralRan lists.now (number lists.now first) text.now from result }
{
    let numeral = numerals::number(text, from, first, lists);
    eat_literal_suffix(text, numeral.kind, numeral.next, true, lists)
}
