// Numbers, after their first digit, each function proved equal to its rule in the book. Names are 000's where it has the function.
// The text and a cursor into it stay two parameters: a cursor that held its text would be three words in every answer, and each promise would have to say besides that
// the text is the same.
// `based` and `decimal` stay two rules, as in the book: a number with a base may be empty, and one without begins with a digit that was read before.
#![tactic(auto)]

ghost use Rattle.std.specs.Prelude.{◌≡◌};
ghost use Rattle.token.specs.Numbers;
ghost use Rattle.token.specs.Numbers.{sign, exponent, maybe_exponent, after_point, after_digits};
ghost use Rattle.cursor.specs.Ran.{Ran};
ghost use Rattle.numerals.specs.Counts.{digit_of, digits_of, CountedDigits};
ghost use Rattle.numerals.specs.Followed.{followed};

use cursor::Cursor;
use lists::Lists;
use text::CodePoint;
use token::{Base, LiteralKind};

// What a scan of digits gives: the cursor past them and the underscores among them, and whether there is a digit. No Option: the cursor is given in either case.
#[derive(Clone, Copy)]
struct Digits {
    pub next: Cursor,
    pub some: bool,
}

// What a rule of numbers gives: the kind, and the cursor past the number. A suffix may follow every number. It is no `Lexed`, whose kind is that of a token.
#[derive(Clone, Copy)]
pub struct Numeral {
    pub kind: LiteralKind,
    pub next: Cursor,
}

// Whether c is a digit after a prefix of this base. Binary and octal take every decimal digit.
fn is_digit_of(c: CodePoint, base: Base) -> bool
    ensures { result ≡ digit_of base c }
{
    match base {
        Base::Hexadecimal => token::is_hex_digit(c),
        Base::Binary | Base::Octal | Base::Decimal => classes::is_digit(c),
    }
}

// Past digits and underscores (000's eat_decimal_digits and eat_hexadecimal_digits). An underscore is not a digit.
// The run is no `eat_while`: that says nothing of the characters that it took.
fn eat_digits(text: &[u8], from: Cursor, base: Base) -> Digits
    ensures { CountedDigits (digits_of base) (digit_of base) text.now from result }
{
    let mut cur = from;
    let mut some = false;
    while let Some((c, next)) = cur.peek(text) {
        if is_digit_of(c, base) {
            some = true;
        } else if c != 0x5F {
            break;
        }
        cur = next;
    }
    Digits { next: cur, some }
}

// Past the sign of an exponent, if there is one.
fn eat_sign(text: &[u8], from: Cursor) -> Cursor
    ensures { Ran sign text.now from result tt }
{
    match from.first(text) {
        0x2B | 0x2D => from.bump(text),
        _ => from,
    }
}

// An exponent, after its e: it is empty if it has no digit.
fn eat_float_exponent(text: &[u8], from: Cursor, base: Base) -> Numeral
    ensures { Ran (exponent base) text.now from result.next (followed result.kind) }
{
    let digits = eat_digits(text, eat_sign(text, from), Base::Decimal);
    Numeral {
        kind: LiteralKind::Float {
            base,
            empty_exponent: !digits.some,
        },
        next: digits.next,
    }
}

// An exponent, if there is one; otherwise the number is of the kind that it is without one.
fn maybe_exponent(text: &[u8], from: Cursor, base: Base, otherwise: LiteralKind) -> Numeral
    ensures { Ran (maybe_exponent base (followed otherwise)) text.now from result.next (followed result.kind) }
{
    match from.first(text) {
        0x45 | 0x65 => eat_float_exponent(text, from.bump(text), base),
        _ => Numeral {
            kind: otherwise,
            next: from,
        },
    }
}

// After a point that joins: digits, and then an exponent. Without a digit there is no exponent either.
fn after_point(text: &[u8], from: Cursor, base: Base) -> Numeral
    ensures { Ran (after_point base) text.now from result.next (followed result.kind) }
{
    let kind = LiteralKind::Float {
        base,
        empty_exponent: false,
    };
    if classes::is_digit(from.first(text)) {
        let digits = eat_digits(text, from, Base::Decimal);
        return maybe_exponent(text, digits.next, base, kind);
    }
    Numeral { kind, next: from }
}

// After the digits of a number. A point joins, unless another one follows, as in a range, or the start of an identifier, as in a call of a method.
fn fraction(text: &[u8], from: Cursor, base: Base, lists: &Lists) -> Numeral
    ensures { Ran (Numbers.fraction lists.now base) text.now from result.next (followed result.kind) }
{
    let kind = LiteralKind::Int {
        base,
        empty_int: false,
    };
    if from.first(text) != 0x2E {
        return maybe_exponent(text, from, base, kind);
    }
    let d = from.second(text);
    if d == 0x2E || lists.is_start(d) {
        return Numeral { kind, next: from };
    }
    after_point(text, from.bump(text), base)
}

// After the digits that follow a base prefix: without a digit the number is empty, and ends there.
fn after_digits(text: &[u8], digits: Digits, base: Base, lists: &Lists) -> Numeral
    ensures { Ran (after_digits lists.now base digits.some) text.now digits.next result.next (followed result.kind) }
{
    if digits.some {
        return fraction(text, digits.next, base, lists);
    }
    Numeral {
        kind: LiteralKind::Int {
            base,
            empty_int: true,
        },
        next: digits.next,
    }
}

// A number after its base prefix.
fn based(text: &[u8], from: Cursor, base: Base, lists: &Lists) -> Numeral
    ensures { Ran (Numbers.based lists.now base (digits_of base) (digit_of base)) text.now from result.next (followed result.kind) }
{
    after_digits(text, eat_digits(text, from, base), base, lists)
}

// A number without a base prefix.
fn decimal(text: &[u8], from: Cursor, lists: &Lists) -> Numeral
    ensures { Ran (Numbers.decimal lists.now) text.now from result.next (followed result.kind) }
{
    let digits = eat_digits(text, from, Base::Decimal);
    fraction(text, digits.next, Base::Decimal, lists)
}

// A number, after its first digit. A letter after a 0 may be a base prefix.
pub fn number(text: &[u8], from: Cursor, first: CodePoint, lists: &Lists) -> Numeral
    ensures { Ran (Numbers.number lists.now first) text.now from result.next (followed result.kind) }
{
    if first != 0x30 {
        return decimal(text, from, lists);
    }
    let base = match from.first(text) {
        0x62 => Base::Binary,
        0x6F => Base::Octal,
        0x78 => Base::Hexadecimal,
        _ => return decimal(text, from, lists),
    };
    based(text, from.bump(text), base, lists)
}
