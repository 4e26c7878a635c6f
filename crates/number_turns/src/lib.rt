// What a character does in a number, mode by mode. Each mode has its function, as it has its rule in specs/Numbers.
#![tactic(auto)]

ghost use Rattle.std.specs.Prelude.{◌≡◌};
ghost use Rattle.token.specs.Numbers.{decimals, hexadecimals};
ghost use Rattle.goes.specs.Went.{Among};
ghost use Rattle.number_turns.specs.Numbers.{fraction_goes, exponent_goes, digits_goes, zero_goes, some_goes, based_goes, hex_goes, dot_goes, in_fraction_goes, e_goes};
ghost use Rattle.number_turns.specs.Numbered.{number_modes, Numbered};

use goes::Goes;
use lists::Lists;
use machine::Mode;
use text::CodePoint;

// Whether c is a decimal digit or an underscore.
fn is_decimal(c: CodePoint) -> bool
    ensures { result ≡ decimals c }
{
    classes::is_digit(c) || c == 0x5F
}

// Whether c is a hexadecimal digit or an underscore.
fn is_hexadecimal(c: CodePoint) -> bool
    ensures { result ≡ hexadecimals c }
{
    token::is_hex_digit(c) || c == 0x5F
}

// After the digits of a number: a point, an exponent or a suffix.
fn fraction_goes(c: CodePoint, lists: &Lists) -> Goes
    ensures { result ≡ fraction_goes lists.now c }
{
    match c {
        0x2E => Goes::Takes(Mode::GotDot),
        0x65 | 0x45 => Goes::Takes(Mode::GotE),
        _ => goes::suffix_goes(c, lists),
    }
}

// In the digits of an exponent (mode InExponent).
fn exponent_goes(c: CodePoint, lists: &Lists) -> Goes
    ensures { result ≡ exponent_goes lists.now c }
{
    if is_decimal(c) {
        Goes::Takes(Mode::InExponent)
    } else {
        goes::suffix_goes(c, lists)
    }
}

// In decimal digits (mode InDigits).
fn digits_goes(c: CodePoint, lists: &Lists) -> Goes
    ensures { result ≡ digits_goes lists.now c }
{
    if is_decimal(c) {
        Goes::Takes(Mode::InDigits)
    } else {
        fraction_goes(c, lists)
    }
}

// After a first 0 (mode GotZero): a base, or digits.
fn zero_goes(c: CodePoint, lists: &Lists) -> Goes
    ensures { result ≡ zero_goes lists.now c }
{
    match c {
        0x62 | 0x6F => Goes::Takes(Mode::InBased { some: false }),
        0x78 => Goes::Takes(Mode::InHex { some: false }),
        _ => digits_goes(c, lists),
    }
}

// After the digits of a number with a base: with no digit, only a suffix may come.
fn some_goes(some: bool, c: CodePoint, lists: &Lists) -> Goes
    ensures { result ≡ some_goes lists.now some c }
{
    if some {
        fraction_goes(c, lists)
    } else {
        goes::suffix_goes(c, lists)
    }
}

// After 0b and 0o (mode InBased); `some` says that a digit came.
fn based_goes(some: bool, c: CodePoint, lists: &Lists) -> Goes
    ensures { result ≡ based_goes lists.now some c }
{
    if is_decimal(c) {
        Goes::Takes(Mode::InBased {
            some: some || classes::is_digit(c),
        })
    } else {
        some_goes(some, c, lists)
    }
}

// After 0x (mode InHex); `some` says that a digit came. In one function with `based_goes` both tests and the mode would be closures, which say less than two names.
fn hex_goes(some: bool, c: CodePoint, lists: &Lists) -> Goes
    ensures { result ≡ hex_goes lists.now some c }
{
    if is_hexadecimal(c) {
        Goes::Takes(Mode::InHex {
            some: some || token::is_hex_digit(c),
        })
    } else {
        some_goes(some, c, lists)
    }
}

// After the point of a number (mode GotDot): with a point or a name after it, it was a token of its own.
fn dot_goes(c: CodePoint, lists: &Lists) -> Goes
    ensures { result ≡ dot_goes lists.now c }
{
    if c == 0x2E || lists.is_start(c) {
        Goes::Ends(false)
    } else if classes::is_digit(c) {
        Goes::Takes(Mode::InFraction)
    } else {
        Goes::Ends(false)
    }
}

// In the digits after the point (mode InFraction).
fn in_fraction_goes(c: CodePoint, lists: &Lists) -> Goes
    ensures { result ≡ in_fraction_goes lists.now c }
{
    match c {
        _ if is_decimal(c) => Goes::Takes(Mode::InFraction),
        0x65 | 0x45 => Goes::Takes(Mode::GotE),
        _ => goes::suffix_goes(c, lists),
    }
}

// After e (mode GotE): a sign, or the digits of the exponent.
fn e_goes(c: CodePoint, lists: &Lists) -> Goes
    ensures { result ≡ e_goes lists.now c }
{
    match c {
        0x2D | 0x2B => Goes::Takes(Mode::InExponent),
        _ => exponent_goes(c, lists),
    }
}

// IN A NUMBER. No other mode is asked for.
#[tactic(auto, using(goes::proofs::Picks::went_pick))]
pub fn in_number(mode: Mode, c: CodePoint, lists: &Lists) -> Goes
    requires { Among number_modes mode }
    ensures { Numbered lists.now.starts mode c result }
{
    match mode {
        Mode::GotZero => zero_goes(c, lists),
        Mode::InDigits => digits_goes(c, lists),
        Mode::InBased { some } => based_goes(some, c, lists),
        Mode::InHex { some } => hex_goes(some, c, lists),
        Mode::GotDot => dot_goes(c, lists),
        Mode::InFraction => in_fraction_goes(c, lists),
        Mode::GotE => e_goes(c, lists),
        Mode::InExponent => exponent_goes(c, lists),
        _ => Goes::Drops(Mode::Broken),
    }
}
