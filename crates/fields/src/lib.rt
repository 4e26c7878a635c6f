// Text files of lines whose fields stand between tabs (document 02, W1): where a piece of a text ends, whether a field is a word, and numbers in decimal
// and in hexadecimal, with no zero in front.
#![tactic(auto)]

ghost use Rattle.std.specs.Prelude.{◌+◌, ◌<◌, ◌≤◌, ◌≡◌, false, length, drop, MatchOption};
ghost use Rattle.basics.specs.Tests.{is_in};
ghost use Rattle.puts.specs.Put.{Put};
ghost use Rattle.fields.specs.Pieces.{piece, CutInto};
ghost use Rattle.fields.specs.Words;
ghost use Rattle.fields.specs.Numerals.{numeral, digit_byte, digit_in, valued_from, number_of, Base};
ghost use Rattle.fields.specs.Numerals;
ghost use Rattle.fields.specs.Puts.{Fits};

// The place of the first mark from a place on; the end of the text where there is none, so that a last piece with no mark after it ends there too: no Option.
// `cut` asks for a mark, and so searches for itself.
pub fn find(s: &[u8], from: usize, mark: u8) -> usize
    requires { from ≤ length s.now }
    ensures { result ≡ from + length (piece mark (drop from s.now)) }
{
    match s[from..].iter().position(|&c| c == mark) {
        Some(bytes) => from + bytes,
        None => s.len(),
    }
}

// What stands before the first mark, and what stands after it. None where there is no mark.
pub fn cut(s: &[u8], mark: u8) -> Option<(&[u8], &[u8])>
    ensures { MatchOption result (is_in s.now mark ≡ false) (λ x. CutInto mark s.now x.0.now x.1.now) }
{
    let end = s.iter().position(|&c| c == mark)?;
    Some((&s[..end], &s[end + 1..]))
}

// Whether a field is a word: `==`, with the name that the definition has.
pub fn is_word(field: &[u8], word: &[u8]) -> bool
    ensures { result ≡ Words.same field.now word.now }
{
    field == word
}

// The digit that a byte is in a base; none where it is none.
fn digit_in(base: u32, c: u8) -> Option<u32>
    requires { Base base }
    ensures { result ≡ digit_in base c }
{
    let digit = match c {
        b'0'..=b'9' => u32::from(c - b'0'),
        b'a'..=b'f' => u32::from(c - b'a') + 10,
        _ => return None,
    };
    if digit < base { Some(digit) } else { None }
}

// The number that digits say, where it is at most `most`. Reading ends as soon as it is more: more digits make no number smaller.
fn value_of(s: &[u8], base: u32, most: u32) -> Option<u32>
    requires { Base base }
    ensures { result ≡ valued_from base most 0 s.now }
{
    let mut n: u32 = 0;
    for &c in s {
        let digit = digit_in(base, c)?;
        n = n.checked_mul(base)?.checked_add(digit)?;
        if most < n {
            return None;
        }
    }
    Some(n)
}

// Whether a field has one digit or more, and no leading zero.
fn unpadded(s: &[u8]) -> bool
    ensures { result ≡ Numerals.unpadded s.now }
{
    match s {
        [] => false,
        [_] => true,
        [first, ..] => *first != b'0',
    }
}

// The number that a field says in a base, of at most `most`.
pub fn number_of(field: &[u8], base: u32, most: u32) -> Option<u32>
    requires { Base base }
    ensures { result ≡ number_of base most field.now }
{
    if !unpadded(field) {
        return None;
    }
    value_of(field, base, most)
}

// The byte of a digit. By hand, as the digits of a number below: std writes numbers into a `fmt::Write`, whose promise says nothing of the place in a lent buffer.
// `as`, since a digit fits: `u8::try_from` would have an error that cannot come.
fn digit_byte(d: u32) -> u8
    requires { d < 16 }
    ensures { result ≡ digit_byte d }
{
    if d < 10 {
        b'0' + d as u8
    } else {
        b'a' + (d as u8 - 10)
    }
}

// Lays a number at the end of a room that is long enough, its last digit first; the place of its first digit.
fn lay(room: &mut [u8], base: u32, n: u32) -> usize
    requires base { Base base }
    requires room { length (numeral base n) ≤ length room.old }
    ensures within { result ≤ length room.new }
    ensures laid { drop result room.new ≡ numeral base n }
{
    // from the end, since the last digit is known first; how many come is known only when none is left
    let mut at = room.len();
    let mut rest = n;
    loop {
        at -= 1;
        room[at] = digit_byte(rest % base);
        rest /= base;
        if rest == 0 {
            return at;
        }
    }
}

// Puts a number of at most ten digits. They come from the last to the first, and so into a room of that size first: there is no heap.
fn put_numeral(out: &mut [u8], at: usize, base: u32, n: u32) -> usize
    requires base { Base base }
    requires few { length (numeral base n) ≤ 10 }
    requires room { Fits base out.old at n }
    ensures { Put (numeral base n) out.old at out.new result }
{
    let mut room = [0u8; 10];
    let first = lay(&mut room, base, n);
    puts::put_bytes(out, at, &room[first..])
}

// Puts a number in decimal. With `put_hex` the two names of `put_numeral` for its callers: each asks for the room of its own base alone.
pub fn put_decimal(out: &mut [u8], at: usize, n: u32) -> usize
    requires { Fits 10 out.old at n }
    ensures { Put (numeral 10 n) out.old at out.new result }
{
    put_numeral(out, at, 10, n)
}

// Puts a number in hexadecimal.
pub fn put_hex(out: &mut [u8], at: usize, n: u32) -> usize
    requires { Fits 16 out.old at n }
    ensures { Put (numeral 16 n) out.old at out.new result }
{
    put_numeral(out, at, 16, n)
}
