// Operations 1 and 2: whether a text is UTF-8.
ghost use Rattle.std.specs.Prelude.{◌≤◌, length, IfSome};

// Operation 1: the verdict on a text.
pub fn of_text(input: &[u8], out: &mut [u8]) -> Option<usize>
    ensures { IfSome result (λ n. n ≤ length out.new) }
{
    vectors::put_numbers(out, refusal::verdict_numbers(text::check_text(input)))
}

// The verdict on a text of fewer than 64 bytes as one byte: 0, or the place and 64 for each number of the cause.
fn as_byte(text: &[u8]) -> u8 {
    let n = refusal::verdict_numbers(text::check_text(text));
    (n.second % 4 * 64 + n.beside % 64) as u8
}

// The verdict on a text of at most 8 bytes followed by b. 255 for a longer one: each of the 256 answers is one byte.
// It stands in a room of nine bytes: there is no heap.
fn followed_by(text: &[u8], b: u8) -> u8 {
    if 8 < text.len() {
        return 255;
    }
    let mut longer = [0u8; 9];
    let n = puts::put_bytes(&mut longer, 0, text);
    let e = puts::put_byte(&mut longer, n, b);
    as_byte(&longer[..e])
}

// Operation 2: the verdicts on a text followed by each byte.
pub fn after_each(input: &[u8], out: &mut [u8]) -> Option<usize>
    ensures { IfSome result (λ n. n ≤ length out.new) }
{
    let verdicts = out.get_mut(..256)?;
    for (verdict, b) in verdicts.iter_mut().zip(0..=255) {
        *verdict = followed_by(input, b);
    }
    Some(256)
}
