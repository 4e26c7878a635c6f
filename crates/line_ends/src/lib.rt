// Line ends (document 02, W3): CR LF is read as LF, and CR CR LF is found, since a key refuses it.
#![tactic(auto)]

ghost use Rattle.std.specs.Prelude.{◌≡◌, ◌+◌, ◌<◌, length, drop};
ghost use Rattle.text.specs.Chars.{chars};
ghost use Rattle.line_ends.specs.LineEnds.{cr_lf, double_at, double_return};
ghost use Rattle.places.specs.Found.{found_at};

use text::{CodePoint, Decoded};

// Whether a character is a CR that LF follows; `next` is the place past it.
#[tactic(auto, using(crate::proofs::Places::lf_char, crate::proofs::Places::lf_end, crate::proofs::Places::lf_ill, crate::proofs::Places::lf_none))]
pub fn is_cr_lf(text: &[u8], c: CodePoint, next: usize) -> bool
    ensures { result ≡ cr_lf c (chars (drop next text.now)) }
{
    c == 0x0D
        && match text::decode(text, next) {
            Decoded::Char(d, _) => d == 0x0A,
            Decoded::End | Decoded::Ill(_) => false,
        }
}

// Where the first CR CR LF of a text begins.
#[tactic(auto, using(crate::proofs::Places::double_is))]
pub fn double_return(text: &[u8]) -> Option<usize>
    ensures { result ≡ found_at (double_return text.now) }
{
    (0..text.len()).find(
        |&i|
            requires { i < length text.now }
            ensures { result ≡ double_at (drop i text.entry.now) }
        { text[i..].starts_with(b"\r\r\n") },
    )
}
