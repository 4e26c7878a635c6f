// Hidden direction marks (document 02, W6): where the first one of a text stands, since a key refuses it.
#![tactic(auto)]

ghost use Rattle.std.specs.Prelude.{◌≡◌, ◌<◌, length, drop};
ghost use Rattle.text.specs.Chars.{WellFormed};
ghost use Rattle.places.specs.Found.{found_at};
ghost use Rattle.marks.specs.Marks.{hidden, hidden_mark};
ghost use Rattle.marks.specs.Front.{mark_at};

use text::{CodePoint, Decoded};

// Whether a character is a hidden direction mark.
pub fn is_hidden(c: CodePoint) -> bool
    ensures { result ≡ hidden c }
{
    matches!(c, 0x202A..=0x202E | 0x2066..=0x2069)
}

// Whether a hidden direction mark stands at a place. The first byte of each is E2 (RFC 3629), so that no other is looked at.
#[tactic(auto, using(crate::proofs::Places::mark_other, crate::proofs::Places::mark_char, crate::proofs::Places::mark_end, crate::proofs::Places::mark_ill))]
fn mark_at(text: &[u8], at: usize) -> bool
    requires { at < length text.now }
    ensures { result ≡ mark_at (drop at text.now) }
{
    text[at] == 0xE2 && matches!(text::decode(text, at), Decoded::Char(c, _) if is_hidden(c))
}

// Where the first hidden direction mark of a text that was checked stands. Eight bytes of ASCII are taken in one turn, and else one byte:
// no iterator of std goes on by both.
#[tactic(auto, using(places::proofs::Searches::none_before, crate::proofs::Places::mark_found, crate::proofs::Places::mark_on, crate::proofs::Places::mark_run, crate::proofs::Places::mark_none))]
pub fn hidden_mark(text: &[u8]) -> Option<usize>
    requires { WellFormed text.now }
    ensures { result ≡ found_at (hidden_mark text.now) }
{
    let mut at = 0;
    while at < text.len() {
        if text::eight_ascii(text, at) {
            at += 8;
            continue;
        }
        if mark_at(text, at) {
            return Some(at);
        }
        at += 1;
    }
    None
}
