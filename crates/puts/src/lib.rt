// Bytes put into a lent buffer at a place: they stand there, and the rest is as it was. What is handed back is the place past them.
#![tactic(auto)]

ghost use Rattle.std.specs.Prelude.{◌+◌, ◌≤◌, [], ◌∷◌, length};
ghost use Rattle.puts.specs.Put.{Put};

// By index: the library's copy is a call of `memmove`, and what C links needs `memcpy` at most (tools/test-archive).
pub fn put_bytes(out: &mut [u8], at: usize, s: &[u8]) -> usize
    requires { at + length s.now ≤ length out.old }
    ensures { Put s.now out.old at out.new result }
{
    let mut i = 0;
    while i < s.len() {
        out[at + i] = s[i];
        i += 1;
    }
    at + i
}

pub fn put_byte(out: &mut [u8], at: usize, b: u8) -> usize
    requires { at + 1 ≤ length out.old }
    ensures { Put (b ∷ []) out.old at out.new result }
{
    out[at] = b;
    at + 1
}
