// How many line feeds a run of bytes has: the count on which the line of a token rests.
#![tactic(auto)]

ghost use Rattle.std.specs.Prelude.{◌≡◌, ◌≤◌, length};
ghost use Rattle.line_feeds.specs.Feeds.{line_feeds};

// The line feeds among bytes, which are no more than a text may have. A loop with a test is made one over sixteen bytes at a time, and `filter(..).count()` is not:
// the line of a token far into a text is a count of all bytes before it.
pub fn count(bytes: &[u8]) -> u32
    requires { length bytes.now ≤ 4294967295 }
    ensures { result ≡ line_feeds bytes.now }
{
    let mut n: u32 = 0;
    for b in bytes {
        if *b == 0x0A {
            n += 1;
        }
    }
    n
}
