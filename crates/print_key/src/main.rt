// The key of standard input, with empty lists and frontmatter off: its bytes and nothing else. A text without a key gives one line instead:
// `refused`, a tab, the number of the refusal, a tab, the number beside it. Refused are more than 65,536 bytes (1), input that is not UTF-8 (2,
// with the place of the first ill-formed sequence) and a text with a broken token (6, with the place of the first).
#![tactic(auto)]

use std::io;

// The input fills a part of a room of a fixed size: there is no heap.
// As print_tokens but for the call: a function for both would hold the room and take the call as a closure, which is no shorter than these lines.
fn main(rt: HostRuntime) -> io::Result<()> {
    let empty = [0u32; 0];
    let mut buf: [u8; printing::INPUT_ROOM] = input::filled(0);
    let n = input::read_full(&mut rt.stdin(), &mut buf)?;
    printing::say_key(&mut rt.stdout(), &buf[..n], &empty, &empty, &empty)
}
