// The tokens of standard input, with empty lists and frontmatter off: a line a token, its kind and its length in bytes separated by a tab.
// More than 65,536 bytes are refused as too long: `refused`, a tab, 1, a tab, 0. Input that is not UTF-8 is refused likewise, as 2 and
// with the place of the first ill-formed sequence. A refused input gives no other line.
#![tactic(auto)]

use std::io;

// The input fills a part of a room of a fixed size: there is no heap.
// As print_key but for the call: a function for both would hold the room and take the call as a closure, which is no shorter than these lines.
fn main(rt: HostRuntime) -> io::Result<()> {
    let empty = [0u32; 0];
    let mut buf: [u8; printing::INPUT_ROOM] = input::filled(0);
    let n = input::read_full(&mut rt.stdin(), &mut buf)?;
    printing::say_tokens(&mut rt.stdout(), &buf[..n], &empty, &empty, &empty, false)
}
