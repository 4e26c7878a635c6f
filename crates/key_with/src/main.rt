// The key of standard input, read with the lists of the file that the first argument names, and frontmatter off: its bytes and nothing else. A text
// without a key gives one line instead, as in print_key; and where the file of lists is refused, or cannot be read, there is one line on that
// (`loading`), whatever the text is.
#![tactic(auto)]

use std::io;

// As tokens_with but for the call: a function for both would hold the rooms and take the call as a closure of four slices, which is no shorter than these lines.
// Each room has a fixed size, and a number says how much of it is in use: there is no heap.
fn main(rt: HostRuntime) -> io::Result<()> {
    let mut starts = loading::list_room();
    let mut continues = loading::list_room();
    let mut emoji = loading::list_room();
    let mut to = rt.stdout();
    let Some(held) = loading::load(&rt, &mut to, &mut starts, &mut continues, &mut emoji)? else {
        return Ok(());
    };
    let mut buf: [u8; printing::INPUT_ROOM] = input::filled(0);
    let n = input::read_full(&mut rt.stdin(), &mut buf)?;
    printing::say_key(
        &mut to,
        &buf[..n],
        &starts[..held.starts],
        &continues[..held.continues],
        &emoji[..held.emoji],
    )
}
