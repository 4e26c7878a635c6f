// The tokens of standard input, read with the lists of the file that the first argument names, and frontmatter off: a line a token. Where the second
// argument is the word `lines`, each line has the number of line feeds before its token too, after one more tab. A text that is refused gives one line instead, as in print_tokens; and where the file of lists is refused, or cannot be read, there is one line on that
// (`loading`), whatever the text is.
#![tactic(auto)]

use std::env::Env;
use std::io;

// Whether the second argument is the word `lines`. It fills a part of a room of a fixed size: there is no heap.
fn wants_lines<R: Env>(rt: &R) -> bool {
    let mut word: [u8; 4096] = input::filled(0);
    match rt.arg(2, &mut word) {
        Ok(n) => fields::is_word(&word[..n], b"lines"),
        Err(_) => false,
    }
}

// As key_with but for the call: a function for both would hold the rooms and take the call as a closure of four slices, which is no shorter than these lines.
// Each room has a fixed size, and a number says how much of it is in use: there is no heap.
fn main(rt: HostRuntime) -> io::Result<()> {
    let mut starts = loading::list_room();
    let mut continues = loading::list_room();
    let mut emoji = loading::list_room();
    let mut to = rt.stdout();
    let Some(held) = loading::load(&rt, &mut to, &mut starts, &mut continues, &mut emoji)? else {
        return Ok(());
    };
    let mut buf: [u8; printing::INPUT_ROOM] = input::filled(0);
    let n = input::read_full(&mut rt.stdin(), &mut buf)?;
    printing::say_tokens(
        &mut to,
        &buf[..n],
        &starts[..held.starts],
        &continues[..held.continues],
        &emoji[..held.emoji],
        wants_lines(&rt),
    )
}
