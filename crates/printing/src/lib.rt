// What the programs write of a text: a line a token, or the key; or, where the text is refused, one line that says why. More than 65,536 bytes are
// refused as too long. Where a write fails its error is the answer, the only one there is; a beginning of what was to be written may then have been. No contract can
// say what reaches a program's standard output: the gate compares it.
#![tactic(auto)]

ghost use Rattle.std.specs.Prelude.{◌+◌, ◌≤◌, ◌≡◌, length, take, false, IfOk, OnOk};
ghost use Rattle.token.specs.Lists.{lent};
ghost use Rattle.std.specs.Io.KnownBytes.{Appends};
ghost use Rattle.lexer.specs.Steps.{start_of};
ghost use Rattle.lines.specs.Lines.{lines_from};
ghost use Rattle.printing.specs.Said.{lined_past, token_lines, tokens_said, key_said};
ghost use Rattle.printing.specs.Written.{Written};

use lexer::Source;
use ranges::MAX_PAIRS;
use refusal::Bad;
use std::io;
use std::io::Write;

// The room for the input, and for one byte more, which shows that input is longer.
pub const INPUT_ROOM: usize = 65537;

// Writes the lines of a text that was checked part by part, each as long as the room. A part that stands still is the end: every token but
// Eof has a byte, and the room takes a line at least. So no `Option` need say it.
// `used` says how much of the room a part takes, here and in `say_lined`: there is no heap.
fn say_lines<W: Write>(to: &mut W, source: &Source) -> io::Result<()>
    ensures { OnOk result (Appends (W.contents to.old) (W.contents to.new) (lines_from source.now.lists source.now.text 0)) }
{
    let mut out: [u8; 16384] = input::filled(0);
    let mut at = 0;
    // by position, part by part: each says where the next one begins
    loop {
        let chunk = lines::fill(source, at, &mut out);
        if chunk.next == at {
            return Ok(());
        }
        to.write_all(&out[..chunk.used])?;
        at = chunk.next;
    }
}

// Writes what is in the room, which is a part of a fixed array, as there is no heap, and begins it anew, where one more line might not
// fit. What is answered is how much is then in it.
fn emptied<W: Write>(to: &mut W, out: &[u8], used: usize) -> io::Result<usize>
    requires { (used ≤ length out.now) × (44 ≤ length out.now) }
    ensures room { IfOk result (λ n. n + 44 ≤ length out.now) }
    ensures bytes { IfOk result (λ n. Written (W.contents to.old) (W.contents to.new) (take n out.now) (take used out.now)) }
{
    if out.len() - used < 44 {
        to.write_all(&out[..used])?;
        return Ok(0);
    }
    Ok(used)
}

// Writes the lines of a text that was checked, each with the line feeds before its token.
fn say_lined<W: Write>(to: &mut W, source: &Source) -> io::Result<()>
    ensures { OnOk result (Appends (W.contents to.old) (W.contents to.new) (lined_past source.now.lists source.now.text (start_of false))) }
{
    let mut out: [u8; 16384] = input::filled(0);
    let mut used: usize = 0;
    let text = source.text();
    let mut scan = source.start(false);
    // from scan to scan: each says where the next one begins
    while scan.next < text.len() {
        scan = lexer::step(source, scan);
        let token = scan.token;
        let free = emptied(to, &out, used)?;
        used = token_line::put_lined(&mut out, free, token.kind, token.len, token.line);
    }
    to.write_all(&out[..used])
}

// Writes the lines of a text that was checked, in one form or the other.
// `lined`, here and below, is what a program's argument says, known only when it runs: each form has its function.
fn say_checked<W: Write>(to: &mut W, source: &Source, lined: bool) -> io::Result<()>
    ensures { OnOk result (Appends (W.contents to.old) (W.contents to.new) (token_lines source.now.lists source.now.text lined)) }
{
    if lined {
        say_lined(to, source)
    } else {
        say_lines(to, source)
    }
}

// Writes the tokens of a text, with frontmatter off: a line a token, its kind and its length in bytes separated by a tab, and, if `lined`, the line feeds
// before it after one more tab. Or why it is refused: `refused`, a tab, the number of the refusal, a tab, the number beside it.
pub fn say_tokens<W: Write>(
    to: &mut W,
    text: &[u8],
    starts: &[u32],
    continues: &[u32],
    emoji: &[u32],
    lined: bool,
) -> io::Result<()>
    ensures { OnOk result (Appends (W.contents to.old) (W.contents to.new) (tokens_said MAX_PAIRS text.now (lent starts.now continues.now emoji.now) lined)) }
{
    if 65536 < text.len() {
        return reports::say_bad(to, Bad::TooLong);
    }
    match Source::new(text, starts, continues, emoji) {
        Ok(source) => say_checked(to, &source, lined),
        Err(bad) => reports::say_bad(to, bad),
    }
}

// Writes the key of a text: its bytes and nothing else. Or why it has none, as above. No key begins as such a line does: a tab is whitespace, and of
// whitespace a key has newlines only. A key is no longer than its text: the room of 65,536 bytes is enough, and the answer says how much of it the key takes.
pub fn say_key<W: Write>(
    to: &mut W,
    text: &[u8],
    starts: &[u32],
    continues: &[u32],
    emoji: &[u32],
) -> io::Result<()>
    ensures { OnOk result (Appends (W.contents to.old) (W.contents to.new) (key_said MAX_PAIRS text.now (lent starts.now continues.now emoji.now))) }
{
    if 65536 < text.len() {
        return reports::say_bad(to, Bad::TooLong);
    }
    let mut out: [u8; 65536] = input::filled(0);
    let answer = key::key(text, starts, continues, emoji, &mut out);
    match answer {
        Ok(bytes) => to.write_all(&out[..bytes]),
        Err(_) => reports::say_refused(to, key::key_numbers(answer)),
    }
}
