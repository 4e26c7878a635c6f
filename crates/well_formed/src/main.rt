// Is standard input UTF-8? Writes `well-formed`, a tab and the number of bytes; or, where it is not, `refused`, a tab, 2, a tab, the
// place of the first ill-formed sequence, a tab and its cause: 1, its first byte cannot start one; 2, the input ends inside it; 3, a following byte is wrong.
// More than 262,144 bytes are refused as too long: `refused`, a tab, 1, a tab, 0.
#![tactic(auto)]

ghost use Rattle.std.specs.Prelude.{OnOk};
ghost use Rattle.std.specs.Io.KnownBytes.{Appends};
ghost use Rattle.well_formed.specs.Said.{said};

use refusal::Bad;
use std::io;
use std::io::Write;

// Writes what was found of a text of so many bytes.
fn say<W: Write>(to: &mut W, verdict: Result<(), Bad>, bytes: usize) -> io::Result<()>
    ensures { OnOk result (Appends (W.contents to.old) (W.contents to.new) (said verdict bytes)) }
{
    match verdict {
        Err(bad) => reports::say_why(to, bad),
        Ok(()) => writeln!(to, "well-formed\t{bytes}"),
    }
}

fn main(rt: HostRuntime) -> io::Result<()> {
    // a byte more than is read shows that input is longer; the room has a fixed size, and a number says how much of it is in use: there is no heap
    let mut buf: [u8; 262145] = input::filled(0);
    let n = input::read_full(&mut rt.stdin(), &mut buf)?;
    let mut to = rt.stdout();
    if 262144 < n {
        return reports::say_bad(&mut to, Bad::TooLong);
    }
    say(&mut to, text::check_text(&buf[..n]), n)
}
