// What the programs write where they refuse: one line. Where a write fails its error is the answer, the only one there is; a beginning of the line may then have
// been written. No contract can say what reaches a program's standard output: the gate compares it.
#![tactic(auto)]

ghost use Rattle.std.specs.Prelude.{OnOk};
ghost use Rattle.std.specs.Io.KnownBytes.{Appends};
ghost use Rattle.refusal.specs.Numbers.{bad_numbers};
ghost use Rattle.reports.specs.Lines.{refused_numbers, refused_line, why_line, lists_line};

use refusal::{Bad, Numbers};
use std::io;
use std::io::Write;

// Writes `refused`, the number of the refusal and the number beside it, separated by tabs.
fn say_numbers<W: Write>(to: &mut W, n: Numbers) -> io::Result<()>
    ensures { OnOk result (Appends (W.contents to.old) (W.contents to.new) (refused_numbers n)) }
{
    write!(to, "refused\t{}\t{}", n.number, n.beside)
}

// The same, as a line.
pub fn say_refused<W: Write>(to: &mut W, n: Numbers) -> io::Result<()>
    ensures { OnOk result (Appends (W.contents to.old) (W.contents to.new) (refused_line n)) }
{
    say_numbers(to, n)?;
    to.write_all(b"\n")
}

// The same for a refusal that calls share.
pub fn say_bad<W: Write>(to: &mut W, bad: Bad) -> io::Result<()>
    ensures { OnOk result (Appends (W.contents to.old) (W.contents to.new) (refused_line (bad_numbers bad))) }
{
    say_refused(to, refusal::bad_numbers(bad))
}

// The same, and after it, where the text is not UTF-8, a tab and the cause.
pub fn say_why<W: Write>(to: &mut W, bad: Bad) -> io::Result<()>
    ensures { OnOk result (Appends (W.contents to.old) (W.contents to.new) (why_line bad)) }
{
    say_numbers(to, refusal::bad_numbers(bad))?;
    if let Bad::NotUtf8(_, cause) = bad {
        write!(to, "\t{}", refusal::cause_number(cause))?;
    }
    to.write_all(b"\n")
}

// What a program writes where the file of lists that it reads is refused: `lists`, the number of the refusal and the two numbers beside it, separated by
// tabs, as a line. No key and no line of a token begins so.
pub fn say_lists<W: Write>(to: &mut W, n: Numbers) -> io::Result<()>
    ensures { OnOk result (Appends (W.contents to.old) (W.contents to.new) (lists_line n)) }
{
    writeln!(to, "lists\t{}\t{}\t{}", n.number, n.beside, n.second)
}
