// The machine of the key (crate `machine`) over a run of bytes, with CR LF read as LF: what is known of the key is laid into a lent buffer, or only
// counted. A key is measured and written by the same code.
//
// Whether bytes are written is an argument (`writing`): with a const parameter for it, and what is held back as one slice, it proved, and a key took half as much
// time again. A buffer and the place in it (`out`, `n`) stay two parameters, as a text and a position do: a writer that held both would borrow the buffer for as
// long as a state lives.
#![tactic(auto)]

ghost use Rattle.std.specs.Prelude.{◌≡◌, length};
ghost use Rattle.basics.specs.Choice.{pick};
ghost use Rattle.machine.specs.Machine.{step};
ghost use Rattle.turns.specs.Shown.{before_out};
ghost use Rattle.engine.specs.Laid.{Laid, Room};
ghost use Rattle.engine.specs.Chars.{step_bytes, Laying, CharFeeding, CharFed};
ghost use Rattle.engine.specs.Runs.{Feeding, Fed};
ghost use Rattle.engine.specs.Ends.{Ends};
ghost use Rattle.engine.specs.Closes.{Closing, Closed};
ghost use Rattle.engine.specs.Wholes.{KeyReady, KeyMade};

use lists::Lists;
use machine::{Mode, State};
use text::{CodePoint, Decoded};
use turns::{Before, Shown};

// Lays bytes at a place, and hands back the place past them.
fn lay(writing: bool, s: &[u8], out: &mut [u8], n: usize) -> usize
    requires { Room writing out.old n (length s.now) }
    ensures { Laid writing s.now out.old n out.new result }
{
    if writing {
        return puts::put_bytes(out, n, s);
    }
    n + s.len()
}

// What was held back.
fn lay_before(writing: bool, before: Before, out: &mut [u8], n: usize) -> usize
    requires { Room writing out.old n (length (before_out before)) }
    ensures { Laid writing (before_out before) out.old n out.new result }
{
    match before {
        Before::Nothing => n,
        Before::Newline => lay(writing, b"\n", out, n),
        Before::Slash => lay(writing, b"/", out, n),
        Before::Slashes => lay(writing, b"//", out, n),
        Before::Slashes3 => lay(writing, b"///", out, n),
        Before::Star => lay(writing, b"/*", out, n),
        Before::Stars => lay(writing, b"/**", out, n),
    }
}

// What was held back, and then what is shown of the character that stands from `i` to `next`.
fn lay_step(
    writing: bool,
    before: Before,
    shown: Shown,
    text: &[u8],
    i: usize,
    next: usize,
    out: &mut [u8],
    n: usize,
) -> usize
    requires { Laying writing before shown text.now i next out.old n }
    ensures { Laid writing (step_bytes before shown text.now i next) out.old n out.new result }
{
    let k = lay_before(writing, before, out, n);
    match shown {
        Shown::Itself => lay(writing, &text[i..next], out, k),
        Shown::Line => lay(writing, b"\n", out, k),
        Shown::None => k,
    }
}

// Where the token begun stands: here, if one begins here.
fn begun(begins: bool, here: usize, before: usize) -> usize
    ensures { result ≡ pick begins here before }
{
    if begins {
        return here;
    }
    before
}

// The mode after a character, the place of the token begun, and the place past what was laid. No `State`: the loop counts the bytes itself.
#[derive(Clone, Copy)]
pub struct Kept {
    pub mode: Mode,
    pub from: usize,
    pub n: usize,
}

// ONE CHARACTER, which stands from `i` to `next`.
fn feed_char(
    writing: bool,
    mode: Mode,
    from: usize,
    at: usize,
    c: CodePoint,
    text: &[u8],
    i: usize,
    next: usize,
    lists: &Lists,
    out: &mut [u8],
    n: usize,
) -> Kept
    requires { CharFeeding writing lists.now mode from at c text.now i next out.old n }
    ensures { CharFed writing (step lists.now from at mode c) out.old n out.new result }
{
    let stepped = turns::step(mode, c, lists);
    let before = stepped.before;
    let shown = stepped.shown;
    let after = stepped.mode;
    let past = lay_step(writing, before, shown, text, i, next, out, n);
    let place = begun(stepped.begins, at, from);
    Kept {
        mode: after,
        from: place,
        n: past,
    }
}

// What a run leaves: the machine's state, and the place past what was laid.
#[derive(Clone, Copy)]
pub struct Ran {
    pub state: State,
    pub n: usize,
}

// A RUN OF BYTES, from a state of the machine on. It ends at an ill-formed sequence, as its characters do. The parts of the state are locals of their own while
// it runs.
pub fn run(writing: bool, start: State, text: &[u8], lists: &Lists, out: &mut [u8]) -> Ran
    requires { Feeding writing lists.now start text.now out.old }
    ensures { Fed writing lists.now start text.now out.old out.new result }
{
    let mut mode = start.mode;
    let mut from = start.from;
    let mut at = start.at;
    let mut i: usize = 0;
    let mut n: usize = 0;
    // By position: `chars` of std is of a `str`, and two places go on, since CR LF is one byte of the replaced text.
    loop {
        match text::decode(text, i) {
            Decoded::Char(c, w) => {
                let next = i + w;
                if line_ends::is_cr_lf(text, c, next) {
                    i = next;
                    continue;
                }
                let kept = feed_char(writing, mode, from, at, c, text, i, next, lists, out, n);
                mode = kept.mode;
                from = kept.from;
                n = kept.n;
                at += w;
                i = next;
            }
            Decoded::End => break,
            Decoded::Ill(_) => break,
        }
    }
    Ran {
        state: State { mode, from, at },
        n,
    }
}

// THE END of a text: what was held back and is still to be written; or nothing is, since the token that has begun is not ended, and so is broken.
pub fn end_of(mode: Mode) -> Option<Before>
    ensures { Ends mode result }
{
    match mode {
        Mode::OneSlash { gap: _ } => Some(Before::Slash),
        Mode::TwoSlashes { gap } => Some(turns::newline_or(gap)),
        Mode::ThreeSlashes { gap: _ } => Some(Before::Slashes3),
        Mode::SlashStar { gap: _ }
        | Mode::SlashStars { gap: _ }
        | Mode::Block {
            doc: _,
            depth: _,
            last: _,
        }
        | Mode::InString
        | Mode::StringEscape
        | Mode::Broken
        | Mode::GotRHash
        | Mode::GotQuote
        | Mode::GotByteQuote
        | Mode::WantsQuote
        | Mode::InQuotes
        | Mode::QuotesEscape
        | Mode::RawHashes { hashes: _ }
        | Mode::RawBody { hashes: _ }
        | Mode::RawEnd { hashes: _, more: _ } => None,
        _ => Some(Before::Nothing),
    }
}

// That a text has no key: its first broken token begins there.
#[derive(Clone, Copy)]
pub struct Broken {
    pub start: usize,
}

// THE BYTES THAT ARE LEFT, from a state of the machine on, and then the end: how many bytes the rest of the key takes; where it is to be written, it is laid too.
pub fn close(
    writing: bool,
    start: State,
    text: &[u8],
    lists: &Lists,
    out: &mut [u8],
) -> Result<usize, Broken>
    requires { Closing writing lists.now start text.now out.old }
    ensures { Closed writing lists.now start text.now out.old out.new result }
{
    let ran = run(writing, start, text, lists, out);
    let state = ran.state;
    match end_of(state.mode) {
        None => Err(Broken { start: state.from }),
        Some(before) => Ok(lay_before(writing, before, out, ran.n)),
    }
}

// A WHOLE TEXT: how many bytes its key takes; where it is to be written, it is laid too.
pub fn whole(writing: bool, text: &[u8], lists: &Lists, out: &mut [u8]) -> Result<usize, Broken>
    requires { KeyReady writing lists.now text.now out.old }
    ensures { KeyMade writing lists.now text.now out.old out.new result }
{
    // The value of `begin` in the specs of `machine`, written out here and in `kept`: crate `machine` has types and no function.
    let begin = State {
        mode: Mode::Start { gap: false },
        from: 0,
        at: 0,
    };
    close(writing, begin, text, lists, out)
}
