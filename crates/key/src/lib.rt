// The key of a text (document 01, "The key"; document 02, W3 and W6), put into a lent buffer. It is the key of the replaced text, in which each CR LF is LF. Every
// refusal is found, and the key is measured, before the first byte is written; each pass reads each byte of the text a fixed number of times.
#![tactic(auto)]

ghost use Rattle.std.specs.Prelude.{◌≡◌};
ghost use Rattle.token.specs.Lists.{lent};
ghost use Rattle.key.specs.Answers.{key_numbers, CheckedKeying, Keying};
ghost use Rattle.key.specs.declared.KeyRefusal.TheVariants.{Broken, Shared};

use lexer::Source;
use ranges::MAX_PAIRS;
use refusal::{Bad, Numbers};

// The refusals of the key call: CR CR LF (10), with the place of the first in the text; a hidden direction mark (11), likewise; a broken token (6), with the start
// of the first in the replaced text; fewer bytes than the key has (7), with the bytes that it has; or one that calls share (1, 3, 2).
#[derive(Clone, Copy)]
pub enum KeyRefusal {
    DoubleReturn(usize),
    HiddenMark(usize),
    Broken(usize),
    Room(usize),
    Shared(Bad),
}

impl From<Bad> for KeyRefusal {
    ghost from_gives = { λ bad refusal. refusal ≡ Shared bad };

    fn from(bad: Bad) -> KeyRefusal {
        KeyRefusal::Shared(bad)
    }
}

impl From<engine::Broken> for KeyRefusal {
    ghost from_gives = { λ broken refusal. refusal ≡ Broken broken.start };

    fn from(broken: engine::Broken) -> KeyRefusal {
        KeyRefusal::Broken(broken.start)
    }
}

// The answer of the key call by number: done, with the key's bytes, or the refusal. Named as its rule, as the guide has it, and no `From`: neither type is this
// crate's.
pub fn key_numbers(answer: Result<usize, KeyRefusal>) -> Numbers
    ensures { result ≡ key_numbers answer }
{
    match answer {
        Ok(n) => refusal::done(n, 0),
        Err(KeyRefusal::DoubleReturn(at)) => refusal::refused(10, at),
        Err(KeyRefusal::HiddenMark(at)) => refusal::refused(11, at),
        Err(KeyRefusal::Broken(at)) => refusal::refused(6, at),
        Err(KeyRefusal::Room(n)) => refusal::refused(7, n),
        Err(KeyRefusal::Shared(bad)) => refusal::bad_numbers(bad),
    }
}

// The key of a text that was checked, and in which no CR CR LF and no hidden mark stands: refusals 6 and 7 in this order, or the key.
fn checked_key(source: &Source, out: &mut [u8]) -> Result<usize, KeyRefusal>
    ensures { CheckedKeying source.now.text source.now.lists out.old out.new result }
{
    let text = source.text();
    let lists = source.lists();
    let bytes = engine::whole(false, text, lists, out)?;
    if out.len() < bytes {
        return Err(KeyRefusal::Room(bytes));
    }
    Ok(engine::whole(true, text, lists, out)?)
}

// PUBLIC. The key of a text, in the first bytes of a lent buffer. Refusals 1, 3, 2, 10, 11, 6 and 7 in this order; none of them writes a byte.
pub fn key(
    text: &[u8],
    starts: &[u32],
    continues: &[u32],
    emoji: &[u32],
    out: &mut [u8],
) -> Result<usize, KeyRefusal>
    ensures { Keying MAX_PAIRS text.now (lent starts.now continues.now emoji.now) out.old out.new result }
{
    let source = Source::new(text, starts, continues, emoji)?;
    if let Some(at) = line_ends::double_return(text) {
        return Err(KeyRefusal::DoubleReturn(at));
    }
    if let Some(at) = marks::hidden_mark(text) {
        return Err(KeyRefusal::HiddenMark(at));
    }
    checked_key(&source, out)
}
