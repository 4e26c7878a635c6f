// What the list call answers: every refusal is found, and the tokens are counted, before the first record is written. `fitting` is what the calls that write go by;
// `plan_list` tells the answer for any number of slots, and what is written then, to a caller who lends no run.
#![tactic(auto)]

ghost use Rattle.std.specs.Prelude.{◌≡◌, length};
ghost use Rattle.token.specs.Lists.{lent};
ghost use Rattle.token.specs.Tokens.{records};
ghost use Rattle.plan.specs.Answers.{roomed, list_answer, list_numbers};
ghost use Rattle.plan.specs.Plans.{planned_of, plan_of};
ghost use Rattle.plan.specs.declared.ListRefusal.TheVariants.{Shared};

use lexer::{Scan, Source};
use ranges::MAX_PAIRS;
use refusal::{Bad, Numbers};

// The refusals of the list call: fewer slots than tokens (5), with the number of tokens; or one that calls share (1, 3, 2).
#[derive(Clone, Copy)]
pub enum ListRefusal {
    Slots(usize),
    Shared(Bad),
}

impl From<Bad> for ListRefusal {
    ghost from_gives = { λ bad refusal. refusal ≡ Shared bad };

    fn from(bad: Bad) -> ListRefusal {
        ListRefusal::Shared(bad)
    }
}

// The answer of the list call by number: done, with the number of tokens, or the refusal. Named as its rule, as the guide has it, and no `From`: neither type is
// this crate's.
pub fn list_numbers(answer: Result<usize, ListRefusal>) -> Numbers
    ensures { result ≡ list_numbers answer }
{
    match answer {
        Ok(tokens) => refusal::done(tokens, 0),
        Err(ListRefusal::Slots(needed)) => refusal::refused(5, needed),
        Err(ListRefusal::Shared(bad)) => refusal::bad_numbers(bad),
    }
}

// What the list call answers, how many records it writes then, and the scan before the first of them. All three stand here, since they are what `plan_list` promises;
// that this many steps from this scan on give what the call promises is a law (proofs/Planning). No call here goes by a plan.
#[derive(Clone, Copy)]
pub struct Plan {
    pub answer: Result<usize, ListRefusal>,
    pub n: usize,
    pub first: Scan,
}

// The number of tokens of a text that was checked, in one pass. The position goes on by a token's bytes: a `for` over the tokens would want an iterator that holds
// the source, and as many lines.
fn count(source: &Source, on: bool) -> usize
    ensures { result ≡ length (records source.now.lists on source.now.text) }
{
    let text = source.text();
    let mut n: usize = 0;
    let mut at: usize = 0;
    let mut here = on;
    while at < text.len() {
        let token = lexer::bare_token(source, at, here);
        at = token.next;
        here = token.on;
        n += 1;
    }
    n
}

// The number of tokens of a text that was checked, if there are so many slots: refusal 5.
pub fn fitting(source: &Source, on: bool, slots: usize) -> Result<usize, ListRefusal>
    ensures { result ≡ roomed (length (records source.now.lists on source.now.text)) slots }
{
    let needed = count(source, on);
    if slots < needed {
        return Err(ListRefusal::Slots(needed));
    }
    Ok(needed)
}

// An answer, and n records from the first token on.
fn planned(answer: Result<usize, ListRefusal>, n: usize, on: bool) -> Plan
    ensures { result ≡ planned_of on answer n }
{
    let first = lexer::start(on);
    Plan { answer, n, first }
}

// The answer of the list call with `slots` slots: refusals 1, 3, 2 and 5 in this order. It checks the lists, and so it takes the three.
fn answer_of(
    text: &[u8],
    starts: &[u32],
    continues: &[u32],
    emoji: &[u32],
    on: bool,
    slots: usize,
) -> Result<usize, ListRefusal>
    ensures { result ≡ list_answer MAX_PAIRS text.now (lent starts.now continues.now emoji.now) on slots }
{
    let source = Source::new(text, starts, continues, emoji)?;
    fitting(&source, on, slots)
}

// PUBLIC. What the list call answers with `slots` slots, and how many records it writes then: none where it refuses. It is told, and nothing is written;
// `list::tokenize` and `slots::tokens` go by `fitting`.
pub fn plan_list(
    text: &[u8],
    starts: &[u32],
    continues: &[u32],
    emoji: &[u32],
    on: bool,
    slots: usize,
) -> Plan
    ensures { result ≡ plan_of MAX_PAIRS text.now (lent starts.now continues.now emoji.now) on slots }
{
    let answer = answer_of(text, starts, continues, emoji, on, slots);
    planned(answer, answer.unwrap_or(0), on)
}
