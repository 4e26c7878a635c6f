// The tokens of a text as records in a lent run: 000's `tokenize`.
#![tactic(auto)]

ghost use Rattle.std.specs.Prelude.{◌≡◌, ◌++◌, ◌≤◌, length, drop, get_or};
ghost use Rattle.token.specs.Lists.{lent};
ghost use Rattle.lexer.specs.Steps.{following};
ghost use Rattle.lexer.specs.Ready.{Lined};
ghost use Rattle.list.specs.Records.{Tokenized, records_of};

use lexer::{Scan, Source};
use plan::ListRefusal;
use ranges::MAX_PAIRS;
use token::Token;

// The tokens of n scans past a scan, into the first n records; the others keep their values. The index is the scan's number too, so that `out[..n].iter_mut()`
// would hide it from the promise, and take as many lines.
fn fill(source: &Source, s: Scan, out: &mut [Token], n: usize)
    requires { (n ≤ length out.old) × Lined source.now.text s }
    ensures { out.new ≡ following source.now.lists source.now.text n s ++ drop n out.old }
{
    let mut c = s;
    for i in 0..n {
        c = lexer::step(source, c);
        out[i] = c.token;
    }
}

// PUBLIC. The tokens of a text, without Eof, into a lent run of records: 000's `tokenize`, with the frontmatter flag handed in. Refusals 1, 3, 2 and
// 5 in this order; where it refuses, no record is written.
pub fn tokenize(
    text: &[u8],
    starts: &[u32],
    continues: &[u32],
    emoji: &[u32],
    on: bool,
    out: &mut [Token],
) -> Result<usize, ListRefusal>
    ensures { Tokenized MAX_PAIRS text.now (lent starts.now continues.now emoji.now) on out.old result out.new }
{
    let source = Source::new(text, starts, continues, emoji)?;
    let n = plan::fitting(&source, on, out.len())?;
    fill(&source, source.start(on), out, n);
    Ok(n)
}

// PUBLIC. The record at an index, or `none` past the end.
pub fn get(records: &[Token], i: usize, none: Token) -> Token
    ensures { result ≡ get_or records.now i none }
{
    records.get(i).copied().unwrap_or(none)
}

// The answer, and 64 records by value: no `Vec`, since no call has a heap.
#[derive(Drop)]
pub struct Records {
    pub answer: Result<usize, ListRefusal>,
    pub tokens: [Token; 64],
}

// The list call over 64 records that start as `blank`, for callers that lend none.
pub fn tokenize_64(
    text: &[u8],
    starts: &[u32],
    continues: &[u32],
    emoji: &[u32],
    on: bool,
    blank: Token,
) -> Records
    ensures { result ≡ records_of MAX_PAIRS text.now (lent starts.now continues.now emoji.now) on blank }
{
    let mut tokens = [blank; 64];
    let answer = tokenize(text, starts, continues, emoji, on, &mut tokens);
    Records { answer, tokens }
}
