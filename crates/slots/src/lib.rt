// The tokens of a text as numbers in a lent run, five a token: kind code, suffix start, length, start, line. Every refusal is found, and the tokens are
// counted, before the first number is written.
#![tactic(auto)]

ghost use Rattle.std.specs.Prelude.{◌+◌, ◌*◌, ◌≤◌, [], ◌∷◌, length};
ghost use Rattle.token.specs.Lists.{lent};
ghost use Rattle.token.specs.Tokens.{records};
ghost use Rattle.puts.specs.Put.{Put};
ghost use Rattle.slots.specs.Numbers.{width, slot_of};
ghost use Rattle.slots.specs.Fills.{TokenFits, FilledSlots};
ghost use Rattle.slots.specs.Answers.{Slotted};

use lexer::Source;
use plan::ListRefusal;
use ranges::MAX_PAIRS;
use token::Token;

// A slot for a token: so many numbers.
pub const WIDTH: usize = 5;

// Puts the numbers of a slot at a place, and hands back the place past them: five stores, where a copy would first make the five an array. A run and the place in
// it stay two parameters: the run is the caller's, and each promise would have to say besides that a writer still holds it.
fn put_slot(slots: &mut [u32], n: usize, a: u32, b: u32, c: u32, d: u32, e: u32) -> usize
    requires { n + width ≤ length slots.old }
    ensures { Put (a ∷ b ∷ c ∷ d ∷ e ∷ []) slots.old n slots.new result }
{
    slots[n] = a;
    slots[n + 1] = b;
    slots[n + 2] = c;
    slots[n + 3] = d;
    slots[n + 4] = e;
    n + WIDTH
}

// Puts the numbers of a token, one of a text within the limit: its start is one of them whole, as is asked, so that `try_from` would have an error that cannot
// come.
pub fn put_token(slots: &mut [u32], n: usize, token: Token) -> usize
    requires { TokenFits slots.old n token }
    ensures { Put (slot_of token) slots.old n slots.new result }
{
    let kind = token.kind;
    let code = kinds::kind_code(kind);
    let suffix = kinds::suffix_of(kind);
    put_slot(
        slots,
        n,
        code,
        suffix,
        token.len,
        token.start as u32,
        token.line,
    )
}

// Writes the numbers of every token of a text that was checked into a run that has room for them.
// A loop of its own beside `list::fill`: in one for both, what is put and where the next one stands would be a closure, of which each promise would have to speak.
fn fill(source: &Source, on: bool, slots: &mut [u32])
    requires { width * length (records source.now.lists on source.now.text) ≤ length slots.old }
    ensures { FilledSlots source.now.lists source.now.text on slots.old slots.new }
{
    let text = source.text();
    let mut used: usize = 0;
    let mut scan = source.start(on);
    while scan.next < text.len() {
        scan = lexer::step(source, scan);
        used = put_token(slots, used, scan.token);
    }
}

// PUBLIC. The tokens of a text, a slot each, from the beginning of a lent run. Refusals 1, 3, 2 and 5 in this order; none of them writes a number. A run of
// n numbers has n / 5 slots.
pub fn tokens(
    text: &[u8],
    starts: &[u32],
    continues: &[u32],
    emoji: &[u32],
    on: bool,
    slots: &mut [u32],
) -> Result<usize, ListRefusal>
    ensures { Slotted MAX_PAIRS text.now (lent starts.now continues.now emoji.now) on slots.old slots.new result }
{
    let source = Source::new(text, starts, continues, emoji)?;
    let n = plan::fitting(&source, on, slots.len() / WIDTH)?;
    fill(&source, on, slots);
    Ok(n)
}
