// One character of the machine of crate `machine`, in any mode: what it does to the token before it, what begins with it, and both in one.
// Each mode has its function, as it has its rule in specs/: the `match` over the modes is the table. `Shallow` is asked and is no part of the type: `Mode` is the
// machine's own data, of which theorems speak with any depth.
// `gap` and `c`, and `c` and `lists`, travel as two, as the rules in specs/ take them: `gap` is told of the token before, and the lists are the same for every character.
#![tactic(auto)]

ghost use Rattle.std.specs.Prelude.{◌≡◌};
ghost use Rattle.machine.specs.declared.Mode.TheVariants.{Block};
ghost use Rattle.goes.specs.Went.{Went, Among, Shallow};
ghost use Rattle.turns.specs.First.{late_mode, other_mode, first_of};
ghost use Rattle.turns.specs.Held.{turn, newline_or, one_slash, two_slashes, three_slashes, slash_star, slash_stars};
ghost use Rattle.turns.specs.Turned.{Turned, token_modes};
ghost use Rattle.turns.specs.Steps.{Begins, Does};

use goes::Goes;
use lists::Lists;
use machine::{Last, Mode};
use text::CodePoint;

// What was held back and is written before it: a run of characters, told by name, as bytes would need room. `Nothing` is one of the seven runs: an Option would be matched twice.
#[derive(Clone, Copy)]
pub enum Before {
    Nothing,
    Newline,
    Slash,
    Slashes,
    Slashes3,
    Star,
    Stars,
}

// What a character does to the token before it, after what was held back.
#[derive(Clone, Copy)]
pub struct Turn {
    pub before: Before,
    pub goes: Goes,
}

// What is written for the character itself: it, one newline in place of a run of trivia, or nothing. With an Option of two cases `match` would be no plainer.
#[derive(Clone, Copy)]
pub enum Shown {
    Itself,
    Line,
    None,
}

// What a character does where a token begins: what is written, and the mode after it.
#[derive(Clone, Copy)]
pub struct First {
    pub shown: Shown,
    pub mode: Mode,
}

// What a character does: what is written, the mode after it, and whether a token begins with it. No Option for `begins`: the mode is there in either case.
#[derive(Clone, Copy)]
pub struct Stepped {
    pub before: Before,
    pub shown: Shown,
    pub mode: Mode,
    pub begins: bool,
}

// The mode after the first character of a token: punctuation, quotes, emoji, anything else.
fn late_mode(c: CodePoint, lists: &Lists) -> Mode
    ensures { result ≡ late_mode lists.now c }
{
    match c {
        0x23 => Mode::GotHash,
        0x27 => Mode::GotQuote,
        0x22 => Mode::InString,
        _ if lists.is_emoji(c) => Mode::InBadWord,
        _ => Mode::Start { gap: false },
    }
}

// The mode after the first character of a token that is no slash and no whitespace.
fn other_mode(c: CodePoint, lists: &Lists) -> Mode
    ensures { result ≡ other_mode lists.now c }
{
    match c {
        0x72 => Mode::GotR,
        0x6B => Mode::GotK,
        0x62 => Mode::GotB,
        0x63 => Mode::GotC,
        _ if lists.is_start(c) => Mode::InWord,
        0x30 => Mode::GotZero,
        0x31..=0x39 => Mode::InDigits,
        _ => late_mode(c, lists),
    }
}

// The first character of a token; `gap` says that trivia stands before it.
fn begins(gap: bool, c: CodePoint, lists: &Lists) -> First
    ensures { result ≡ first_of lists.now gap c }
{
    if c == 0x2F {
        First {
            shown: Shown::None,
            mode: Mode::OneSlash { gap },
        }
    } else if !classes::is_whitespace(c) {
        First {
            shown: Shown::Itself,
            mode: other_mode(c, lists),
        }
    } else if gap {
        First {
            shown: Shown::None,
            mode: Mode::Start { gap: true },
        }
    } else {
        First {
            shown: Shown::Line,
            mode: Mode::Start { gap: true },
        }
    }
}

// One newline for a run of trivia, unless it is written already.
pub fn newline_or(gap: bool) -> Before
    ensures { result ≡ newline_or gap }
{
    if gap {
        Before::Nothing
    } else {
        Before::Newline
    }
}

// What was held back, and the answer.
fn turned(before: Before, goes: Goes) -> Turn
    ensures { result ≡ turn before goes }
{
    Turn { before, goes }
}

// A block comment right after its first characters.
fn block(doc: bool, last: Last) -> Mode
    ensures { result ≡ Block doc 0 last }
{
    Mode::Block {
        doc,
        depth: 0,
        last,
    }
}

// After / (mode OneSlash).
fn one_slash(gap: bool, c: CodePoint) -> Turn
    ensures { result ≡ one_slash gap c }
{
    match c {
        0x2F => turned(Before::Nothing, Goes::Drops(Mode::TwoSlashes { gap })),
        0x2A => turned(Before::Nothing, Goes::Drops(Mode::SlashStar { gap })),
        _ => turned(Before::Slash, Goes::Ends(false)),
    }
}

// After // (mode TwoSlashes).
fn two_slashes(gap: bool, c: CodePoint) -> Turn
    ensures { result ≡ two_slashes gap c }
{
    match c {
        0x21 => turned(Before::Slashes, Goes::Takes(Mode::DocLine)),
        0x2F => turned(Before::Nothing, Goes::Drops(Mode::ThreeSlashes { gap })),
        _ => turned(newline_or(gap), comment_turns::plain_goes(c)),
    }
}

// After /// (mode ThreeSlashes): four slashes are no doc comment.
fn three_slashes(gap: bool, c: CodePoint) -> Turn
    ensures { result ≡ three_slashes gap c }
{
    match c {
        0x2F => turned(newline_or(gap), Goes::Drops(Mode::PlainLine)),
        _ => turned(Before::Slashes3, comment_turns::doc_goes(c)),
    }
}

// After /* (mode SlashStar).
fn slash_star(gap: bool, c: CodePoint) -> Turn
    ensures { result ≡ slash_star gap c }
{
    match c {
        0x21 => turned(Before::Star, Goes::Takes(block(true, Last::PlainChar))),
        0x2A => turned(Before::Nothing, Goes::Drops(Mode::SlashStars { gap })),
        _ => turned(
            newline_or(gap),
            Goes::Drops(block(false, comment_turns::last_of(c))),
        ),
    }
}

// After /** (mode SlashStars): /*** and /**/ are no doc comments.
fn slash_stars(gap: bool, c: CodePoint) -> Turn
    ensures { result ≡ slash_stars gap c }
{
    match c {
        0x2A | 0x2F => turned(
            newline_or(gap),
            Goes::Drops(comment_turns::star_block(false, 0, c)),
        ),
        _ => turned(
            Before::Stars,
            Goes::Takes(comment_turns::star_block(true, 0, c)),
        ),
    }
}

// IN A TOKEN that is no comment and not broken: in a word, in a number, or in quotes. Modes InWord and InString are not asked for.
fn in_token(mode: Mode, c: CodePoint, lists: &Lists) -> Goes
    requires { Among token_modes mode × Shallow mode }
    ensures { Went lists.now mode c result }
{
    match mode {
        Mode::InBadWord
        | Mode::InName
        | Mode::Suffix
        | Mode::GotR
        | Mode::GotRHash
        | Mode::GotK
        | Mode::GotNameHash
        | Mode::GotB
        | Mode::GotC
        | Mode::GotBR
        | Mode::GotHash => word_turns::in_word(mode, c, lists),
        Mode::GotZero
        | Mode::InDigits
        | Mode::InBased { .. }
        | Mode::InHex { .. }
        | Mode::GotDot
        | Mode::InFraction
        | Mode::GotE
        | Mode::InExponent => number_turns::in_number(mode, c, lists),
        _ => quote_turns::in_quoted(mode, c, lists),
    }
}

// ANY MODE: what a character does to the token before it. The modes in which most characters are read stand here, so that they are told by one `match`.
fn turn_of(mode: Mode, c: CodePoint, lists: &Lists) -> Turn
    requires { Shallow mode }
    ensures { Turned lists.now mode c result }
{
    let goes = match mode {
        Mode::Start { gap } => Goes::Ends(gap),
        Mode::OneSlash { gap } => return one_slash(gap, c),
        Mode::TwoSlashes { gap } => return two_slashes(gap, c),
        Mode::ThreeSlashes { gap } => return three_slashes(gap, c),
        Mode::SlashStar { gap } => return slash_star(gap, c),
        Mode::SlashStars { gap } => return slash_stars(gap, c),
        Mode::DocLine => comment_turns::doc_goes(c),
        Mode::PlainLine => comment_turns::plain_goes(c),
        Mode::Block { doc, depth, last } => comment_turns::block_goes(doc, depth, last, c),
        Mode::InWord => word_turns::word_goes(c, lists),
        Mode::InString => quote_turns::string_goes(c),
        Mode::Broken => Goes::Drops(Mode::Broken),
        _ => in_token(mode, c, lists),
    };
    turned(Before::Nothing, goes)
}

// A character with which a token begins, after what was held back.
fn step_first(before: Before, gap: bool, c: CodePoint, lists: &Lists) -> Stepped
    ensures { Begins lists.now.starts lists.now.emoji before gap c result }
{
    let first = begins(gap, c, lists);
    Stepped {
        before,
        shown: first.shown,
        mode: first.mode,
        begins: true,
    }
}

// ONE CHARACTER, in any mode.
pub fn step(mode: Mode, c: CodePoint, lists: &Lists) -> Stepped
    requires { Shallow mode }
    ensures { Does lists.now mode c result }
{
    let Turn { before, goes } = turn_of(mode, c, lists);
    let (shown, mode) = match goes {
        Goes::Takes(mode) => (Shown::Itself, mode),
        Goes::Drops(mode) => (Shown::None, mode),
        Goes::Ends(gap) => return step_first(before, gap, c, lists),
    };
    Stepped {
        before,
        shown,
        mode,
        begins: false,
    }
}
