// What a character does to the token before it: the answer that the crates of the turns give, mode by mode, and the suffix of a literal, with which several of them end.
#![tactic(auto)]

ghost use Rattle.std.specs.Prelude.{◌≡◌};
ghost use Rattle.goes.specs.Suffix.{suffix_goes};

use lists::Lists;
use machine::Mode;
use text::CodePoint;

// What a character does to the token before it: it belongs to it and is written; it belongs to it, and nothing is written; or the token ended before it, and whether that was trivia.
// Three answers, each with what it holds: no Option and no Result says them.
#[derive(Clone, Copy)]
pub enum Goes {
    Takes(Mode),
    Drops(Mode),
    Ends(bool),
}

// After a literal (mode Suffix). Three functions of crate `word_turns` have this shape: the class and the mode are all that they say.
pub fn suffix_goes(c: CodePoint, lists: &Lists) -> Goes
    ensures { result ≡ suffix_goes lists.now c }
{
    if lists.is_start(c) {
        Goes::Takes(Mode::InName)
    } else {
        Goes::Ends(false)
    }
}
