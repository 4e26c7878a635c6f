// The three lent lists of code points once they are checked, as one value: every pair in them keeps the rules (document 01, "What the build takes and what it leaves"), and
// whoever holds them may search them. In clauses they are the record of the book (crate `token`, specs/Lists): starts, continues, emoji.
#![tactic(auto)]

ghost use Rattle.std.specs.Prelude.{◌≡◌};
ghost use Rattle.ranges.specs.Rules.{Good};
ghost use Rattle.token.specs.Lists.{lent, none, starting, going, smiling};
ghost use Rattle.token.specs.Words.{in_invalid};

use std::marker::Model;
use text::CodePoint;

#[derive(Drop)]
pub struct Lists<'a> {
    starts: &'a [u32],
    continues: &'a [u32],
    emoji: &'a [u32],
}

impl<'a> Model for Lists<'a> {
    ghost use Rattle.ranges.specs.Rules.{Good};
    ghost use Rattle.token.specs.Lists.{lent};
    ghost use Rattle.token.specs.Lists as lists;

    ghost Value = { lists.Lists };

    ghost view = { λ l. lent l.starts.now l.continues.now l.emoji.now };

    ghost invariant = { λ l. Good l.starts.now × (Good l.continues.now × Good l.emoji.now) };
}

impl<'a> Lists<'a> {
    // Of lists that were checked.
    pub fn new(starts: &'a [u32], continues: &'a [u32], emoji: &'a [u32]) -> Lists<'a>
        requires { Good starts.now × (Good continues.now × Good emoji.now) }
        ensures { result ≡ lent starts.now continues.now emoji.now }
    {
        Lists {
            starts,
            continues,
            emoji,
        }
    }

    // Whether c starts an identifier.
    pub fn is_start(&self, c: CodePoint) -> bool
        ensures { result ≡ starting self.now c }
    {
        classes::id_start(c, self.starts)
    }

    // Whether c goes on in an identifier.
    pub fn is_continue(&self, c: CodePoint) -> bool
        ensures { result ≡ going self.now c }
    {
        classes::id_continue(c, self.continues)
    }

    // Whether c is an emoji character.
    pub fn is_emoji(&self, c: CodePoint) -> bool
        ensures { result ≡ smiling self.now c }
    {
        classes::emoji_char(c, self.emoji)
    }

    // Whether c goes on in an identifier that has emoji in it: emoji do, and the zero width joiner.
    pub fn is_invalid_part(&self, c: CodePoint) -> bool
        ensures { result ≡ in_invalid self.now c }
    {
        self.is_continue(c) || self.is_emoji(c) || c == 0x200D
    }
}

// Empty lists.
pub fn none() -> Lists<'static>
    ensures { result ≡ none }
{
    Lists::new(&[], &[], &[])
}
