// The cursor: a place in a text, as a value that each move hands back. Its place is shut in this crate: a scan holds no width and no sum.
//
// Nothing is asked of the text or of the place: where no character can be read, there is the end.
// The text and a cursor into it stay two parameters: a cursor that held its text would be three words in every answer, and each promise would have to say besides that
// the text is the same.
#![tactic(auto)]

ghost use Rattle.std.specs.Prelude.{◌≤◌, ◌≡◌, get_or, drop};
ghost use Rattle.cursor.specs.declared.Kinded.TheVariants as kinded;
ghost use Rattle.cursor.specs.Cursors.{rest, Seen};
ghost use Rattle.cursor.specs.Moved.{Moved};
ghost use Rattle.cursor.specs.Wanted.{AteWhile};
ghost use Rattle.cursor.specs.Counted.{Counted};

use text::{CodePoint, Decoded};
use token::{LiteralKind, TokenKind};

#[derive(Clone, Copy)]
pub struct Cursor {
    at: usize,
}

// What a rule of the book gives: the kind of the token, and the cursor past it. This struct and the next ones stay apart: the second field of each says by
// its name what was found, and one struct over any type would be no plainer.
#[derive(Clone, Copy)]
pub struct Lexed {
    pub kind: TokenKind,
    pub next: Cursor,
}

// The kind of a token whose place is not known yet: a literal's has the cursor at which its suffix starts.
#[derive(Clone, Copy)]
pub enum Kinded {
    Plain(TokenKind),
    Literal(LiteralKind, Cursor),
}

// What a rule of the book gives that may be a literal: the kind, and the cursor past the token.
#[derive(Clone, Copy)]
pub struct Scanned {
    pub kind: Kinded,
    pub next: Cursor,
}

impl Scanned {
    // A token that is not a literal and ends at the cursor.
    pub fn plain(kind: TokenKind, next: Cursor) -> Scanned
        ensures { result ≡ record { kind = kinded.Plain kind; next = next } }
    {
        Scanned {
            kind: Kinded::Plain(kind),
            next,
        }
    }
}

impl From<Lexed> for Scanned {
    ghost from_gives = { λ lexed scanned. scanned ≡ record { kind = kinded.Plain lexed.kind; next = lexed.next } };

    fn from(lexed: Lexed) -> Scanned {
        Scanned::plain(lexed.kind, lexed.next)
    }
}

// What a search for an end gives: the cursor past it, and whether it was found. No Option: the cursor is given in either case.
#[derive(Clone, Copy)]
pub struct Ended {
    pub next: Cursor,
    pub terminated: bool,
}

// What a character that is repeated gives: the cursor past it, and how many times it stands there.
#[derive(Clone, Copy)]
pub struct Repeated {
    pub next: Cursor,
    pub count: usize,
}

// A count as one of 000's numbers: the one place at which it becomes a u32. It fits, as is asked, so that `try_from` would have an error that cannot come.
pub fn narrow(n: usize) -> u32
    requires { n ≤ 4294967295 }
    ensures { result ≡ n }
{
    n as u32
}

impl Cursor {
    // The cursor at a place of a text.
    pub fn new(place: usize) -> Cursor
        ensures { result.at ≡ place }
    {
        Cursor { at: place }
    }

    // Its place.
    pub fn place(self) -> usize
        ensures { result ≡ self.at }
    {
        self.at
    }

    // The next character and the cursor past it; nothing at the end. So a NUL is not the end. ASCII is answered before anything else: most
    // characters are.
    pub fn peek(self, text: &[u8]) -> Option<(CodePoint, Cursor)>
        ensures { Seen text.now self result }
    {
        let at = self.at;
        if at < text.len() {
            let b = text[at];
            if b < 0x80 {
                let past = Cursor { at: at + 1 };
                return Some((u32::from(b), past));
            }
        }
        self.peek_far(text)
    }

    // The same of any character, by the decoder.
    fn peek_far(self, text: &[u8]) -> Option<(CodePoint, Cursor)>
        ensures { Seen text.now self result }
    {
        let at = self.at;
        match text::decode(text, at) {
            Decoded::Char(c, w) => {
                let next = Cursor { at: at + w };
                Some((c, next))
            }
            Decoded::End => None,
            Decoded::Ill(_) => None,
        }
    }

    // The next character; 0 where there is none, as 000's `first` says it.
    pub fn first(self, text: &[u8]) -> CodePoint
        ensures { result ≡ get_or (rest text.now self) 0 0 }
    {
        self.peek(text).map_or(0, |(c, _)| c)
    }

    // Past the next character, if there is one.
    pub fn bump(self, text: &[u8]) -> Cursor
        ensures { Moved text.now self result (drop 1 (rest text.now self)) }
    {
        let Some((_, next)) = self.peek(text) else {
            return self;
        };
        next
    }

    // Past the next `count` characters, as far as there are some.
    pub fn eat(self, text: &[u8], count: usize) -> Cursor
        ensures { Moved text.now self result (drop count (rest text.now self)) }
    {
        let mut cur = self;
        for _ in 0..count {
            cur = cur.bump(text);
        }
        cur
    }

    // Past all characters at the cursor of which the closure says that they are wanted.
    pub fn eat_while<F: Fn(CodePoint) -> bool>(self, text: &[u8], wanted: F) -> Cursor
        requires { F.IsAlwaysCallable wanted }
        ensures { AteWhile (F.post wanted) text.now self result }
    {
        let mut cur = self;
        while let Some((c, next)) = cur.peek(text) {
            if !wanted(c) {
                return cur;
            }
            cur = next;
        }
        cur
    }

    // Past all characters at the cursor that are `wanted`, and how many they are: a loop of its own, since `eat_while` does not count.
    pub fn eat_repeated(self, text: &[u8], wanted: CodePoint) -> Repeated
        ensures { Counted wanted text.now self result }
    {
        let mut cur = self;
        let mut count: usize = 0;
        while let Some((c, next)) = cur.peek(text) {
            if c != wanted {
                return Repeated { next: cur, count };
            }
            cur = next;
            count += 1;
        }
        Repeated { next: cur, count }
    }

    // The second next character; 0 where there is none, as 000's `second` says it.
    pub fn second(self, text: &[u8]) -> CodePoint
        ensures { result ≡ get_or (rest text.now self) 1 0 }
    {
        self.bump(text).first(text)
    }
}
