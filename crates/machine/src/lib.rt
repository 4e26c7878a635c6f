// The key of a text, character by character: the states of a machine that reads each character once and looks at none ahead. Definitions in specs/, laws in proofs/.
#![tactic(auto)]

// what the last character of a block comment was; a character that ended a pair (/* or */) counts as plain
#[derive(Clone, Copy)]
pub enum Last {
    PlainChar,
    ASlash,
    AStar,
}

// What was read of the token that is begun, as far as it counts. `gap`: trivia stands right before this token, so that more of it writes nothing.
#[derive(Clone, Copy)]
pub enum Mode {
    // between two tokens; gap: the last one was trivia
    Start { gap: bool },
    // held back until it is known what begins: after /, //, ///, /* and /**
    OneSlash { gap: bool },
    TwoSlashes { gap: bool },
    ThreeSlashes { gap: bool },
    SlashStar { gap: bool },
    SlashStars { gap: bool },
    // in a line comment: a doc comment, which is written, and one that is none
    DocLine,
    PlainLine,
    // in a block comment, a doc comment or none, at the depth `depth` + 1
    Block { doc: bool, depth: u32, last: Last },
    // in an identifier, where emoji may still come; in one that has emoji in it; in a raw identifier, a forced keyword, a raw lifetime or a suffix, where emoji begin a new token
    InWord,
    InBadWord,
    InName,
    // after a literal: a suffix may come
    Suffix,
    // in a string, of any prefix, and after a backslash in it
    InString,
    StringEscape,
    // in a token that is known to be broken: nothing after it counts
    Broken,
    // after the letter r that begins a token, and after r#
    GotR,
    GotRHash,
    // after the letter k that begins a token; after k# and after 'r#, where a name may come
    GotK,
    GotNameHash,
    // after the letters b and c that begin a token, and after br and cr
    GotB,
    GotC,
    GotBR,
    // after # that begins a token
    GotHash,
    // after ' that begins a token; after b'; after the second of two quotes
    GotQuote,
    GotByteQuote,
    GotQuotes,
    // in single quotes, after / as the first character or after a newline: a quote has to come
    WantsQuote,
    // after ' and one character that may begin a name (`letter_r`: it is r), and further on in a lifetime
    QuotedName { letter_r: bool },
    InLifetime,
    // further on in single quotes, and after a backslash in them
    InQuotes,
    QuotesEscape,
    // a raw string: after its prefix and `hashes` hashes; in its body; in its body after a quote, where one hash and `more` others would close it
    RawHashes { hashes: u32 },
    RawBody { hashes: u32 },
    RawEnd { hashes: u32, more: u32 },
    // a number: after 0 that begins it; in decimal digits; after 0b or 0o, and after 0x (`some`: a digit came)
    GotZero,
    InDigits,
    InBased { some: bool },
    InHex { some: bool },
    // after the point; in the digits after it; after e; in the digits after it
    GotDot,
    InFraction,
    GotE,
    InExponent,
}

// The machine between two characters: its mode, the place of the token that is begun, and the place reached, both in bytes of the replaced text.
#[derive(Clone, Copy)]
pub struct State {
    pub mode: Mode,
    pub from: usize,
    pub at: usize,
}
