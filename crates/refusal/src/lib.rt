// The refusals that calls share (document 01, "When the build says no"): 1, 3 and 2, as one error that is handed on whole: a check is a `Result<(), Bad>`.
// A call with refusals of its own has an error enum that holds `Shared(bad)` beside its own cases, and a definition that gives
// the numbers of each case, made from `bad_numbers`.
#![tactic(auto)]

ghost use Rattle.std.specs.Prelude.{◌≡◌};
ghost use Rattle.refusal.specs.Order.{in_order, lists_in_order};
ghost use Rattle.refusal.specs.Numbers.{numbers, cause_number, bad_numbers, verdict_numbers};
ghost use Rattle.refusal.specs.declared.PlaceRefusal.TheVariants.{Shared};

// Why a sequence of bytes is no character (document 02, W2). Its bytes are judged from the left, and the first that cannot stand where it stands,
// or the end of the text if that comes first, is the cause.
#[derive(Clone, Copy)]
pub enum Cause {
    // its first byte cannot start a sequence
    Start,
    // the text ends inside the sequence
    Cut,
    // a following byte is wrong; overlong forms, surrogates and values past U+10FFFF are that
    Follow,
}

#[derive(Clone, Copy)]
pub enum Bad {
    // the text has more than 4,294,967,295 bytes
    TooLong,
    // a list breaks a rule: the list, by the number that the C interface gives it (0 id start, 1 id continue, 2 emoji), and the index of the pair
    List(usize, usize),
    // the text is not UTF-8: the start of the first ill-formed sequence, and its cause
    NotUtf8(usize, Cause),
}

// The refusals of a call at a position of a text: it is past the end or inside a character (4), or one that calls share. Each call with refusals of its own
// has such an enum: one type over those, `Own(..)` or `Shared(..)`, would stand around each name that the guide gives a refusal.
#[derive(Clone, Copy)]
pub enum PlaceRefusal {
    Position(usize),
    Shared(Bad),
}

impl From<Bad> for PlaceRefusal {
    ghost from_gives = { λ bad refusal. refusal ≡ Shared bad };

    fn from(bad: Bad) -> PlaceRefusal {
        PlaceRefusal::Shared(bad)
    }
}

// A refusal by number: its number in document 01's table (0: done), and the numbers beside it, 0 where there is none.
// Numbers and no enum, here and below, as the C interface hands them out: the enums above hold what is refused.
#[derive(Clone, Copy, PartialEq, Eq)]
pub struct Numbers {
    pub number: u32,
    pub beside: usize,
    pub second: usize,
}

// Done, with the numbers that a call reports.
pub fn done(beside: usize, second: usize) -> Numbers
    ensures { result ≡ numbers 0 beside second }
{
    Numbers {
        number: 0,
        beside,
        second,
    }
}

// A refusal with the one number beside it.
pub fn refused(number: u32, beside: usize) -> Numbers
    ensures { result ≡ numbers number beside 0 }
{
    Numbers {
        number,
        beside,
        second: 0,
    }
}

// The numbers of the C interface (docs/GUIDE), here and below. Functions with names and no `From`: the definition that each gives has the same name (specs/Numbers).
pub fn cause_number(cause: Cause) -> usize
    ensures { result ≡ cause_number cause }
{
    match cause {
        Cause::Start => 1,
        Cause::Cut => 2,
        Cause::Follow => 3,
    }
}

pub fn bad_numbers(bad: Bad) -> Numbers
    ensures { result ≡ bad_numbers bad }
{
    match bad {
        Bad::TooLong => refused(1, 0),
        Bad::List(list, pair) => Numbers {
            number: 3,
            beside: list,
            second: pair,
        },
        Bad::NotUtf8(place, cause) => Numbers {
            number: 2,
            beside: place,
            second: cause_number(cause),
        },
    }
}

pub fn verdict_numbers(verdict: Result<(), Bad>) -> Numbers
    ensures { result ≡ verdict_numbers verdict }
{
    match verdict {
        Ok(()) => done(0, 0),
        Err(bad) => bad_numbers(bad),
    }
}

// A refusal at a position by number.
pub fn place_numbers(refusal: PlaceRefusal) -> Numbers
    ensures { result ≡ Rattle.refusal.specs.Numbers.place_numbers refusal }
{
    match refusal {
        PlaceRefusal::Position(at) => refused(4, at),
        PlaceRefusal::Shared(bad) => bad_numbers(bad),
    }
}

// The refusals that calls share, in the order of document 01's table: the first one that holds. A call hands in `Ok` for what it does not check.
pub fn in_order(
    long: Result<(), Bad>,
    lists: Result<(), Bad>,
    utf8: Result<(), Bad>,
) -> Result<(), Bad>
    ensures { result ≡ in_order long lists utf8 }
{
    long.and(lists).and(utf8)
}

// Refusal 3 for the three lists, in their order. The body of `in_order` under a name of its own: the order of the refusals and that of the lists are
// two rules of document 01, and each has its definition (specs/Order).
pub fn lists_in_order(
    start: Result<(), Bad>,
    goes_on: Result<(), Bad>,
    emoji: Result<(), Bad>,
) -> Result<(), Bad>
    ensures { result ≡ lists_in_order start goes_on emoji }
{
    start.and(goes_on).and(emoji)
}
