// Operations 15 and 16: the list call.
ghost use Rattle.std.specs.Prelude.{◌≡◌, ◌≤◌, length, IfSome};

use crate::Lent;
use list::Records;
use token::{Token, TokenKind};

// What each record holds before the call. A Bang has one byte: no text has this token, so that a record that was written differs from one that was not.
fn blank() -> Token {
    Token {
        kind: TokenKind::Bang,
        len: 5,
        start: 3,
        line: 7,
    }
}

// Puts the three numbers of an answer, and after them the 64 records.
fn put_records(out: &mut [u8], records: Records) -> Option<usize>
    ensures { IfSome result (λ n. n ≤ length out.new) }
{
    let mut at = vectors::put_numbers(out, plan::list_numbers(records.answer))?;
    for token in records.tokens {
        at = crate::tokens::put_token(out, at, token, token.start)?;
    }
    Some(at)
}

// Operation 15: the list call over 64 records, and then what it answers and what each of them holds, past the answer too.
pub fn records(input: &[u8], lists: Lent, out: &mut [u8]) -> Option<usize>
    ensures { IfSome result (λ n. n ≤ length out.new) }
{
    let (on, text) = vectors::split_number(input)?;
    let records = list::tokenize_64(
        text,
        lists.starts,
        lists.continues,
        lists.emoji,
        on == 1,
        blank(),
    );
    put_records(out, records)
}

// Operation 16: the answer of the list call with n slots, by number.
pub fn slots(input: &[u8], lists: Lent, out: &mut [u8]) -> Option<usize>
    ensures { IfSome result (λ n. n ≤ length out.new) }
{
    let (on, rest) = vectors::split_number(input)?;
    let (slots, text) = vectors::split_number(rest)?;
    let plan = plan::plan_list(
        text,
        lists.starts,
        lists.continues,
        lists.emoji,
        on == 1,
        slots as usize,
    );
    vectors::put_numbers(out, plan::list_numbers(plan.answer))
}
