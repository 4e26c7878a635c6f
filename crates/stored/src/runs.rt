// Operations 3 to 8: the character classes over runs of numbers, and `is_ident`.
ghost use Rattle.std.specs.Prelude.{◌≤◌, length, IfSome};

use crate::Lent;
use refusal::Numbers;

// Numbers that no call gives: the answers of a run of numbers differ. Numbers, and no Option: they are put as an answer.
fn mixed() -> Numbers {
    refusal::refused(255, 0)
}

// The class call of an operation, of one number.
// By the number that the files of vectors have, here and below: it is known only when a vector is read.
fn class(operation: u32, c: u32, lists: Lent) -> Numbers {
    classes::answer_numbers(match operation {
        3 => Ok(classes::is_whitespace(c)),
        4 => Ok(classes::is_horizontal_whitespace(c)),
        5 => classes::is_id_start(c, lists.starts),
        6 => classes::is_id_continue(c, lists.continues),
        7 => classes::is_emoji_char(c, lists.emoji),
        _ => return mixed(),
    })
}

// The same of every number from low to high: the answer that all of them have.
fn class_run(operation: u32, low: u32, high: u32, lists: Lent) -> Numbers {
    let first = class(operation, low, lists);
    // the first one was asked already: a call checks its whole list, and most runs are of one number
    if (low..=high)
        .skip(1)
        .all(|c| class(operation, c, lists) == first)
    {
        first
    } else {
        mixed()
    }
}

// Operations 3 to 7: a class of every number from one to another. One that is not handed in is 0.
pub fn of_class(operation: u32, input: &[u8], lists: Lent, out: &mut [u8]) -> Option<usize>
    ensures { IfSome result (λ n. n ≤ length out.new) }
{
    let low = vectors::number(input, 0);
    let high = vectors::number(input, 4);
    vectors::put_numbers(out, class_run(operation, low, high, lists))
}

// Operation 8: whether a text is an identifier.
pub fn of_ident(input: &[u8], lists: Lent, out: &mut [u8]) -> Option<usize>
    ensures { IfSome result (λ n. n ≤ length out.new) }
{
    let answer = classes::is_ident(input, lists.starts, lists.continues);
    vectors::put_numbers(out, classes::answer_numbers(answer))
}
