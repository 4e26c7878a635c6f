// The answers of the calls in the form in which files of vectors store them: the operations of tools/oracle/README.md.
//
// Each function reads what is handed in, makes the call and puts its answer into out. It answers how many bytes that took, or nothing where what is handed
// in is too short or out has no room. Promised is that it stays within out; that the bytes are the right ones is
// judged by the stored answers, and by damaged ones, which must be seen to differ (tools/damaged-vectors).
// A usize has no `From` of a u32, so that it is made by `as`; where `as` makes a number smaller, a remainder before it has made it fit.
#![tactic(auto)]

mod checks;
mod files;
mod keys;
mod listing;
mod runs;
mod tokens;
mod verdicts;

ghost use Rattle.std.specs.Prelude.{◌≤◌, length, IfSome};

// The three lists that a section of a file lends. They and out, and the input and out, are handed on as two: each operation takes from the one and writes into
// the other, and a struct of both would be taken apart at once. Nothing is known of them: the calls check them.
#[derive(Clone, Copy)]
pub struct Lent<'a> {
    pub starts: &'a [u32],
    pub continues: &'a [u32],
    pub emoji: &'a [u32],
}

// The answer of an operation, put into out: how many bytes it took; nothing where there is no such operation.
// An operation is the number that stands in the file: an enum would be made of it and then matched, once each.
pub fn answer(operation: u32, input: &[u8], lists: Lent, out: &mut [u8]) -> Option<usize>
    ensures { IfSome result (λ n. n ≤ length out.new) }
{
    match operation {
        1 => verdicts::of_text(input, out),
        2 => verdicts::after_each(input, out),
        3..=7 => runs::of_class(operation, input, lists, out),
        8 => runs::of_ident(input, lists, out),
        9 => tokens::one(input, lists, out),
        10 => tokens::every(input, lists, out),
        11 => checks::shebang(input, out),
        12 => checks::raw(input, out),
        13 => checks::guarded(input, lists, out),
        14 => tokens::every_once(input, lists, out),
        15 => listing::records(input, lists, out),
        16 => listing::slots(input, lists, out),
        17 => keys::key_of(input, lists, out),
        18 => files::read(input, out),
        19 => files::write(input, lists, out),
        _ => None,
    }
}
