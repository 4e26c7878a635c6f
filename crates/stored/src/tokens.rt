// Operations 9, 10 and 14: one token, and the tokens of a text.
ghost use Rattle.std.specs.Prelude.{◌≡◌, ◌+◌, ◌≤◌, length, IfSome};

use crate::Lent;
use lexer::{Scan, Source};
use token::Token;

// Puts the kind, the suffix and the length of a token at a place, one number more, and its line, and answers the place past them.
pub fn put_token(out: &mut [u8], at: usize, token: Token, more: usize) -> Option<usize>
    requires { at ≤ length out.old }
    ensures place { IfSome result (λ next. next ≡ at + 20) }
    ensures room { IfSome result (λ next. next ≤ length out.new) }
{
    let code = kinds::kind_code(token.kind) as usize;
    let suffix = kinds::suffix_of(token.kind) as usize;
    let ns = [code, suffix, token.len as usize, more, token.line as usize];
    vectors::put(out, at, &ns)
}

// Puts the eight numbers of a token that is given.
fn put_given(out: &mut [u8], scan: Scan) -> Option<usize>
    ensures { IfSome result (λ n. n ≤ length out.new) }
{
    let token = scan.token;
    let done = vectors::put(out, 0, &[0])?;
    let next = put_token(out, done, token, token.start)?;
    vectors::put(out, next, &[scan.next, usize::from(scan.on)])
}

// Operation 9: one token, by the call that checks everything.
pub fn one(input: &[u8], lists: Lent, out: &mut [u8]) -> Option<usize>
    ensures { IfSome result (λ n. n ≤ length out.new) }
{
    let (at, rest) = vectors::split_number(input)?;
    let (on, text) = vectors::split_number(rest)?;
    let answer = lexer::advance_token(
        text,
        lists.starts,
        lists.continues,
        lists.emoji,
        at as usize,
        on == 1,
    );
    match answer {
        Ok(scan) => put_given(out, scan),
        Err(_) => vectors::put_numbers(out, lexer::token_numbers(answer)),
    }
}

// Every token of a text by the call that checks everything. The last is Eof, the one token with no byte.
// So a length of 0 is the end, and that token is put too.
// A loop of its own beside `put_steps`: each tries another call, and this one can be refused at every token.
fn put_tokens(text: &[u8], lists: Lent, on: bool, out: &mut [u8]) -> Option<usize>
    ensures { IfSome result (λ n. n ≤ length out.new) }
{
    let mut scan = lexer::start(on);
    let mut at = 0;
    loop {
        let answer = lexer::advance_token(
            text,
            lists.starts,
            lists.continues,
            lists.emoji,
            scan.next,
            scan.on,
        );
        let Ok(next) = answer else {
            return vectors::put_numbers(out, lexer::token_numbers(answer));
        };
        at = put_token(out, at, next.token, usize::from(next.on))?;
        if next.token.len == 0 {
            return Some(at);
        }
        scan = next;
    }
}

// Operation 10: the tokens of a text, by the call that checks everything.
pub fn every(input: &[u8], lists: Lent, out: &mut [u8]) -> Option<usize>
    ensures { IfSome result (λ n. n ≤ length out.new) }
{
    let (on, text) = vectors::split_number(input)?;
    put_tokens(text, lists, on == 1, out)
}

// Every token of a text that was checked, from scan to scan. Eof is put too, and its length of 0 is the end: no other token is without a byte.
fn put_steps(source: &Source, on: bool, out: &mut [u8]) -> Option<usize>
    ensures { IfSome result (λ n. n ≤ length out.new) }
{
    let mut scan = source.start(on);
    let mut at = 0;
    loop {
        scan = lexer::step(source, scan);
        at = put_token(out, at, scan.token, usize::from(scan.on))?;
        if scan.token.len == 0 {
            return Some(at);
        }
    }
}

// Operation 14: the tokens of a text, by the step that checks the text once.
pub fn every_once(input: &[u8], lists: Lent, out: &mut [u8]) -> Option<usize>
    ensures { IfSome result (λ n. n ≤ length out.new) }
{
    let (on, text) = vectors::split_number(input)?;
    match Source::new(text, lists.starts, lists.continues, lists.emoji) {
        Ok(source) => put_steps(&source, on == 1, out),
        Err(bad) => vectors::put_numbers(out, refusal::bad_numbers(bad)),
    }
}
