// Operations 11 to 13: the shebang, the raw check and the guarded string.
ghost use Rattle.std.specs.Prelude.{◌≤◌, length, IfSome};

use crate::Lent;
use token::{GuardedStr, RawStrError};

// Operation 11: where a shebang ends; 0 for none.
pub fn shebang(input: &[u8], out: &mut [u8]) -> Option<usize>
    ensures { IfSome result (λ n. n ≤ length out.new) }
{
    let answer = shebang::strip_shebang(input);
    vectors::put_numbers(out, shebang::shebang_numbers(answer))
}

// The numbers of a raw check that was made: 0, which case it is, and what that names.
fn raw_six(checked: Result<(), RawStrError>) -> [usize; 6] {
    match checked {
        Ok(()) => [0, 0, 0, 0, 0, 0],
        Err(RawStrError::InvalidStarter { bad_char }) => [0, 1, bad_char as usize, 0, 0, 0],
        Err(
            RawStrError::NoTerminator {
                expected,
                found,
                possible_terminator_offset: None,
            },
        ) => [0, 2, expected as usize, found as usize, 0, 0],
        Err(
            RawStrError::NoTerminator {
                expected,
                found,
                possible_terminator_offset: Some(offset),
            },
        ) => [0, 2, expected as usize, found as usize, 1, offset as usize],
        Err(RawStrError::TooManyDelimiters { found }) => [0, 3, found as usize, 0, 0, 0],
    }
}

// Operation 12: the raw check after a prefix of n bytes.
pub fn raw(input: &[u8], out: &mut [u8]) -> Option<usize>
    ensures { IfSome result (λ n. n ≤ length out.new) }
{
    let (prefix, text) = vectors::split_number(input)?;
    let answer = strings::validate_raw_str(text, prefix as usize);
    match answer {
        Ok(checked) => vectors::put(out, 0, &raw_six(checked)),
        Err(_) => vectors::put_numbers(out, strings::raw_numbers(answer)),
    }
}

// The numbers of a guarded string that was looked for: 0, whether there is one, what it is, and the position past it.
fn guarded_six(found: Option<GuardedStr>, next: usize) -> [usize; 6] {
    match found {
        Some(g) => {
            let hashes = g.n_hashes as usize;
            let ends = usize::from(g.terminated);
            [0, 1, hashes, ends, g.token_len as usize, next]
        }
        None => [0, 0, 0, 0, 0, next],
    }
}

// Operation 13: the guarded string at a position.
pub fn guarded(input: &[u8], lists: Lent, out: &mut [u8]) -> Option<usize>
    ensures { IfSome result (λ n. n ≤ length out.new) }
{
    let (at, text) = vectors::split_number(input)?;
    let answer = strings::guarded_double_quoted_string(
        text,
        lists.starts,
        lists.continues,
        at as usize,
    );
    match answer {
        Ok(given) => vectors::put(out, 0, &guarded_six(given.found, given.next)),
        Err(_) => vectors::put_numbers(out, strings::guarded_numbers(answer)),
    }
}
