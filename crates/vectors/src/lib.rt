// Files of stored test vectors: where their parts are, and numbers in their form. tools/oracle/README.md describes the format.
//
// A file is lent as bytes, and nothing is believed of it: a part that would run past the end is not there. What is promised is what the replay
// needs: every part lies within the file, and every answer within the buffer. That the numbers are read and put as they have to be is
// judged by the stored answers themselves.
#![tactic(auto)]

ghost use Rattle.std.specs.Prelude.{◌≡◌, ◌+◌, ◌*◌, ◌≤◌, length, IfSome, MatchOption, ◌<◌, drop};
ghost use Rattle.vectors.specs.Placed.{Placed, VectorPlaced};

use refusal::Numbers;

// A part of a file, from its first place to the place past it. Places, and no slice of the file: the replay names the place of a vector that differs, and the
// clauses say where each part lies.
#[derive(Clone, Copy)]
pub struct Part {
    pub from: usize,
    pub to: usize,
}

// A vector: the operation, by the number that the file has (crate `stored` knows them), what is handed in and the answer.
#[derive(Clone, Copy)]
pub struct Vector {
    pub operation: u32,
    pub input: Part,
    pub answer: Part,
}

// The number in the first four bytes, lowest first, and the bytes after it.
pub fn split_number(s: &[u8]) -> Option<(u32, &[u8])>
    ensures rest { MatchOption result (length s.now < 4) (λ r. r.1.now ≡ drop 4 s.now) }
    ensures room { IfSome result (λ r. length r.1.now + 4 ≡ length s.now) }
{
    let (four, rest) = s.split_first_chunk::<4>()?;
    Some((u32::from_le_bytes(*four), rest))
}

// The number in the four bytes at a place.
pub fn number_at(s: &[u8], at: usize) -> Option<u32>
    ensures { IfSome result (λ n. at + 4 ≤ length s.now) }
{
    let (n, _) = split_number(s.get(at..)?)?;
    Some(n)
}

// The same; 0 where the bytes are not there, as operations 3 to 7 and 19 take what is not handed in.
pub fn number(s: &[u8], at: usize) -> u32 {
    number_at(s, at).unwrap_or(0)
}

// n bytes, after the four bytes at a place.
fn after_number(s: &[u8], at: usize, n: usize) -> Option<Part>
    requires { at + 4 ≤ length s.now }
    ensures { IfSome result (Placed (length s.now) at) }
{
    let from = at + 4;
    if s.len() - from < n {
        return None;
    }
    Some(Part { from, to: from + n })
}

// A number at a place, and as many bytes after it as it says.
// Apart from `numbers_at`: in one function the bytes of an item would be an argument, for a body of two lines. `as`, since a usize has no `From` of a u32.
fn bytes_at(s: &[u8], at: usize) -> Option<Part>
    ensures { IfSome result (Placed (length s.now) at) }
{
    let n = number_at(s, at)?;
    after_number(s, at, n as usize)
}

// A number at a place, and as many numbers after it as it says.
pub fn numbers_at(s: &[u8], at: usize) -> Option<Part>
    ensures { IfSome result (Placed (length s.now) at) }
{
    let n = number_at(s, at)?;
    after_number(s, at, n as usize * 4)
}

// The vector at a place.
pub fn vector_at(s: &[u8], at: usize) -> Option<Vector>
    ensures { IfSome result (VectorPlaced (length s.now) at) }
{
    let operation = number_at(s, at)?;
    let input = bytes_at(s, at + 4)?;
    let answer = bytes_at(s, input.to)?;
    Some(Vector {
        operation,
        input,
        answer,
    })
}

// Copies the numbers of a part into out, as many as both have, and answers how many.
pub fn load(s: &[u8], part: Part, out: &mut [u32]) -> usize
    ensures { result ≤ length out.new }
{
    let bytes = s.get(part.from..part.to).unwrap_or(&[]);
    let (numbers, _) = bytes.as_chunks::<4>();
    for (place, four) in out.iter_mut().zip(numbers) {
        *place = u32::from_le_bytes(*four);
    }
    numbers.len().min(out.len())
}

// Puts the low four bytes of numbers at a place, lowest first, and answers the place past them; where there is no room for all of them it puts nothing.
pub fn put(out: &mut [u8], at: usize, ns: &[usize]) -> Option<usize>
    requires { at ≤ length out.old }
    ensures place { IfSome result (λ next. next ≡ at + length ns.now * 4) }
    ensures room { IfSome result (λ next. next ≤ length out.new) }
{
    if (out.len() - at) / 4 < ns.len() {
        return None;
    }
    for (four, n) in out[at..].chunks_exact_mut(4).zip(ns) {
        four.copy_from_slice(&n.to_le_bytes()[..4]);
    }
    Some(at + ns.len() * 4)
}

// Puts the three numbers of an answer into out and answers how many bytes that took.
// `as`, since a usize has no `From` of a u32.
pub fn put_numbers(out: &mut [u8], n: Numbers) -> Option<usize>
    ensures { IfSome result (λ next. next ≤ length out.new) }
{
    put(out, 0, &[n.number as usize, n.beside, n.second])
}
