// What a key in pieces holds between two calls (document 02, W13): the machine after what was read, the bytes that wait for more, how many bytes were handed in, and what the end
// call will refuse.
#![tactic(auto)]

use machine::State;
use refusal::Cause;

// The bytes that wait: CR, CR CR, or the first bytes of a character. Each count is a case: an array with a length beside it would be one state in many values, and
// `None` in an `Option` of it would say what `Nothing` says.
#[derive(Clone, Copy)]
pub enum Kept {
    Nothing,
    One(u8),
    Two(u8, u8),
    Three(u8, u8, u8),
}

// THE STATE. `count` is the number of bytes handed in, 4,294,967,296 where they are more than the limit (a number, as C holds it: no byte more has to be told apart then); `ill`, `double` and `mark` are the first ill-formed
// sequence, the first CR CR LF and the first hidden direction mark among the bytes that were read, as places of the whole text.
#[derive(Clone, Copy)]
pub struct KeyState {
    pub machine: State,
    pub kept: Kept,
    pub count: usize,
    pub ill: Option<(usize, Cause)>,
    pub double: Option<usize>,
    pub mark: Option<usize>,
}
