// The lent lists of code points (document 01, "What the build takes and what it leaves"): pairs of low and high code point.
// A list is handed in as numbers, low and high in turn. `check_list` says whether it obeys the rules; the search asks for a list that does.
#![tactic(auto)]

ghost use Rattle.std.specs.Prelude.{◌≡◌};
ghost use Rattle.ranges.specs.Rules.{good_pair, flaw_from, flaw, list_verdict, Good};
ghost use Rattle.ranges.specs.Search.{in_pairs};

use refusal::Bad;

// The most pairs that a list may have. It stands here alone: code and contracts read it, and proofs/Limit says which number it is.
pub const MAX_PAIRS: usize = 8192;

// Whether a pair covers one of the points from first to last.
#[tactic(auto, unfolding(crate::specs::Rules::meets))]
fn meets(first: u32, last: u32, low: u32, high: u32) -> bool
    ensures { result ≡ Rattle.ranges.specs.Rules.meets first last low high }
{
    low <= last && first <= high
}

// Whether a pair covers none of those points that no list may hold but the surrogates, which lie above all others.
#[tactic(auto, unfolding(crate::specs::Rules::below))]
fn below(low: u32, high: u32) -> bool
    ensures { result ≡ Rattle.ranges.specs.Rules.below low high }
{
    !meets(0x85, 0x85, low, high)
        && !meets(0x200E, 0x200F, low, high)
        && !meets(0x2028, 0x2029, low, high)
}

// Whether a pair covers none of the points that no list may hold. Most pairs of a list lie above all of them but the surrogates, so that one look tells.
#[tactic(auto, unfolding(crate::specs::Rules::clear))]
fn clear(low: u32, high: u32) -> bool
    ensures { result ≡ Rattle.ranges.specs.Rules.clear low high }
{
    !meets(0xD800, 0xDFFF, low, high) && (0x2029 < low || below(low, high))
}

// Whether a pair obeys the rules after a pair that ends at `previous` (0 before the first one).
#[tactic(auto, unfolding(crate::specs::Rules::good_pair))]
pub fn good_pair(previous: u32, low: u32, high: u32) -> bool
    ensures { result ≡ good_pair previous low high }
{
    low <= high && high <= 0x10FFFF && 0x80 <= low && previous < low && clear(low, high)
}

// The first pair from the left that breaks a rule, then a half pair: its index.
fn pairs_flaw(list: &[u32]) -> Option<usize>
    ensures { result ≡ flaw_from 0 0 list.now }
{
    let mut previous = 0;
    let mut k = 0;
    let mut rest = list;
    while let [low, high, more @ ..] = rest {
        if !good_pair(previous, *low, *high) {
            return Some(k);
        }
        previous = *high;
        k += 1;
        rest = more;
    }
    if rest.is_empty() {
        return None;
    }
    Some(k)
}

// The count first, then the pairs.
#[tactic(auto, unfolding(crate::specs::Rules::flaw))]
fn list_flaw(list: &[u32]) -> Option<usize>
    ensures { result ≡ flaw MAX_PAIRS list.now }
{
    if MAX_PAIRS < list.len() / 2 {
        return Some(MAX_PAIRS);
    }
    pairs_flaw(list)
}

// The check of list number `which` (0 id start, 1 id continue, 2 emoji): refusal 3.
// The number is the one that the C interface reports (`Bad::List`): an enum would be turned into it here.
#[tactic(auto, unfolding(crate::specs::Rules::list_verdict))]
pub fn check_list(which: usize, list: &[u32]) -> Result<(), Bad>
    ensures { result ≡ list_verdict MAX_PAIRS which list.now }
{
    match list_flaw(list) {
        None => Ok(()),
        Some(pair) => Err(Bad::List(which, pair)),
    }
}

// Whether a pair of a good list holds c. The range is halved: the pairs before `begin` lie below c, those from `end` on above it. A turn leaves at most
// half of the pairs between them, so that fewer than 2^k pairs take at most k turns (proofs/Turns; of a list that was let through, proofs/Limit).
// By hand: the search of std promises nothing of its turns. The numbers stand side by side as the C interface lends them.
pub fn in_pairs(c: u32, list: &[u32]) -> bool
    requires { Good list.now }
    ensures { result ≡ in_pairs c list.now }
{
    let mut begin = 0;
    let mut end = list.len() / 2;
    while begin < end {
        let middle = begin + (end - begin) / 2;
        let low = list[middle * 2];
        let high = list[middle * 2 + 1];
        if c < low {
            end = middle;
        } else if high < c {
            begin = middle + 1;
        } else {
            return true;
        }
    }
    false
}
