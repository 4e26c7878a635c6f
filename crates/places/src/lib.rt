// A place in a text as the code says it: the index at which something stands, if it does, an `Option<usize>`. What the definitions say is a `Place` of crate
// `eaters`; here is how the two go together, and the laws of a search from the left. No function.
#![tactic(auto)]
