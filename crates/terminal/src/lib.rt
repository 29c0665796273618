// What the two commands share: the words that they are started with, lines of input, answers, and the status for the script.
#![tactic(auto)]

pub mod hex;
pub mod input;
pub mod say;
pub mod serve;
pub mod start;
pub mod under;
pub mod words;

ghost use Rattle.io.specs.Counts.{IsPrefixLen};

// A count of list entries, and no more than there are.
pub fn entries(count: usize, list: &[u64]) -> usize
    ensures { IsPrefixLen result list.now }
{
    count.min(list.len())
}
