// The list at the end of a commit or of a gossip: every word is read, the first 17 are kept.
ghost use Rattle.std.specs.Prelude.{◌≡◌, ◌+◌, ltb, set};
ghost use Rattle.model.specs.Lists.{pick};
ghost use Rattle.lines.specs.Lines.{items};
ghost use Rattle.lines.specs.Promises.{ahead, Listing};

use crate::numbers::Row;
use crate::words::Reader;
use crate::{Listed, Mistake, numbers};

impl Listed {
    // Keeps two numbers behind the others where there is room: how many are kept then.
    fn keep(&mut self, count: usize, a: u64, b: u64) -> usize
        ensures value { result ≡ pick (ltb count 17) (count + 1) count }
        ensures firsts_after { self.new.firsts ≡ set self.old.firsts count a }
        ensures seconds_after { self.new.seconds ≡ set self.old.seconds count b }
    {
        if count < 17 {
            self.firsts[count] = a;
            self.seconds[count] = b;
            return count + 1;
        }
        count
    }
}

// How many are kept.
pub fn read_list(words: &mut Reader<'_>, row: Row, listed: &mut Listed) -> Result<usize, Mistake>
    ensures { Listing (items row (ahead words.old)) result listed.new.firsts listed.new.seconds }
{
    let mut count: usize = 0;
    while let Some(span) = words.next_word() {
        let word = &words.text[span.from..span.to];
        let (a, b) = numbers::item_at(word, span.from + 1, row)?;
        count = listed.keep(count, a, b);
    }
    Ok(count)
}
