// Lines of a journal. Each record reads as the call that it records, with its place and how many bytes it has in a comment.
ghost use Rattle.std.specs.Prelude.{◌≡◌, ◌++◌, ◌+◌, ◌*◌, ◌≤◌, length};
ghost use Rattle.answers.specs.Says.{room};
ghost use Rattle.answers.specs.Records.{write_text, writes_text, changes_text, few_text, comment_text, commit_line, gossip_line, flush_line, end_line, torn_line, refusal_line};

use crate::line::Line;
use model::Answer;

impl Line {
    // A space, an object and its value.
    fn write(&mut self, object: u64, value: u64)
        requires { length self.old + 42 ≤ room }
        ensures text { self.new ≡ self.old ++ write_text object value }
        ensures short { length self.new ≤ length self.old + 42 }
    {
        self.spaced(object);
        self.text(b"=");
        self.number(value);
    }

    // The writes, each object with the value at its place.
    fn writes(&mut self, objects: &[u64], values: &[u64])
        requires { (length objects.now ≡ length values.now) × (length self.old + 42 * length objects.now ≤ room) }
        ensures text { self.new ≡ self.old ++ writes_text objects.now values.now }
        ensures short { length self.new ≤ length self.old + 42 * length objects.now }
    {
        for (i, object) in objects.iter().enumerate() {
            self.write(*object, values[i]);
        }
    }

    // A commit's writes, where there are at most sixteen and each object has its value.
    fn changes(&mut self, objects: &[u64], values: &[u64])
        requires { length self.old + 672 ≤ room }
        ensures text { self.new ≡ self.old ++ changes_text objects.now values.now }
        ensures short { length self.new ≤ length self.old + 672 }
    {
        if objects.len() <= 16 && objects.len() == values.len() {
            self.writes(objects, values);
        }
    }

    // The numbers, where there are at most sixteen.
    fn few(&mut self, numbers: &[u64])
        requires { length self.old + 336 ≤ room }
        ensures text { self.new ≡ self.old ++ few_text numbers.now }
        ensures short { length self.new ≤ length self.old + 336 }
    {
        if numbers.len() <= 16 {
            self.words(numbers);
        }
    }

    // A record's place and how many bytes it has, and the line's end.
    fn comment(&mut self, offset: u64, size: u64)
        requires { length self.old + 46 ≤ room }
        ensures text { self.new ≡ self.old ++ comment_text offset size }
        ensures short { length self.new ≤ room }
    {
        self.text(b"  #");
        self.words(&[offset, size]);
        self.text(b"\n");
    }
}

// "commit STAMP O=V O=V  # OFFSET LENGTH\n"
pub fn commit_line(
    stamp: u64,
    objects: &[u64],
    values: &[u64],
    offset: u64,
    size: u64,
    line: &mut Line,
)
    ensures said { line.new ≡ commit_line stamp objects.now values.now offset size }
    ensures short { length line.new ≤ room }
{
    line.clear();
    line.text(b"commit ");
    line.number(stamp);
    line.changes(objects, values);
    line.comment(offset, size);
}

// "gossip PREV CURR S S  # OFFSET LENGTH\n"
pub fn gossip_line(prev: u64, curr: u64, stamps: &[u64], offset: u64, size: u64, line: &mut Line)
    ensures said { line.new ≡ gossip_line prev curr stamps.now offset size }
    ensures short { length line.new ≤ room }
{
    line.clear();
    line.text(b"gossip");
    line.words(&[prev, curr]);
    line.few(stamps);
    line.comment(offset, size);
}

// "flush PAGE  # OFFSET LENGTH\n"
pub fn flush_line(page: u64, offset: u64, size: u64, line: &mut Line)
    ensures said { line.new ≡ flush_line page offset size }
    ensures short { length line.new ≤ room }
{
    line.clear();
    line.text(b"flush ");
    line.number(page);
    line.comment(offset, size);
}

// "# PLACE end\n": nothing stands behind the last record.
pub fn end_line(place: u64, line: &mut Line)
    ensures said { line.new ≡ end_line place }
    ensures short { length line.new ≤ room }
{
    line.clear();
    line.text(b"# ");
    line.number(place);
    line.text(b" end\n");
}

// "# PLACE torn, COUNT bytes\n": these bytes are no whole record.
pub fn torn_line(place: u64, bytes: u64, line: &mut Line)
    ensures said { line.new ≡ torn_line place bytes }
    ensures short { length line.new ≤ room }
{
    line.clear();
    line.text(b"# ");
    line.number(place);
    line.text(b" torn, ");
    line.number(bytes);
    line.text(b" bytes\n");
}

// "# CODE NUMBER NAME\n": a record is refused.
pub fn refusal_line(answer: Answer, line: &mut Line)
    ensures said { line.new ≡ refusal_line answer }
    ensures short { length line.new ≤ room }
{
    line.clear();
    line.text(b"# ");
    line.answered(answer);
    line.text(b"\n");
}
