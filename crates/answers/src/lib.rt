// What the keeper's command says of each call, in whole lines.
#![tactic(auto)]

mod hex;
pub mod line;
mod parts;
pub mod records;

ghost use Rattle.std.specs.Prelude.{◌≡◌, ◌≤◌, length};
ghost use Rattle.answers.specs.Hex.{bytes_line};
ghost use Rattle.answers.specs.Says.{room, answer_line, opened_line, page_line, known_line, standing_line, fault_line};

use crate::line::Line;
pub use line::ROOM;
use model::{Answer, Figures};

// "CODE NUMBER NAME\n"
pub fn answer_line(answer: Answer, line: &mut Line)
    ensures said { line.new ≡ answer_line answer }
    ensures short { length line.new ≤ room }
{
    line.clear();
    line.answered(answer);
    line.text(b"\n");
}

// The same, and behind it a page's sixteen words where the answer is Done.
pub fn page_line(answer: Answer, words: &[u64], line: &mut Line)
    ensures said { line.new ≡ page_line answer words.now }
    ensures short { length line.new ≤ room }
{
    line.clear();
    line.answered(answer);
    line.page(answer, words);
    line.text(b"\n");
}

// The same, and behind it the horizon, the last stamp and the stamps where the answer is Done and the stamps are at most 64.
pub fn known_line(answer: Answer, horizon: u64, last: u64, stamps: &[u64], line: &mut Line)
    ensures said { line.new ≡ known_line answer horizon last stamps.now }
    ensures short { length line.new ≤ room }
{
    line.clear();
    line.answered(answer);
    line.known(answer, horizon, last, stamps);
    line.text(b"\n");
}

// The same, and behind it the bytes in hexadecimal where there are any and at most 512.
pub fn bytes_line(answer: Answer, bytes: &[u8], line: &mut Line)
    ensures said { line.new ≡ bytes_line answer bytes.now }
    ensures short { length line.new ≤ room }
{
    line.clear();
    line.answered(answer);
    line.hex(bytes);
    line.text(b"\n");
}

// The same, and behind it the figures where the answer is Done: pending, past, snapshots, copies, and the lag with its sign.
pub fn standing_line(answer: Answer, figures: Figures, line: &mut Line)
    ensures said { line.new ≡ standing_line answer figures }
    ensures short { length line.new ≤ room }
{
    line.clear();
    line.answered(answer);
    line.standing(answer, figures);
    line.text(b"\n");
}

// "? TEXT at line L column C\n", with a hint before the end where there is no such call.
pub fn fault_line(fault: u64, line: u64, column: u64, said: &mut Line)
    ensures said { said.new ≡ fault_line fault line column }
    ensures short { length said.new ≤ room }
{
    said.clear();
    said.text(b"? ");
    said.fault(fault);
    said.position(line, column);
    said.hint(fault);
    said.text(b"\n");
}

// ": CODE NUMBER NAME\n", behind the name of what was opened.
pub fn opened_line(answer: Answer, line: &mut Line)
    ensures said { line.new ≡ opened_line answer }
    ensures short { length line.new ≤ room }
{
    line.clear();
    line.text(b": ");
    line.answered(answer);
    line.text(b"\n");
}
