// What this command writes besides what both do: pages, figures, how a journal's walk ends. An answer is false where standard output takes no more, after
// a word on standard error.
use answers::line::Line;
use model::{Answer, Figures};
use std::io::IsTerminal;
use terminal::say::{digits, line, text};

pub fn page(rt: &HostRuntime, a: Answer, words: &[u64]) -> bool {
    let mut said = Line::new();
    answers::page_line(a, words, &mut said);
    line(rt, &said)
}

// On a terminal the figures' names stand under them.
pub fn standing(rt: &HostRuntime, a: Answer, figures: Figures) -> bool {
    let mut told = Line::new();
    answers::standing_line(a, figures, &mut told);
    let said = line(rt, &told);
    if said && a.is_done() && rt.stdout().is_terminal() {
        return text(rt, b"# pending, past, snapshots, copies, lag\n");
    }
    said
}

pub fn refused_beyond(rt: &HostRuntime, used: u64) -> bool {
    text(rt, b"? the journal has ") && digits(rt, used) && text(rt, b" bytes\n")
}

// ---- how a journal's walk ends
pub fn end(rt: &HostRuntime, place: u64) -> bool {
    let mut said = Line::new();
    answers::records::end_line(place, &mut said);
    line(rt, &said)
}

pub fn torn(rt: &HostRuntime, place: u64, bytes: u64) -> bool {
    let mut said = Line::new();
    answers::records::torn_line(place, bytes, &mut said);
    line(rt, &said)
}

pub fn refusal(rt: &HostRuntime, a: Answer) -> bool {
    let mut said = Line::new();
    answers::records::refusal_line(a, &mut said);
    line(rt, &said)
}
