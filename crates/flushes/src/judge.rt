// The verdict on a flush, by what it would leave.
ghost use Rattle.std.specs.Prelude.{◌≡◌, [], ◌+◌, ◌≤◌, length, take};
ghost use Rattle.model.specs.Lists.{kept};
ghost use Rattle.model.specs.Changes.{of_page};
ghost use Rattle.tables.specs.Rows.{pending_of, pendings};
ghost use Rattle.tables.specs.Contents.{Counted};
ghost use Rattle.shares.specs.Shares.{Numbered};
ghost use Rattle.flushes.specs.Parts.{Ruled, leaves_under, verdict_by};

use crate::rows::Rule;
use model::{Answer, Verdict};
use tables::Store;

// Nothing to do, Archive full, Past full, or accepted. The rows that the entries leave are counted only where they might not fit.
pub fn verdict(store: &Store, entries: &[u8], due: &[u64], staying: usize, rule: Rule) -> Verdict
    requires numbered { Numbered (pending_of []) (of_page rule.page) (pendings store.now.written.pending) store.now.heads.pending entries.now }
    requires ruled { Ruled store.now.snapshots rule }
    requires counted { Counted store.now.heads × (staying ≤ 256) }
    ensures { result ≡ verdict_by (length (kept (of_page rule.page) (take store.now.heads.pending (pendings store.now.written.pending)))) (length due.now) store.now.heads.copies (staying + length (kept (leaves_under store.now.written.disk store.now.written.dated store.now.snapshots rule) (take store.now.heads.pending (pendings store.now.written.pending)))) }
{
    if entries.is_empty() && due.is_empty() {
        return Verdict::Idle;
    }
    if 128 - store.heads.copies < due.len() {
        return Verdict::Refused(Answer::ArchiveFull);
    }
    if staying + entries.len() <= 256 {
        return Verdict::Accepted;
    }
    let leaving = crate::rows::count_leaving(store, entries, rule);
    if 256 < staying + leaving {
        return Verdict::Refused(Answer::PastFull);
    }
    Verdict::Accepted
}
