// Copies of a page, each a head and sixteen words.
ghost use Rattle.std.specs.Prelude.{◌≡◌, ◌++◌, map, ◌+◌, ◌≤◌, length, take};
ghost use Rattle.tables.specs.Rows.{copy_heads, copies_of};
ghost use Rattle.views.specs.Views.{Lookable};
ghost use Rattle.shares.specs.Shares.{Shared};
ghost use Rattle.shares.specs.Many.{Ordered};
ghost use Rattle.flushes.specs.Parts.{head_of, copy_in};

use shares::Share;
use tables::{Copied, CopyHead, CopyTable, Heads, Written};
use views::Word;

// The heads of the listed snapshots' copies, from a row on.
fn put_heads(copies: &mut CopyTable, at: usize, page: u64, due: &[u64])
    requires { at + length due.now ≤ 128 }
    ensures { take (at + length due.now) (copy_heads copies.new) ≡ take at (copy_heads copies.old) ++ map (head_of page) due.now }
{
    for (i, stamp) in due.iter().enumerate() {
        let head = CopyHead {
            page,
            stamp: *stamp,
        };
        tables::put_copy(copies, at + i, head);
    }
}

// Copies of the listed snapshots, behind the h.copies that there are.
pub fn archive(
    w: &Written,
    h: Heads,
    share: &Share,
    page: u64,
    due: &[u64],
    copies: &mut CopyTable,
    copied: &mut Copied,
)
    requires lookable { Lookable w.now h page }
    requires shared { Shared w.now h page share.now }
    requires copies_bound { h.copies + length due.now ≤ 128 }
    requires ordered { Ordered due.now }
    ensures { take (h.copies + length due.now) (copies_of (copy_heads copies.new) copied.new) ≡ take h.copies (copies_of (copy_heads copies.old) copied.old) ++ map (copy_in w.now h page) due.now }
{
    if due.is_empty() {
        return;
    }
    put_heads(copies, h.copies, page, due);
    shares::many::look_at_all(w, h, share, page, Word::Value, due, copied, 16 * h.copies);
}
