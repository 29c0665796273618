// The faces that only read: the struct stays as it is.
ghost use Rattle.model.specs.Reads as reads;
ghost use Rattle.tables.specs.Contents.{stored};
ghost use Rattle.repository.specs.Faces.{Shown, Stood, Knew};

use crate::{Knowledge, Reply, Report, Store};
use model::{Answer, Figures, NO_FIGURES};

// The page as of the largest known snapshot at or before a time.
#[unsafe(no_mangle)]
pub extern "C" fn jibcradle_snapshot_read(
    store: &Store,
    time: u64,
    page: u64,
    buffer: &mut [u64],
) -> Reply
    ensures { Shown (reads.snapshot_read (stored store.now) time page buffer.old) result buffer.new }
{
    Reply::from(reads::snapshot_read(store, time, page, buffer))
}

// The same at a clock tick.
#[unsafe(no_mangle)]
pub extern "C" fn jibcradle_clock_read(
    store: &Store,
    tick: u64,
    page: u64,
    buffer: &mut [u64],
) -> Reply
    ensures { Shown (reads.clock_read (stored store.now) tick page buffer.old) result buffer.new }
{
    Reply::from(reads::clock_read(store, tick, page, buffer))
}

// The page as it is now.
#[unsafe(no_mangle)]
pub extern "C" fn jibcradle_current_read(store: &Store, page: u64, buffer: &mut [u64]) -> Reply
    ensures { Shown (reads.current_read (stored store.now) page buffer.old) result buffer.new }
{
    Reply::from(reads::current_read(store, page, buffer))
}

fn report(answer: Answer, figures: Figures) -> Report
    ensures { Stood (record { answer = answer; figures = figures }) result }
{
    Report {
        code: answer.code(),
        number: answer.number(),
        pending: figures.pending,
        past: figures.past,
        snapshots: figures.snapshots,
        copies: figures.copies,
        lag: figures.lag,
    }
}

// The numbers of rows in the tables, and the lag.
#[unsafe(no_mangle)]
pub extern "C" fn jibcradle_standing(store: &Store) -> Report
    ensures { Stood (reads.standing (stored store.now)) result }
{
    match reads::standing(store) {
        Some(figures) => report(Answer::Done(0), figures),
        None => report(Answer::Damaged, NO_FIGURES),
    }
}

// The horizon, the last commit, and every known snapshot.
#[unsafe(no_mangle)]
pub extern "C" fn jibcradle_known(store: &Store) -> Knowledge
    ensures { Knew (reads.known (stored store.now)) result }
{
    match reads::known(store) {
        Some(known) => {
            let stamps = known.stamps;
            Knowledge {
                code: Answer::Done(0).code(),
                number: 0,
                horizon: known.horizon,
                last: known.last,
                count: known.count,
                stamps,
            }
        }
        None => Knowledge {
            code: Answer::Damaged.code(),
            number: 0,
            horizon: 0,
            last: 0,
            count: 0,
            stamps: [0; 64],
        },
    }
}
