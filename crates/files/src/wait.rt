// A wait with an end: so many tries, and so many seconds, since on a busy machine each try may be long. The clock may be set
// meanwhile, so only that its second changes is looked at.
use std::thread;
use std::time::{SystemTime, UNIX_EPOCH};

pub const TRIES: u64 = 100000;

#[derive(Clone, Copy)]
pub struct Wait {
    seconds: u64,
    at: i64,
}

// The clock's second, or 0 where it can't be told.
fn second(rt: &HostRuntime) -> i64 {
    let Ok(now) = SystemTime::now(rt) else {
        return 0;
    };
    match now.duration_since(UNIX_EPOCH) {
        Ok(since) => since.as_secs().cast_signed(),
        Err(_) => 0,
    }
}

impl Wait {
    pub fn begun(rt: &HostRuntime, seconds: u64) -> Wait {
        let at = second(rt);
        Wait { seconds, at }
    }

    // After one try more: whether there is time for another.
    pub fn goes_on(&mut self, rt: &HostRuntime) -> bool {
        thread::yield_now();
        let now = second(rt);
        if now == self.at {
            return true;
        }
        if self.seconds == 0 {
            return false;
        }
        self.at = now;
        self.seconds -= 1;
        true
    }
}
