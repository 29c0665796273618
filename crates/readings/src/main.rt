// Reads of stores that are laid by hand. A line for each call: the store's number, the call with its time or tick and its page, the
// code, the number, and the buffer's words or standing's figures. EXPECTED.md says what each store is, and why document 01 answers so.
#![tactic(auto)]

mod bounds;
mod calls;
mod clocks;
mod damages;
mod entries;
mod filled;
mod fresh;
mod full;
mod hidden;
mod lasts;
mod lay;
mod print;
mod served;
mod shapes;
mod small;
mod spans;
mod standings;
mod store;
mod times;

fn main(rt: HostRuntime) {
    fresh::lines(&rt);
    bounds::lines(&rt);
    full::lines(&rt);
    damages::lines(&rt);
    lasts::lines(&rt);
    hidden::lines(&rt);
    served::lines(&rt);
    spans::lines(&rt);
    entries::lines(&rt);
    times::lines(&rt);
    shapes::lines(&rt);
    clocks::lines(&rt);
    standings::lines(&rt);
}
