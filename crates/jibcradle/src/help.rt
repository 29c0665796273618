// What `help` prints.
use lines::Topic;
use terminal::say;

const CALLS: [&[u8]; 15] = [
    b"commit STAMP OBJECT=VALUE ...   writes of 1 to 16 objects\n",
    b"gossip PREV CURR [STAMP ...]    a message of 0 to 16 snapshots\n",
    b"hear HEX                        a message, in hex; a Gap comes with its request\n",
    b"flush PAGE                      pending values to disk\n",
    b"read TIME PAGE                  the page at the last snapshot up to a time\n",
    b"clock TICK PAGE                 the same, by a clock tick\n",
    b"now PAGE                        the current page\n",
    b"ask CURR                        a request for what the horizon lacks up to CURR\n",
    b"known                           horizon, last commit, all known snapshots\n",
    b"standing                        pending, past, snapshots, copies, lag\n",
    b"fresh                           an empty store; a file is kept as JOURNAL.old\n",
    b"cut N                           in memory: restart from the first N bytes\n",
    b"help [codes | standing]         these lines; the codes; standing's figures\n",
    b"quit, exit                      end the program, as Ctrl-D does\n",
    b"Each answer is CODE NUMBER NAME and what was read. Behind # stands a comment.\n",
];

const CODES: [&[u8]; 19] = [
    b"Code and name, what it means, and behind the colon its number (else 0).\n",
    b"0 Done             a change: the journal's length; a read: the snapshot used\n",
    b"1 Nothing          there was nothing to do: the journal's length\n",
    b"2 Damaged          the store's tables are not those of a store\n",
    b"3 Shape            a page, object, tick, list or length is out of range\n",
    b"4 Twice            a commit names one object twice\n",
    b"5 Late             a commit is not after the last one and the horizon: the larger\n",
    b"6 Gap              a message starts beyond the horizon: the horizon\n",
    b"7 Conflict         message and known snapshots differ: the smallest such stamp\n",
    b"8 Pending full     the commit would need more than 128 pending entries: flush\n",
    b"9 Past full        it would need more than 256 past values\n",
    b"10 Snapshots full  the message would bring more than 64 known snapshots\n",
    b"11 Archive full    the flush would need more than 128 archived copies\n",
    b"12 No journal room the record does not fit: the length the journal would reach\n",
    b"13 Ahead           the time lies beyond the horizon: the horizon\n",
    b"14 No snapshot     no known snapshot at or before the time\n",
    b"15 Version         the journal begins with another version: the byte found\n",
    b"16 Malformed       a record is not well formed: its offset; hear: no message\n",
    b"17 Contradiction   a record that this store would not have written: its offset\n",
];

const STANDING: [&[u8]; 5] = [
    b"pending    objects written since their page was last flushed, of 128\n",
    b"past       values kept for snapshots that are not archived, of 256\n",
    b"snapshots  known snapshots, of 64\n",
    b"copies     archived pages, of 128\n",
    b"lag        milliseconds from horizon to last commit; negative: gossip is ahead\n",
];

pub fn print(rt: &HostRuntime, topic: Topic) -> bool {
    match topic {
        Topic::Calls => say::texts(rt, &CALLS),
        Topic::Codes => say::texts(rt, &CODES),
        Topic::Standing => say::texts(rt, &STANDING),
    }
}
