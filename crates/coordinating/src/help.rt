// What `help` prints.
use terminal::say;

// The calls, and the codes of their answers.
const LINES: [&[u8]; 12] = [
    b"grant TICK NODE                 grants the snapshot 256 x TICK + NODE: its stamp\n",
    b"message PREV CLOCK              the message of those after PREV up to CLOCK\n",
    b"serve HEX                       the message that a repository's request asks for\n",
    b"granted                         how many, the largest curr sent, all stamps\n",
    b"help                            these lines\n",
    b"quit, exit                      end the program, as Ctrl-D does\n",
    b"Each answer is CODE NUMBER NAME and what was asked. Behind # stands a comment.\n",
    b"0 Done             a grant: the stamp; a message: its length, and its bytes\n",
    b"3 Shape            TICK or NODE is out of range, or CLOCK is before PREV\n",
    b"5 Late             the stamp is not after all granted and sent: the largest\n",
    b"10 Snapshots full  64 are granted already\n",
    b"16 Malformed       the bytes are no request\n",
];

pub fn print(rt: &HostRuntime) -> bool {
    say::texts(rt, &LINES)
}
