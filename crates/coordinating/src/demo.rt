// A coordinator's calls, as lines of input.
pub const LINES: &[u8] =
    b"# 1. node 5 asks for a snapshot at tick 1: it is granted, with the stamp 256 x 1 + 5
grant 1 5
# 2. the same again is late: 261 is the largest stamp granted
grant 1 5
# 3. a message of the snapshots after 0 up to the clock stamp 600: 28 bytes, a gossip record with prev 0, curr 600 and the one stamp 261
message 0 600
# 4. whoever heard that knows all up to 600, so no stamp up to 600 is granted any more
grant 2 88
grant 2 89
# 5. how many are granted, the largest curr sent, the stamps
granted
# 6. a repository with the horizon 261 has refused a message up to 700: it asks for what lies between, and gets the message for that
serve 001104000000000000010500000000000002bc
granted
# 7. a clock stamp before prev, a node over 255, bytes that are no request
message 600 599
grant 3 256
serve 0011
";
