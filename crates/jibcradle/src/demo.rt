// Document 01's worked night, as lines of input.
pub const LINES: &[u8] =
    b"# 1. a commit stamped 100 gives object 0 the value 7; the journal now has 23 bytes
commit 100 0=7
# 2. the same stamp again is late: 100 is the last commit
commit 100 0=7
# 3. a commit at 120 gives the object 9; the 7 becomes a past value, from 100 up to 120
commit 120 0=9
standing
# 4. gossip up to 110 tells of one snapshot, 105
gossip 0 110 105
# 5. a read at time 107 uses snapshot 105 and shows the 7 of then
read 107 0
# 6. no snapshot is known up to 104, and 111 lies beyond the horizon, 110
read 104 0
read 111 0
# 7. a flush archives page 0 as of 105 and brings the 9 to disk; the past value stays, since 111 to 119 lie beyond the horizon
flush 0
standing
# 8. a second flush finds nothing to do
flush 0
# 9. gossip up to 200 without a snapshot: the past value is needed no more, and the lag is 0
gossip 110 200
standing
# 10. a commit at the horizon is late, and a message that starts beyond it leaves a gap
commit 200 0=7
gossip 201 300
# 11. a message that has 106 and not 105 is in conflict at 105, and one that brings nothing new is nothing
gossip 100 300 106
gossip 100 150 105
# 12. separately: a commit with exactly the snapshot's stamp is part of the snapshot
fresh
commit 120 0=9
gossip 0 120 120
read 120 0
# 13. separately: a restart from 22 of item 1's 23 bytes, where the record isn't whole, and one from none, are fresh stores
fresh
commit 100 0=7
cut 22
standing
fresh
cut 0
";
