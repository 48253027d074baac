//! Ties: allotments of stage 3 that displace as much, after which stage 4 displaces more or less.

use crate::play::play_script;

/// Windows of five minutes for one arrival each. A historic series has 0800. A new entrant who asks
/// for 0800 has 0755 or 0805, both five minutes away. Where another request is for one of the two,
/// the new entrant has the other one; with 64 nodes, the first that the search comes upon. So stage
/// 4 displaces 5 after one of the two ties, and nothing after the other.
const TIES: &str = "\
words allocate CAP SCR CERT REPLIES
file CAP AIRPORT ABC;SEASON S25;STEP 5;FLEX 60;GROUND 40;REFUSE NONE;\
    CAP ARR 5 0700 0900 1234567 1;
file SCR SCR;S25;20NOV;ABC;FBA001 30MAR 7 180320 JFK0800 J;BBA002 30MAR 7 180320 JFK0800 J;\
    NBA003 30MAR 7 180320 JFK0755 J;
says 0 STAGE 1 OPTIMAL 0;STAGE 2 OPTIMAL 0;STAGE 3 OPTIMAL 5;STAGE 4 OPTIMAL 0;
again
holds REPLIES SCR;S25;20NOV;ABC;KBA001 30MAR30MAR 0000007 180320 JFK0800 J;\
    UBA002 30MAR30MAR 0000007 180320 JFK0800 J;OBA002 30MAR30MAR 0000007 180320 JFK0805 J;\
    KBA003 30MAR30MAR 0000007 180320 JFK0755 J;;
line NBA003 30MAR 7 180320 JFK0755 J|NBA003 30MAR 7 180320 JFK0805 J|\
    0 STAGE 1 OPTIMAL 0;STAGE 2 OPTIMAL 0;STAGE 3 OPTIMAL 5;STAGE 4 OPTIMAL 0;
holds REPLIES *OBA002 30MAR30MAR 0000007 180320 JFK0755 J;\
    KBA003 30MAR30MAR 0000007 180320 JFK0805 J;;
words allocate CAP SCR CERT REPLIES --nodes 64
says 0 STAGE 1 OPTIMAL 0;STAGE 2 OPTIMAL 0;STAGE 3 OPTIMAL 5;STAGE 4 OPTIMAL 5;
words allocate CAP SCR CERT REPLIES --nodes 65
says 0 STAGE 1 OPTIMAL 0;STAGE 2 OPTIMAL 0;STAGE 3 OPTIMAL 5;STAGE 4 OPTIMAL 0;
words trial 99 21
says 0 STAGE 1 OPTIMAL 0;STAGE 2 OPTIMAL 0;STAGE 3 OPTIMAL 4200;STAGE 4 OPTIMAL 42000;*CHECK YES;";

#[test]
fn allotments_that_displace_as_much(rt: HostRuntime) {
    play_script(&rt, rt.alloc(), TIES);
}
