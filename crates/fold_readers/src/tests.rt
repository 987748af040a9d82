// What nothing in the pass calls: `member_abroad`, of a whole list.
use crate::{block_number, member_abroad};
use mir::BlockId;

// Value 0 is read by no block, value 1 by block 0 alone, value 2 by block 1 alone, value 3 by several.
const READERS: [u8; 4] = [0, 1, 2, 255];

#[test]
fn a_member_that_another_block_reads(rt: HostRuntime) {
    let own = block_number(BlockId(0));
    for (members, abroad) in [([0, 1], false), ([1, 2], true), ([3, 0], true)] {
        assert_eq!(rt;
            member_abroad(&members, own, &READERS),
            abroad,
            "{members:?}"
        );
    }
    assert!(rt; !member_abroad(&[], own, &READERS), "no member");
}

// One member more than a `u16` says: all values that there can be, of which block 1 reads the last alone.
#[test]
fn the_last_of_65536_members(rt: HostRuntime) {
    let mut members = [0; 65536];
    for i in 0..65536usize {
        members[i] = i as u16;
    }
    let mut readers = [1; 65536];
    assert!(rt;
        !member_abroad(&members, block_number(BlockId(0)), &readers),
        "block 0 reads them all"
    );
    readers[65535] = 2;
    assert!(rt;
        member_abroad(&members, block_number(BlockId(0)), &readers),
        "block 1 reads the last"
    );
}
