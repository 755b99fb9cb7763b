//! Which blocks there are, and how many references to each.

use crate::machines::{go_on, start};
use crate::parts::object_of;
use ref_heap::{Heap, Ref};
use std::alloc::{AllocError, Global};
use std::process::Abort;
use std::test::Fail;

// A program begins with its name and the blocks that are there where it stays, by their serials, each with its count. Those below 4 aren't
// told: the data and the three strings in them. Mostly the block 4 is Sys. The words of the data from 16 on are the program's.
const PROGRAMS: &str = "\
#a record of two strings|4:1 5:1 6:1 7:1 
.data r
.type rr
new $4 - m16
insc $97 $0 j16.0
insc $98 $0 j16.4
stay:
jmp - - >stay
#a record goes with the last reference to it, and its strings with it|4:1 
.data rr
.type rr
new $4 - m16
insc $97 $0 j16.0
insc $98 $0 j16.4
movp m20 - m16
stay:
jmp - - >stay
#a string of the record is named elsewhere|4:1 6:1 
.data rrr
.type rr
new $4 - m16
insc $97 $0 j16.0
insc $98 $0 j16.4
movp j16.0 - m24
movp m20 - m16
stay:
jmp - - >stay
#a record that names itself stays|4:1 5:1 
.data rr
.type r
new $4 - m16
movp m16 - j16.0
movp m20 - m16
stay:
jmp - - >stay
#a string that one variable has goes on as another block|4:1 7:1 
.data r
insc $97 $0 m16
insc $98 $1 m16
addc m16 - m16
stay:
jmp - - >stay
#a string that two variables have stays as it is|4:1 5:1 6:1 
.data rr
insc $97 $0 m16
movp m16 - m20
insc $98 $1 m20
stay:
jmp - - >stay
#a list of three|4:1 5:1 6:1 7:1 
.data r
consw $1 - m16
consw $2 - m16
consw $3 - m16
stay:
jmp - - >stay
#the first cell goes|4:1 5:1 6:1 
.data r
consw $1 - m16
consw $2 - m16
consw $3 - m16
tail m16 - m16
stay:
jmp - - >stay
#all cells go|4:1 
.data rr
consw $1 - m16
consw $2 - m16
consw $3 - m16
movp m20 - m16
stay:
jmp - - >stay
#two lists have one rest|4:1 5:2 6:1 7:1 
.data rr
consw $1 - m16
movp m16 - m20
consw $2 - m16
consw $3 - m20
stay:
jmp - - >stay
#a part of an array keeps the array|4:1 5:1 6:1 
.data rrr
.type w
newa $8 $4 m16
movp m16 - m20
slicea $2 $5 m20
movp m24 - m16
stay:
jmp - - >stay
#a part of a part is one of the array|4:1 5:1 7:1 
.data r
.type w
newa $8 $4 m16
slicea $2 $6 m16
slicea $1 $3 m16
stay:
jmp - - >stay
#both elements of an array name a string, and a variable does|4:1 5:1 6:3 
.data rr
.frame w
.type r
newa $2 $4 m16
insc $97 $0 m20
indw m16 f40 $0
movp m20 - i40.0
indw m16 f40 $1
movp m20 - i40.0
stay:
jmp - - >stay
#a frame that is made has its string|4:1 5:1 
.frame w
.type ........r
frame $4 - f40
insc $97 $0 i40.32
stay:
jmp - - >stay
#an item over another|5:1 6:1 
.data r
.text 16 a
.text 16 b
stay:
jmp - - >stay
#arrays as items|4:1 5:1 6:1 
.data r
.type r
.array 16 4 2
.into 16 1
.text 0 a
.back 0
stay:
jmp - - >stay
#a frame that returns lets go of its string|4:1 
.frame w
.type ........r
frame $4 - f40
call f40 - >leaf
stay:
jmp - - >stay
leaf:
insc $97 $0 f32
ret
#a frame that runs has its string|4:1 5:1 
.frame w
.type ........r
frame $4 - f40
call f40 - >leaf
leaf:
insc $97 $0 f32
stay:
jmp - - >stay
";

// The serials from 4 on of the blocks that are there, each with its count.
fn blocks_of(alloc: Global, heap: &Heap) -> Result<String, AllocError> {
    let mut blocks = String::new(alloc);
    for serial in 4..heap.made() {
        if let Ok(count) = heap.count_of(Ref { slot: 0, serial }) {
            let block = format!(in alloc; "{serial}:{count} ")?;
            blocks.push_str(block.as_str())?;
        }
    }
    Ok(blocks)
}

fn expect_blocks(rt: &impl Abort, alloc: Global, program: &str) -> Result<(), Fail> {
    let (head, lines) = program.split_once('\n').expect(rt, "lines");
    let (name, wanted) = head.split_once('|').expect(rt, "blocks");
    let mut machine = start(alloc, object_of(rt, alloc, lines)?)?;
    go_on(rt, alloc, &mut machine)?;
    assert_eq!(rt; machine.ended(), None, "{name}");
    let blocks = blocks_of(alloc, &machine.running.memory.heap)?;
    assert_eq!(rt; blocks.as_str(), wanted, "{name}");
    Ok(())
}

/// Each program.
#[test]
fn blocks_that_are_there(rt: HostRuntime) -> Result<(), Fail> {
    for program in PROGRAMS.split('#').skip(1) {
        expect_blocks(&rt, rt.alloc(), program)?;
    }
    Ok(())
}
