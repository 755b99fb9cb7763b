//! Programs, by what they print and how they end.

use crate::assembly::{number, place_of};
use crate::hosting::{Ran, run_machine};
use crate::parts::object_of;
use dis_machine::{End, Machine, Setup, StartFault};
use inf_ports::MemSink;
use inf_text::{Text, is_spelled};
use std::alloc::Global;
use std::process::Abort;
use std::test::Fail;

// A program begins with its name, what it prints, and how it ends: `done`, with what is raised, with the number of a fault, which comes at
// the label `wrong`, or `malformed`, where it doesn't begin. Its words begin at 16 of the data and at 40 of the frame, its types at 4.
const PROGRAMS: &str = "\
#a string, character by character|cab 1 |done
.data rr
.text 16 cab
insc $99 $0 m20
insc $97 $1 m20
insc $98 $2 m20
text m20
beqc m20 m16 >same
number $0
ret
same:
number $1
ret
#another variable's string stays as it was|cab cob |done
.data rr
.text 16 cab
movp m16 - m20
insc $111 $1 m20
text m16
text m20
ret
#a code that no character has|\u{FFFD} 65533 |done
.data r
.frame w
insc $-1 $0 m16
text m16
indc m16 $0 f40
number f40
ret
#parts of strings, and strings joined|bcd abcdebcd 100 8 |done
.data rrr
.frame w
.text 16 abcde
movp m16 - m20
slicec $1 $4 m20
text m20
addc m20 m16 m24
text m24
indc m16 $3 f40
number f40
lenc m24 - f40
number f40
ret
#strings in order|1 2 3 |done
.data rr
.text 16 ab
.text 20 b
bltc m16 m20 >less
ret
less:
number $1
blec m16 m16 >most
ret
most:
number $2
bgtc m16 m20 >wrong
bgec m20 m16 >last
ret
last:
bnec m16 m20 >other
ret
other:
number $3
wrong:
ret
#numbers as strings, and back|-12 -12 4294967296 1 0 |done
.data rwwww
.frame w
cvtwc $-12 - m16
text m16
cvtcw m16 - f40
number f40
movw $1 - m20
cvtlc m20 - m16
text m16
cvtcl m16 - m28
number m28
number m32
ret
#a string as bytes, and back|4 195 a\u{F6}z |done
.data rr
.frame ww
.text 16 a\u{F6}z
cvtca m16 - m20
lena m20 - f40
number f40
indb m20 f40 $1
cvtbw i40.0 - f44
number f44
cvtac m20 - m16
text m16
ret
#a character behind the end|ab |array bounds error
.data r
.text 16 ab
text m16
insc $99 $3 m16
ret
#a slice that falls||array bounds error
.data r
.text 16 abc
slicec $2 $1 m16
ret
#a byte stored through a part of an array|200 0 3 |done
.data rr
.frame ww
.type b
newa $8 $4 m16
movp m16 - m20
slicea $2 $5 m20
indb m20 f40 $1
cvtwb $200 - i40.0
indb m16 f40 $3
cvtbw i40.0 - f44
number f44
indb m16 f40 $2
cvtbw i40.0 - f44
number f44
lena m20 - f44
number f44
ret
#elements over those of another array|7 8 0 |array bounds error
.data rr
.frame w
.type w
newa $4 $4 m16
newa $2 $4 m20
indw m20 f40 $0
movw $7 - i40.0
indw m20 f40 $1
movw $8 - i40.0
slicela m20 $1 m16
indw m16 f40 $1
number i40.0
indw m16 f40 $2
number i40.0
indw m16 f40 $3
number i40.0
slicela m20 $3 m16
ret
#elements of a number and a string|5 a |fault 110
.data r
.frame w
.type wr
newa $2 $4 m16
indx m16 f40 $1
movw $5 - i40.0
insc $97 $0 i40.4
indl m16 f40 $1
number i40.0
text i40.4
wrong:
indw m16 f40 $1
#a big of an array|-1 -3 -3 |done
.data r
.frame ww
.type ww
newa $2 $4 m16
indl m16 f40 $1
cvtwl $-3 - i40.0
number i40.0
number i40.4
cvtlw i40.0 - f44
number f44
ret
#an index behind the last||array bounds error
.data r
.frame w
.type w
newa $3 $4 m16
indw m16 f40 $2
indw m16 f40 $3
#an index below 0||array bounds error
.data r
.frame w
.type w
newa $3 $4 m16
indw m16 f40 $-1
#an array of fewer than none||negative array size
.data r
.type w
newa $-1 $4 m16
#an array of 268,435,460 bytes||array too large
.data r
.type w
newa $67108865 $4 m16
#a wrong destination comes before what is raised||fault 110
.frame w
.type w
wrong:
newa $-1 $4 f40
#a list of three|3 6 0 |done
.data rr
.frame ww
consw $1 - m16
consw $2 - m16
consw $3 - m16
lenl m16 - f40
number f40
more:
beqw m16 m20 >end
headw m16 - f40
addw f40 - f44
tail m16 - m16
jmp - - >more
end:
number f44
lenl m16 - f40
number f40
ret
#lists of bytes, bigs and strings|44 -1 -2 b a |done
.data rrrrrwww
.text 16 a
.text 20 b
consb $300 - m24
headb m24 - m39
number m36
cvtwl $-2 - m40
consl m40 - m28
headl m28 - m36
number m36
number m40
consp m16 - m32
consp m20 - m32
headp m32 - m16
text m16
tail m32 - m32
headp m32 - m16
text m16
ret
#values of more words in lists|1 2 5 a |done
.data rrwwwwwrwr
.type wr
movw $1 - m24
movw $2 - m28
consm m24 $8 m16
headm m16 $8 m32
number m32
number m36
movw $5 - m40
insc $97 $0 m44
consmp m40 $4 m20
headmp m20 $4 m48
number m48
text m52
ret
#bytes and words moved|66051 16909060 a |done
.data wwwrwr
.type wr
.words 16 16909060 0
insc $97 $0 m28
movm m16 $3 m21
number m20
movm m16 $4 m24
number m24
movmp m24 $4 m32
text m36
ret
#a record that two variables name|7 a |done
.data rr
.type wr
new $4 - m16
movp m16 - m20
movw $7 - j16.0
insc $97 $0 j16.4
number j20.0
text j20.4
ret
#lengths of nil, and a part of it|0 0 0 1 |array bounds error
.data rr
.frame w
lenc m16 - f40
number f40
lena m16 - f40
number f40
lenl m16 - f40
number f40
slicea $0 $0 m16
beqw m16 m20 >nil
ret
nil:
number $1
slicea $0 $1 m16
ret
#through nil||dereference of nil
.data r
.frame w
movw j16.0 - f40
#an element of nil||dereference of nil
.data r
.frame w
indw m16 f40 $0
#the first element of nil||dereference of nil
.data r
.frame w
headw m16 - f40
#into a string||fault 110
.data r
.frame w
.text 16 ab
wrong:
movw j16.0 - f40
#a number over a reference||fault 110
.data r
wrong:
movw $1 - m16
#a string where a list is asked for||fault 110
.data r
.text 16 ab
wrong:
tail m16 - m16
#the address of a record that went|7 |fault 112
.data rr
.frame w
.type w
new $4 - m16
movw $7 - j16.0
lea j16.0 - f40
number i40.0
movp m20 - m16
wrong:
movw $1 - i40.0
#a channel|1 |fault 110
.data rr
newcw - - m16
bnew m16 m20 >made
ret
made:
number $1
wrong:
newcw - $1 m16
#a function doubles a number, and its frame is gone|42 3 |fault 112
.frame ww
.type ........w
frame $4 - f40
movw $21 - i40.32
lea f44 - i40.16
call f40 - >double
number f44
number f36
wrong:
movw $1 - i40.32
double:
addw f32 f32 i16.0
ret
#a place behind the code||fault 111
wrong:
jmp - - $99
#a place behind the code, where a branch isn't taken||fault 111
wrong:
beqw $1 $2 $99
#a frame too many||stack overflow
.frame w
again:
frame $1 - f40
call f40 - >again
#a function of nil||module not loaded
.data r
frame $2 - f32
mcall f32 $0 m16
#a function that no import names||fault 110
frame $2 - f32
wrong:
mcall f32 $1 m4
#items of each kind|16909060 -5 hi 3 0 7 9 1 2 |done
.data wwrrww
.frame ww
.type b
.bytes 16 1 2 3 4
.words 20 -5
.text 24 hi
.array 28 4 3
.into 28 1
.bytes 0 7 9
.back 0
.bigs 32 4294967298
number m16
number m20
text m24
lena m28 - f40
number f40
indb m28 f40 $0
cvtbw i40.0 - f44
number f44
indb m28 f40 $1
cvtbw i40.0 - f44
number f44
indb m28 f40 $2
cvtbw i40.0 - f44
number f44
number m32
number m36
ret
#an array and a string in an array|8 x |done
.data rr
.frame ww
.type r
.type w
.array 16 4 2
.into 16 1
.text 0 x
.back 0
.into 16 0
.array 0 5 3
.into 0 2
.words 0 8
.back 0
.back 0
indw m16 f40 $0
movp i40.0 - m20
indw m20 f44 $2
number i44.0
indw m16 f40 $1
text i40.0
ret
#a type that isn't there||malformed
.data r
.array 16 4 1
ret
#an array of too many bytes||malformed
.data r
.type w
.array 16 4 67108865
ret
#an element behind the last||malformed
.data r
.type w
.array 16 4 2
.into 16 2
ret
#into nil||malformed
.data r
.into 16 0
ret
#back from nowhere||malformed
.back 0
ret
#a real||malformed
.data ww
.reals 16 1
ret
#words over a reference||malformed
.data r
.words 16 1
ret
#a string over words||malformed
.data w
.text 16 a
ret
#words behind the data||malformed
.data w
.words 16 1 2
ret
";

// How a run of these lines has ended.
fn expect_end(rt: &impl Abort, ran: &Ran, lines: &str, wanted: &str, name: &str) {
    match ran.end {
        End::Done => assert_eq!(rt; wanted, "done", "{name}"),
        End::Broke => {
            let broken = ran.broken.first().expect(rt, "what is raised");
            assert!(rt; is_spelled(broken.text.as_slice(), wanted), "{name}");
        }
        end => {
            let wanted = wanted.strip_prefix("fault ").expect(rt, "a fault");
            let number = number(rt, wanted).unsigned_abs();
            let pc = u64::from(place_of(rt, lines, "wrong").unsigned_abs());
            assert_eq!(rt; end, End::Faulted { number, pc }, "{name}");
        }
    }
}

fn expect_program(rt: &impl Abort, alloc: Global, program: &str) -> Result<(), Fail> {
    let (head, lines) = program.split_once('\n').expect(rt, "lines");
    let (name, rest) = head.split_once('|').expect(rt, "what is printed");
    let (printed, wanted) = rest.split_once('|').expect(rt, "how it ends");
    let objects = vec![in alloc; (Text::new(alloc), object_of(rt, alloc, lines)?)]?;
    let machine = match Machine::start(alloc, Setup { objects, limit: 40 }) {
        Ok(machine) => machine,
        Err(fault) => {
            assert_eq!(rt; fault, StartFault::Malformed, "{name}");
            assert_eq!(rt; wanted, "malformed", "{name}");
            return Ok(());
        }
    };
    let mut out = MemSink::new(alloc, 100, Vec::new(alloc))?;
    let ran = run_machine(rt, alloc, machine, &mut out)?;
    assert!(rt; out.as_slice() == printed.as_bytes(), "{name}");
    expect_end(rt, &ran, lines, wanted, name);
    Ok(())
}

/// Each program.
#[test]
fn programs_print_and_end(rt: HostRuntime) -> Result<(), Fail> {
    for program in PROGRAMS.split('#').skip(1) {
        expect_program(&rt, rt.alloc(), program)?;
    }
    Ok(())
}
