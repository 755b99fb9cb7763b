//! Instructions on numbers.

use crate::assembly::{middle, number, operand, operation};
use crate::machines::{go_on, start};
use crate::objects::{assembled, inst, seq};
use dis_file::{Item, Object, TypeDesc};
use dis_isa::{Inst, Middle, Op, Operand, op_of};
use dis_machine::{End, Machine};
use inf_text::{Seq, is_spelled};
use ref_heap::Word;
use std::alloc::{AllocError, Global};
use std::process::Abort;
use std::test::Fail;

// A row: the opcode and its name, the operands, the first four words of the data, and what comes of it: the place of the next
// instruction and these words, what is raised, or the number of a fault. The word at 40 is a reference.
const ROWS: &str = "\
43 divw|$-1 - m0|-2147483648 0 0 0|1 -2147483648 0 0 0
3A addw|$1 m4 m0|0 2147483647 0 0|1 -2147483648 2147483647 0 0
3D subw|m0 m4 m8|10 3 0 0|1 10 3 -7 0
40 mulw|$65536 m0 m4|65536 9 0 0|1 65536 0 0 0
43 divw|$2 m4 m0|0 -7 0 0|1 -3 -7 0 0
45 modw|$2 m4 m0|0 -7 0 0|1 -1 -7 0 0
48 andw|$255 m4 m0|0 -1 0 0|1 255 -1 0 0
4A orw|$256 m4 m0|0 1 0 0|1 257 1 0 0
4C xorw|$-1 m4 m0|0 1 0 0|1 -2 1 0 0
4E shlw|$33 $1 m0|0 0 0 0|1 2 0 0 0
50 shrw|$1 m4 m0|0 -3 0 0|1 -2 -3 0 0
39 addb|$1 - m2|16973572 0 0 0|1 16908292 0 0 0
3C subb|$1 $0 m3|0 0 0 0|1 255 0 0 0
3F mulb|$16 $17 m0|0 0 0 0|1 268435456 0 0 0
42 divb|m5 m4 m0|0 117571584 0 0|1 50331648 117571584 0 0
46 modb|$2 m4 m3|0 117571584 0 0|1 1 117571584 0 0
47 andb|$15 $60 m3|0 0 0 0|1 12 0 0 0
49 orb|$3 $12 m3|0 0 0 0|1 15 0 0 0
4B xorb|$255 $15 m3|0 0 0 0|1 240 0 0 0
4D shlb|$9 $129 m3|0 0 0 0|1 2 0 0 0
4F shrb|$1 $129 m3|0 0 0 0|1 64 0 0 0
77 addl|m0 m8 m0|0 -1 0 1|1 1 0 0 1
78 subl|$1 - m0|1 0 0 0|1 0 -1 0 0
7B mull|$-1 - m0|0 5 0 0|1 -1 -5 0 0
79 divl|$2 - m0|-1 -7 0 0|1 -1 -3 0 0
7A modl|$2 - m0|-1 -7 0 0|1 -1 -1 0 0
7C andl|m8 - m0|-1 -1 1 2|1 1 2 1 2
7D orl|m8 - m0|1 0 0 2|1 1 2 0 2
7E xorl|m8 - m0|1 3 1 1|1 0 2 1 1
7F shll|$40 $1 m0|0 0 0 0|1 256 0 0 0
80 shrl|$32 m0 m8|-5 7 0 0|1 -5 7 -1 -5
30 cvtwb|m0 - m7|300 16909060 0 0|1 300 16909100 0 0
2F cvtbw|m4 - m0|0 -16777216 0 0|1 255 -16777216 0 0
89 cvtlw|m0 - m8|1 -2 0 0|1 1 -2 -2 0
8A cvtwl|m0 - m4|-3 0 0 0|1 -3 -1 -3 0
2C movb|m0 - m5|150994944 16909060 0 0|1 150994944 17367812 0 0
76 movl|m0 - m8|1 -2 0 0|1 1 -2 1 -2
76 movl|m0 - m4|1 2 3 0|1 1 1 2 0
5D beqw|$5 m0 $2|5 0 0 0|2 5 0 0 0
5E bnew|$5 m0 $2|5 0 0 0|1 5 0 0 0
5F bltw|m0 m4 $2|-1 0 0 0|2 -1 0 0 0
60 blew|m0 m4 $2|3 3 0 0|2 3 3 0 0
61 bgtw|m0 m4 $2|3 2 0 0|2 3 2 0 0
62 bgew|m0 m4 $2|2 3 0 0|1 2 3 0 0
57 beqb|m0 m4 $2|83886081 83886082 0 0|2 83886081 83886082 0 0
58 bneb|m3 m7 $2|83886081 83886082 0 0|2 83886081 83886082 0 0
59 bltb|$255 m3 $2|7 0 0 0|1 7 0 0 0
5A bleb|$-1 m3 $2|255 0 0 0|2 255 0 0 0
5B bgtb|$-1 m3 $2|5 0 0 0|2 5 0 0 0
5C bgeb|$4 m3 $2|5 0 0 0|1 5 0 0 0
82 bltl|m0 m8 $2|0 7 1 7|2 0 7 1 7
82 bltl|m0 m8 $2|0 1 0 -1|2 0 1 0 -1
84 bgtl|m0 m8 $2|-1 0 0 0|1 -1 0 0 0
83 blel|m0 m8 $2|2 0 1 0|1 2 0 1 0
85 bgel|m0 m8 $2|2 0 1 0|2 2 0 1 0
86 beql|m0 m8 $2|1 2 1 2|2 1 2 1 2
81 bnel|m0 m8 $2|1 2 1 3|2 1 2 1 3
43 divw|$0 - m0|1 0 0 0|zero divide
46 modb|$256 - m3|9 0 0 0|zero divide
79 divl|m8 - m0|0 1 0 0|zero divide
43 divw|$0 m0 m40|1 0 0 0|fault 110
7A modl|$0 m0 m2|1 0 0 0|fault 110
2C movb|$1 - m41|1 0 0 0|fault 110
76 movl|m0 - m36|1 2 0 0|fault 110
5D beqw|$1 - $2|1 0 0 0|fault 110
3B addf|$1 - m0|1 0 0 0|fault 110
";

fn jump(place: i32) -> Inst {
    let none = Operand::None;
    inst(Op::Jmp, none, Middle::None, Operand::Imm(place))
}

// The instruction, and behind it two that go on at their own places.
fn code(rt: &impl Abort, alloc: Global, op: &str, operands: &str) -> Result<Vec<Inst>, AllocError> {
    let (code, name) = op.split_once(' ').expect(rt, "a name");
    let code = u8::from_str_radix(code, 16).expect(rt, "an opcode");
    let op = operation(alloc, name)?.expect(rt, "an operation");
    assert_eq!(rt; op_of(code), Some(op), "{name}");
    let (src, rest) = operands.split_once(' ').expect(rt, "a middle");
    let (mid, dst) = rest.split_once(' ').expect(rt, "a destination");
    let (src, mid, dst) = (operand(rt, src), middle(rt, mid), operand(rt, dst));
    Vec::from_slice(alloc, &[inst(op, src, mid, dst), jump(1), jump(2)])
}

// Words from the start of the data on.
fn words(rt: &impl Abort, alloc: Global, numbers: &str) -> Result<Item, AllocError> {
    let mut content = Vec::new(alloc);
    for word in numbers.split(' ') {
        content.extend_from_slice(&number(rt, word).to_be_bytes())?;
    }
    Ok(Item {
        kind: 2,
        count: 4,
        offset: 0,
        content: Seq::from_vec(content),
    })
}

// Data and frames have eleven words.
fn object(rt: &impl Abort, alloc: Global, code: Vec<Inst>, numbers: &str) -> Result<Object, Fail> {
    let mut types = Vec::new(alloc);
    for map in [b"\0\x20".as_slice(), b"".as_slice()] {
        let map = seq(alloc, map)?;
        types.push(TypeDesc { size: 44, map })?;
    }
    let items = vec![in alloc; words(rt, alloc, numbers)?]?;
    assembled(alloc, code, Seq::from_vec(types), Seq::from_vec(items))
}

// The process is at this place, and its data begin with these words.
fn is_there(rt: &impl Abort, machine: &Machine, wanted: &str, row: &str) {
    let (pc, words) = wanted.split_once(' ').expect(rt, "words");
    let frame = &machine.running.process.frame;
    assert_eq!(rt;
        frame.pc,
        pc.parse::<usize>().expect(rt, "a place"),
        "{row}"
    );
    let mut k = 0_usize;
    for word in words.split(' ') {
        let stood = machine.running.memory.heap.get(frame.instance, k);
        let plain = Word::Plain(number(rt, word).cast_unsigned());
        assert_eq!(rt; stood, Ok(plain), "{row}");
        k = k.wrapping_add(1);
    }
}

fn expect_row(rt: &impl Abort, alloc: Global, row: &str) -> Result<(), Fail> {
    let (op, rest) = row.split_once('|').expect(rt, "operands");
    let (operands, rest) = rest.split_once('|').expect(rt, "words");
    let (before, wanted) = rest.split_once('|').expect(rt, "what comes of it");
    let code = code(rt, alloc, op, operands)?;
    let mut machine = start(alloc, object(rt, alloc, code, before)?)?;
    go_on(rt, alloc, &mut machine)?;
    match machine.ended() {
        None => is_there(rt, &machine, wanted, row),
        Some(End::Broke) => {
            let broken = machine.broken().first().expect(rt, "what is raised");
            assert!(rt; is_spelled(broken.text.as_slice(), wanted), "{row}");
        }
        Some(end) => {
            let (number, pc) = (110, 0);
            assert_eq!(rt; end, End::Faulted { number, pc }, "{row}");
            assert_eq!(rt; wanted, "fault 110", "{row}");
        }
    }
    Ok(())
}

/// Each row of the table.
#[test]
fn numbers_of_each_kind(rt: HostRuntime) -> Result<(), Fail> {
    for row in ROWS.lines() {
        expect_row(&rt, rt.alloc(), row)?;
    }
    Ok(())
}
