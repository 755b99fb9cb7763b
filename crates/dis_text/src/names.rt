ghost use Rattle.std.specs.Prelude.{◌≡◌, ◌*◌, ◌<◌, length, drop};
ghost use Rattle.dis_format.specs.Opcodes.{opcode_of};
ghost use Rattle.dis_text.specs.Listing.{name_of, before_blank};

use dis_isa::{Op, code_of};

/// The names of the operations in the order of their opcodes, eight characters each, filled up with blanks.
pub static NAMES: [u8; 1280] = *b"\
nop     alt     nbalt   goto    call    frame   spawn   runt    \
load    mcall   mspawn  mframe  ret     jmp     case    exit    \
new     newa    newcb   newcw   newcf   newcp   newcm   newcmp  \
send    recv    consb   consw   consp   consf   consm   consmp  \
headb   headw   headp   headf   headm   headmp  tail    lea     \
indx    movp    movm    movmp   movb    movw    movf    cvtbw   \
cvtwb   cvtfw   cvtwf   cvtca   cvtac   cvtwc   cvtcw   cvtfc   \
cvtcf   addb    addw    addf    subb    subw    subf    mulb    \
mulw    mulf    divb    divw    divf    modw    modb    andb    \
andw    orb     orw     xorb    xorw    shlb    shlw    shrb    \
shrw    insc    indc    addc    lenc    lena    lenl    beqb    \
bneb    bltb    bleb    bgtb    bgeb    beqw    bnew    bltw    \
blew    bgtw    bgew    beqf    bnef    bltf    blef    bgtf    \
bgef    beqc    bnec    bltc    blec    bgtc    bgec    slicea  \
slicela slicec  indw    indf    indb    negf    movl    addl    \
subl    divl    modl    mull    andl    orl     xorl    shll    \
shrl    bnel    bltl    blel    bgtl    bgel    beql    cvtlf   \
cvtfl   cvtlw   cvtwl   cvtlc   cvtcl   headl   consl   newcl   \
casec   indl    movpc   tcmp    mnewz   cvtrf   cvtfr   cvtws   \
cvtsw   lsrw    lsrl    eclr    newz    newaz   raise   casel   \
";

/// The characters before the first blank.
fn before_blank(text: &'static [u8]) -> &'static [u8]
    ensures { result.now ≡ before_blank text.now }
{
    for (i, c) in text.iter().enumerate() {
        if *c == b' ' {
            return &text[..i];
        }
    }
    text
}

#[tactic(auto, using(dis_isa::proofs::Table::tag_is_place))]
fn opcode(op: Op) -> u8
    ensures value { result ≡ opcode_of op }
    ensures small { result < 160 }
{
    code_of(op)
}

/// The name at an operation's opcode in a table of names.
fn name_in(table: &'static [u8], op: Op) -> &'static [u8]
    requires { length table.now ≡ 1280 }
    ensures { result.now ≡ before_blank (drop (8 * opcode_of op) table.now) }
{
    let from = 8 * usize::from(opcode(op));
    before_blank(&table[from..])
}

/// The name of an operation (Dis Virtual Machine Specification).
#[tactic(auto, unfolding(crate::specs::Listing::name_of))]
pub fn op_name(op: Op) -> &'static [u8]
    ensures { result.now ≡ name_of op }
{
    name_in(&NAMES, op)
}
