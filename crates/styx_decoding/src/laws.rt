ghost use Rattle.std.specs.Prelude.{◌≡◌, ℕ, List, [], ◌++◌, length, Result};
ghost use Rattle.styx_msg.specs.declared.fault.StyxFault.{StyxFault};
ghost use Rattle.styx_msg.specs.declared.message.Tmsg.{Tmsg};
ghost use Rattle.styx_msg.specs.declared.message.Rmsg.{Rmsg};
ghost use Rattle.styx_msg.specs.Styx.{t_row, r_row, spelling, Fits};
ghost use Rattle.styx_msg.specs.Answers.{OrNoMemory};
ghost use Rattle.styx_decoding.specs.Decoding.{IsAnswer};

#[allow(unused_imports)]
use styx_msg::Decoded;

/// No request's spelling begins another's, and no two requests have one spelling.
pub fn one_request()
    ensures { (tag other_tag : ℕ) (m other : Tmsg) (rest : List ℕ) → Fits tag (t_row m) → Fits other_tag (t_row other)
        → spelling tag (t_row m) ++ rest ≡ spelling other_tag (t_row other)
        → (tag ≡ other_tag) × (m ≡ other) × (rest ≡ []) }
{}

/// No reply's spelling begins another's, and no two replies have one spelling.
pub fn one_reply()
    ensures { (tag other_tag : ℕ) (m other : Rmsg) (rest : List ℕ) → Fits tag (r_row m) → Fits other_tag (r_row other)
        → spelling tag (r_row m) ++ rest ≡ spelling other_tag (r_row other)
        → (tag ≡ other_tag) × (m ≡ other) × (rest ≡ []) }
{}

/// No bytes begin with a request and with a reply.
pub fn one_direction()
    ensures { (tag other_tag : ℕ) (m : Tmsg) (other : Rmsg) (rest more : List ℕ)
        → Fits tag (t_row m) → Fits other_tag (r_row other)
        → spelling tag (t_row m) ++ rest ≡ spelling other_tag (r_row other) ++ more → ⊥ }
{}

/// What `decode_t` answers at a request's spelling with anything behind it is that request, its tag and its length,
/// unless memory runs out.
pub fn request_read_back()
    ensures { (tag : ℕ) (m : Tmsg) (rest : List ℕ) (answer : Result (Decoded Tmsg) StyxFault) → Fits tag (t_row m)
        → IsAnswer t_row (spelling tag (t_row m) ++ rest) answer
        → OrNoMemory answer (Ok (Decoded.Whole tag m (length (spelling tag (t_row m))))) }
{}

/// What `decode_r` answers at a reply's spelling with anything behind it is that reply, its tag and its length,
/// unless memory runs out.
pub fn reply_read_back()
    ensures { (tag : ℕ) (m : Rmsg) (rest : List ℕ) (answer : Result (Decoded Rmsg) StyxFault) → Fits tag (r_row m)
        → IsAnswer r_row (spelling tag (r_row m) ++ rest) answer
        → OrNoMemory answer (Ok (Decoded.Whole tag m (length (spelling tag (r_row m))))) }
{}
