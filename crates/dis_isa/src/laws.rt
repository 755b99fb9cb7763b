ghost use Rattle.std.specs.Prelude.{◌≡◌, ◌≤◌, ◌↔◌, ℕ, Some, None};
ghost use Rattle.dis_isa.specs.declared.op.Op.{Op};
ghost use Rattle.dis_isa.specs.Opcodes.{opcode_at};

/// The table gives each operation exactly one opcode, from 0 to 0x9F, and each of these opcodes one operation. So
/// `op_of` and `code_of` undo each other.
pub fn one_opcode_each()
    ensures every_operation { (op : Op) → (n : ℕ) × (opcode_at n ≡ Some op) }
    ensures one_number { (m n : ℕ) (op : Op) → opcode_at m ≡ Some op → opcode_at n ≡ Some op → m ≡ n }
    ensures none_above { (n : ℕ) → (opcode_at n ≡ None) ↔ (0xA0 ≤ n) }
{}
