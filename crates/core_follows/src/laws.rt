//! What the code of every program keeps.

ghost use Rattle.core_follows.specs.Follows.{CodeKeeps};
ghost use Rattle.core_follows.specs.Modules.{ModulesKeep};

/// Whatever the code of a program does next, its program does too: each instruction is matched by none, one or more steps of the program,
/// with one heap, equal releases and equal requests, and the processes name the same values, each as often; of any three instructions in
/// a row one stands for a step. It holds of programs of whose trees nothing is evaluated and whose nodes have the operands that they take
/// (`HandledProgram`).
pub fn core_code_keeps()
    ensures { CodeKeeps }
{}

/// So it is of each checked module of this part of the language: nothing in its trees is missing, its adts have layouts, and declarations
/// name variables. Nothing else is asked of it than that it is sound.
pub fn checked_modules_keep()
    ensures { ModulesKeep }
{}
