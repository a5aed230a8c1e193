//! What holds of the inputs.

ghost use Rattle.generator.specs.Laws.{InputsAreCommands, InputsAreSessions, InputsAreShort};

/// The inputs are commands to their end, those of the sessions, in fewer than 2^21 bytes.
pub fn inputs_are_sessions()
    ensures commands { InputsAreCommands }
    ensures frames { InputsAreSessions }
    ensures short { InputsAreShort }
{}
