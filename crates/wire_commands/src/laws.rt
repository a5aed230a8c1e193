//! What the definitions of commands, replies and inputs satisfy. The functions do nothing.

ghost use Rattle.wire_commands.specs.HasText.{CommandsAreReadAgain, CommandsHaveOneText, RepliesAreReadAgain, RepliesHaveOneText};
ghost use Rattle.wire_commands.specs.Inputs.{FramesAreCommands, InputsAreFrames, InputsGoOn};

/// The text of a command is read as that command, and no other text is.
pub fn command_laws()
    ensures again { CommandsAreReadAgain }
    ensures one_text { CommandsHaveOneText }
{}

/// The text of a reply is read as that reply where its command has replies of that form, and no
/// other text is.
pub fn reply_laws()
    ensures again { RepliesAreReadAgain }
    ensures one_text { RepliesHaveOneText }
{}

/// The commands of an input are what the bodies of its frames spell, up to BYE or the first body
/// that spells none.
pub fn input_laws()
    ensures front { FramesAreCommands }
    ensures frames { InputsAreFrames }
    ensures next { InputsGoOn }
{}
