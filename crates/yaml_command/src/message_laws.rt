//! Laws of messages. Each function has an empty body, and its contract is a law.
ghost use Rattle.yaml_command.specs.MessageLaws.{MessagesAreLines};

/// The line of a fault is its message, between what the line begins with and the line feed.
pub fn messages_are_lines()
    ensures { MessagesAreLines }
{}
