//! The command that a command line gives, or the reply in its place.
ghost use Rattle.std.specs.Prelude.{◌≡◌, MatchResult, map, string_bytes};
ghost use Rattle.cn_words.specs.Replies.{GivesCommand, GivesReply, IsReplyOf};
ghost use Rattle.cn_words.specs.declared.commands.CommandFault.TheVariants as fault;
ghost use Rattle.cn_words.specs.declared.replies.Reply.TheVariants as reply;

use crate::commands::{CommandFault, Invocation, invocation_of};
use crate::words::command;
use clap::Error;
use clap::error::ErrorKind;
use std::alloc::{AllocError, Global};

/// The reply to words that run no command.
#[derive(Drop)]
pub enum Reply {
    /// The help or the version that the words ask for, for standard output.
    Help(String),
    /// The error in the words, for standard error.
    Refusal(String),
    /// No command was made.
    Fault(CommandFault),
}

impl From<AllocError> for Reply {
    ghost from_gives = { λ _ told. told ≡ reply.Fault fault.OutOfMemory };

    fn from(_error: AllocError) -> Reply {
        Reply::Fault(CommandFault::OutOfMemory)
    }
}

// The reply to an error of clap.
fn reply_to(alloc: Global, error: &Error) -> Reply
    ensures { IsReplyOf error.now result }
{
    if error.kind() == ErrorKind::OutOfMemory {
        return Reply::Fault(CommandFault::OutOfMemory);
    }
    match format!(in alloc; "{error}") {
        Ok(text) if error.use_stderr() => Reply::Refusal(text),
        Ok(text) => Reply::Help(text),
        Err(_) => Reply::Fault(CommandFault::OutOfMemory),
    }
}

/// The command that the words give. The first word is the name of the program.
///
/// # Errors
///
/// The text of the help or the version if the words ask for it, or the text of the error in the
/// words; `OutOfMemory` for want of memory.
pub fn parse<'a>(alloc: Global, words: &'a [String]) -> Result<Invocation<'a>, Reply>
    // promise: command-line (GivesCommand, GivesReply)
    ensures { MatchResult result (GivesCommand (map string_bytes words.entry.now))
        (GivesReply (map string_bytes words.entry.now)) }
{
    match command(alloc)?.try_get_matches_from(words) {
        Ok(matches) => match invocation_of(alloc, &matches) {
            Ok(invocation) => Ok(invocation),
            Err(fault) => Err(Reply::Fault(fault)),
        },
        Err(error) => Err(reply_to(alloc, &error)),
    }
}
