//! The replies of a turn before they are written, and their lines.
ghost use Rattle.std.specs.Prelude.{All, OnOk, string_bytes};
ghost use Rattle.command_runs.specs.inner.Came.{IsReady, IsToldBy, TellsPending};
ghost use Rattle.command_runs.specs.inner.Meaning.{told_of};
ghost use Rattle.command_runs.specs.inner.Texts.{Adds};
ghost use Rattle.command_runs.specs.live.Answering.{AnswersBy};
ghost use Rattle.command_runs.specs.live.Replies.Told.{Message};

use crate::answers::report::{push_line, push_number};
use crate::live::record::Notice;
use crate::live::terms::LiveTerms;
use crate::live::waiting::Waiting;
use message_core::message_line;
use std::alloc::AllocError;
use std::fmt::Write;

/// The reply to a record.
#[derive(Debug, Drop)]
pub enum PendingReply {
    /// The answer to the row of this lane and number.
    Row(u8, u32),
    /// The notice, instead of an answer.
    Notice(Notice),
}

/// Appends the line of a message: its lane, `-` instead of a number, and its elements or its error.
fn push_message(
    text: &mut String,
    terms: &LiveTerms,
    lane: u8,
    message: &[u8],
) -> Result<(), AllocError>
    ensures { Adds result text.old text.new (IsToldBy terms.now (Message lane message.now)) }
{
    let line = message_line(terms.form, message, terms.year);
    push_number(text, usize::from(lane))?;
    text.push_str("- ")?;
    write!(text, "{line}")?;
    text.push('\n')
}

/// Appends the line of a notice, with `-` instead of a number, and instead of a lane if it names none.
fn push_notice(text: &mut String, terms: &LiveTerms, notice: &Notice) -> Result<(), AllocError>
    ensures { Adds result text.old text.new (IsToldBy terms.now (told_of notice.now)) }
{
    match notice {
        Notice::Message(lane, message) => push_message(text, terms, *lane, message.as_slice()),
        Notice::Refused(lane, fault) => {
            match lane {
                Some(lane) => push_number(text, usize::from(*lane))?,
                None => text.push_str("- ")?,
            }
            text.push_str("- ")?;
            write!(text, "{fault}")?;
            text.push('\n')
        }
    }
}

/// Appends the line of a reply.
fn push_reply(
    text: &mut String,
    terms: &LiveTerms,
    lanes: &[Waiting],
    reply: &PendingReply,
) -> Result<(), AllocError>
    requires { IsReady lanes.now reply.now }
    ensures { Adds result text.old text.new (TellsPending terms.now lanes.now reply.now) }
{
    match reply {
        PendingReply::Row(lane, number) => {
            let waiting = &lanes[usize::from(*lane)];
            let index = (*number - waiting.first) as usize;
            push_line(text, terms.form, *lane, *number, &waiting.deliveries[index])
        }
        PendingReply::Notice(notice) => push_notice(text, terms, notice),
    }
}

/// Replaces the text by the lines of the replies.
pub fn push_replies(
    text: &mut String,
    terms: &LiveTerms,
    lanes: &[Waiting],
    replies: &[PendingReply],
) -> Result<(), AllocError>
    requires { All (IsReady lanes.now) replies.now }
    ensures { OnOk result (AnswersBy (TellsPending terms.now lanes.now) replies.now (string_bytes text.new)) }
{
    text.clear();
    for reply in replies {
        push_reply(text, terms, lanes, reply)?;
    }
    Ok(())
}
