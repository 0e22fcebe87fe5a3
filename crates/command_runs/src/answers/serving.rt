//! The lines of answered rows. rows.rt and cells.rt serve rows that they read meanwhile.
ghost use Rattle.std.specs.Prelude.{[], ◌≡◌, ◌<◌, map, replicate, vec_len, IfOk, string_bytes};
ghost use Rattle.command_runs.specs.declared.answers.serving.AnswerFault.TheVariants.{NoMemory};
ghost use Rattle.command_runs.specs.inner.AnswerLines.{TellsOf, answer_fault};

use crate::answers::report::push_line;
use element_core::Form;
use hub_core::ServeFault;
use lane_core::Delivery;
use std::alloc::{AllocError, Global};

/// Why rows have no answers.
#[derive(Clone, Copy, Debug, PartialEq, Eq)]
pub enum AnswerFault {
    /// A thread could not be started.
    NoThread,
    /// A growth was refused.
    NoMemory,
}

impl From<AllocError> for AnswerFault {
    ghost from_gives = { λ refused fault. fault ≡ NoMemory };

    fn from(_: AllocError) -> AnswerFault {
        AnswerFault::NoMemory
    }
}

/// Why rows have no answers if `serve_traffic` fails. It never reports `BadCount`. `live_fault_of` of
/// live/answering.rt does the same for a live input.
pub fn fault_of(fault: ServeFault) -> AnswerFault
    ensures { result ≡ answer_fault fault }
{
    match fault {
        ServeFault::NoThread => AnswerFault::NoThread,
        ServeFault::NoMemory | ServeFault::BadCount => AnswerFault::NoMemory,
    }
}

/// Appends the line of the answer to a delivery to the text of its lane.
pub fn push_answer_of(texts: &mut Vec<String>, delivery: &Delivery) -> Result<(), AllocError>
    requires { delivery.now.lane < vec_len texts.old }
    ensures { IfOk result (λ _. TellsOf delivery.now texts.old.items texts.new.items) }
{
    let ticket = delivery.ticket();
    let index = usize::from(ticket.lane);
    push_line(
        &mut texts[index],
        Form::HumanReadable,
        ticket.lane,
        ticket.number,
        delivery,
    )
}

/// An empty text for the lines of each lane.
pub fn make_texts(alloc: Global, lanes: u8) -> Result<Vec<String>, AllocError>
    ensures { IfOk result (λ v. map string_bytes v.items ≡ replicate lanes []) }
{
    let mut texts = Vec::with_capacity(alloc, usize::from(lanes))?;
    for _lane in 0..lanes {
        texts.push(String::new(alloc))?;
    }
    Ok(texts)
}
