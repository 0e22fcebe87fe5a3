//! A row that was read.
ghost use Rattle.std.specs.Prelude.{◌≡◌, ◌++◌, OnOk, string_bytes};
ghost use Rattle.scan_core.specs.Answers.{IsAnswer};
ghost use Rattle.scan_core.specs.Lines.{said};

use crate::job::{Job, Plain};
use crate::ticket::Ticket;
use element_core::{Form, Year};
use scan_core::{Answer, Runs, push_row, read_row};
use std::alloc::AllocError;
use std::marker::Model;

/// A job whose row was read: the row keeps what was found in it.
#[derive(Debug, Drop)]
pub struct Delivery {
    job: Job,
}

// Queues, the deliverer's slots and the hub's rings hold deliveries by value, so each additional byte costs memory
// and time there.
const _: () = prove!(size_of::<Delivery>() == 24);

impl Model for Delivery {
    ghost use Rattle.lane_core.specs.declared.job.Plain.{Plain};

    ghost Value = { Plain };

    ghost view = { λ delivery. delivery.job };
}

impl Delivery {
    /// The ticket of the job.
    pub fn ticket(&self) -> Ticket
        ensures lane { result.lane ≡ self.now.lane }
        ensures number { result.number ≡ self.now.number }
    {
        self.job.ticket
    }

    /// The row of the job, which `decode` has read.
    pub fn row(&self) -> &Runs
        ensures { result.now ≡ self.now.widths }
    {
        &self.job.row
    }

    /// The row of the job, so that its memory can be reused.
    pub fn into_row(self) -> Runs
        ensures { result ≡ self.widths }
    {
        self.job.row
    }

    /// The reference year of the job.
    pub fn year(&self) -> Year
        ensures { result ≡ self.now.year }
    {
        self.job.year
    }

    /// The answer to the row by the reference year; there is only one. It computes the elements from what `decode`
    /// found.
    pub fn answer(&self) -> Answer
        ensures { IsAnswer self.now.widths self.now.year result }
    {
        read_row(&self.job.row, self.job.year)
    }

    /// Appends the line of `answer` to a text, with its elements in a form. It makes no list of elements.
    pub fn push_answer(&self, form: Form, text: &mut String) -> Result<(), AllocError>
        ensures { OnOk result ((answer : Answer) × IsAnswer self.now.widths self.now.year answer
            × (string_bytes text.new ≡ string_bytes text.old ++ said form answer)) }
    {
        push_row(&self.job.row, self.job.year, form, text)
    }
}

/// Reads the job's row, up to the elements of its symbol. Ticket, row and year stay.
pub fn decode(job: Job) -> Delivery
    ensures { result ≡ job }
{
    let mut job = job;
    job.row.read_by(job.year);
    Delivery { job }
}
