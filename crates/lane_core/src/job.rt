//! A row that waits to be read; and `Plain`, its form in contracts before and after.

use crate::ticket::Ticket;
use element_core::Year;
use scan_core::Runs;
use std::collections::LinkedList;
use std::marker::Model;

/// What contracts see of a job and of a delivery. It exists only in contracts.
pub struct Plain {
    /// The ticket's lane.
    pub lane: u8,
    /// The ticket's number.
    pub number: u32,
    /// The reference year.
    pub year: Year,
    /// The row's widths in dots. To contracts a `LinkedList` is a plain list.
    pub widths: LinkedList<u16>,
}

/// A row under its ticket, to be read by the reference year.
#[derive(Debug, Drop)]
pub struct Job {
    /// The row's ticket.
    pub ticket: Ticket,
    /// The row.
    pub row: Runs,
    /// The reference year of its dates.
    pub year: Year,
}

impl Model for Job {
    ghost use Rattle.lane_core.specs.declared.job.Plain.{Plain};

    ghost Value = { Plain };

    ghost use Rattle.lane_core.specs.Plain.{plain_of};

    ghost view = { λ job. plain_of job.ticket.lane job.ticket.number job.year job.row };
}
