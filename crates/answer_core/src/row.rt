//! Answers rows.
ghost use Rattle.std.specs.Prelude.{◌≡◌, ◌≤◌, ◌*◌, IfErr, None, Some, IfOk, length};
ghost use Rattle.scan_core.specs.Faults.{row_fault_text};
ghost use Rattle.scan_core.specs.declared.answer.Answer.TheVariants.{Refused};
ghost use Rattle.scan_core.specs.declared.fault.RowFault.{RowFault};
ghost use Rattle.answer_core.specs.inner.Answers.{IsShort};
ghost use Rattle.answer_core.specs.Rows.{IsDotsAnswer, IsNoRow, IsWidthsAnswer, TellsRowAnswer, packed_fault};

use crate::answer::Answer;
use crate::symbol::{SymbolKind, as_four, carrier_symbol};
use element_core::Year;
use scan_core::{Answer as RowAnswer, RunFault, find_dots, find_widths};

/// The most dots of a row.
const MOST_DOTS: u32 = 65_535;

/// How many dots a row of this many packed dots has, or why it is none.
pub fn dots_in(bits: &[u8], count: u32) -> Result<u16, RunFault>
    ensures ok { IfOk result (λ dots. (packed_fault (length bits.now) count ≡ None) × (dots ≡ count) × (count ≤ 8 * length bits.now)) }
    ensures err { IfErr result (λ fault. packed_fault (length bits.now) count ≡ Some fault) }
{
    if (bits.len() as u64) < u64::from(count.div_ceil(8)) {
        return Err(RunFault::BadRuns);
    }
    if count > MOST_DOTS {
        return Err(RunFault::TooWide);
    }
    Ok(count as u16)
}

impl Answer {
    /// Writes why there is no row.
    fn tell_no_row(&mut self, fault: RunFault)
        ensures { IsNoRow fault self.new }
    {
        self.name(SymbolKind::Unknown, [0; 4]);
        self.refuse_said(fault.refusal());
    }

    /// Writes the answer to a row.
    fn tell_row(&mut self, said: &RowAnswer, terms: Year)
        requires { (fault : RowFault) → said.now ≡ Refused fault → IsShort (row_fault_text fault) }
        ensures { TellsRowAnswer terms said.now self.new }
    {
        match said {
            RowAnswer::Read { carrier, elements } => {
                let symbol = carrier_symbol(*carrier, elements.bytes());
                self.name(symbol, as_four(carrier.identifier().as_bytes()));
                self.tell(elements, terms);
            }
            RowAnswer::Refused(fault) => {
                self.name(SymbolKind::Unknown, [0; 4]);
                self.refuse_said(fault.refusal());
            }
        }
    }

    /// Reads the row of these widths in dots, light first and last, as `read_row` does; or writes why they are no
    /// row.
    pub fn read_widths(&mut self, widths: &[u16], terms: Year)
        ensures { IsWidthsAnswer terms widths.now self.new }
    {
        match &find_widths(widths) {
            Ok(found) => self.tell_row(&found.answer(terms), terms),
            Err(fault) => self.tell_no_row(*fault),
        }
    }

    /// Reads a row of this many packed dots; or writes why they are no row. The first dot of a byte is its high bit,
    /// and 1 is dark.
    pub fn read_dots(&mut self, bits: &[u8], count: u32, terms: Year)
        ensures { IsDotsAnswer terms bits.now count self.new }
    {
        match dots_in(bits, count) {
            Ok(dots) => self.tell_row(&find_dots(bits, dots).answer(terms), terms),
            Err(fault) => self.tell_no_row(fault),
        }
    }
}
