//! The units of numbers. tables/ais makes the array of tables/ais.tsv.
ghost use Rattle.std.specs.Prelude.{◌≡◌, map};
ghost use Rattle.answer_core.specs.Units.{unit_in, unit_of, units};
ghost use Rattle.answer_core.specs.inner.Units.{measured_by};

use crate::listed::is_listed;

/// AIs whose numbers have one unit.
#[derive(Clone, Copy)]
struct Measured {
    /// A list of them, in which `n` stands for any digit.
    ais: &'static [u8],
    /// The unit, in UTF-8.
    unit: &'static [u8],
}

#[rattlefmt::skip]
const UNITS: [Measured; 23] = [
    Measured { ais: b"310n,330n", unit: b"kg" },
    Measured { ais: b"311n,312n,313n,331n,332n,333n", unit: b"m" },
    Measured { ais: b"314n,334n", unit: b"m\xc2\xb2" },
    Measured { ais: b"315n,335n", unit: b"l" },
    Measured { ais: b"316n,336n", unit: b"m\xc2\xb3" },
    Measured { ais: b"320n,340n", unit: b"lb" },
    Measured { ais: b"321n,324n,327n,341n,344n,347n", unit: b"in" },
    Measured { ais: b"322n,325n,328n,342n,345n,348n", unit: b"ft" },
    Measured { ais: b"323n,326n,329n,343n,346n,349n", unit: b"yd" },
    Measured { ais: b"337n", unit: b"kg/m\xc2\xb2" },
    Measured { ais: b"350n,353n", unit: b"in\xc2\xb2" },
    Measured { ais: b"351n,354n", unit: b"ft\xc2\xb2" },
    Measured { ais: b"352n,355n", unit: b"yd\xc2\xb2" },
    Measured { ais: b"356n", unit: b"t oz" },
    Measured { ais: b"357n", unit: b"oz" },
    Measured { ais: b"360n,362n", unit: b"qt" },
    Measured { ais: b"361n,363n", unit: b"gal" },
    Measured { ais: b"364n,367n", unit: b"in\xc2\xb3" },
    Measured { ais: b"365n,368n", unit: b"ft\xc2\xb3" },
    Measured { ais: b"366n,369n", unit: b"yd\xc2\xb3" },
    Measured { ais: b"394n", unit: b"%" },
    Measured { ais: b"4330,4332", unit: b"\xc2\xb0F" },
    Measured { ais: b"4331,4333", unit: b"\xc2\xb0C" },
];

fn units() -> &'static [Measured]
    ensures { map measured_by result.now ≡ units }
{
    &UNITS
}

/// The unit of these AIs.
fn unit_in(list: &[Measured], ai: &[u8]) -> &'static [u8]
    ensures { result.now ≡ unit_in ai.now (map measured_by list.now) }
{
    let mut rest = list;
    while let [measured, more @ ..] = rest {
        if is_listed(ai, measured.ais) {
            return measured.unit;
        }
        rest = more;
    }
    b""
}

/// The unit of the numbers of an AI, in UTF-8; no bytes if they have none. Measures, percentages and temperatures
/// have one (GS1 General Specifications, section 3.6).
pub fn unit_of(ai: &[u8]) -> &'static [u8]
    ensures { result.now ≡ unit_of ai.now }
{
    unit_in(units(), ai)
}
