//! Which elements the standard requires or forbids beside others (GS1 General Specifications, section 4.13).
//! tables/ais makes the arrays from tables/ais.tsv.
ghost use Rattle.std.specs.Prelude.{◌≡◌, map};
ghost use Rattle.answer_core.specs.Associations.{associations_0_to_2, associations_3, associations_4, associations_7, associations_8, associations_from};
ghost use Rattle.answer_core.specs.inner.Associations.{association_of};

/// What some AIs require of the other elements. Lists are as `01,02,310n`, in which `n` stands for any digit.
#[derive(Clone, Copy)]
pub(crate) struct Association {
    /// The AIs with this requirement.
    pub(crate) ais: &'static [u8],
    /// Whether none of the others may be there; otherwise one of them must be.
    pub(crate) excludes: bool,
    /// The others.
    pub(crate) others: &'static [u8],
}

/// What AIs that begin with 0 to 2 ask.
#[rattlefmt::skip]
const ASSOCIATIONS_0_TO_2: [Association; 14] = [
    Association { ais: b"01", excludes: true, others: b"255,37" },
    Association { ais: b"02", excludes: false, others: b"37" },
    Association { ais: b"03", excludes: true, others: b"01,02,37" },
    Association { ais: b"10,11,13,15,16,20", excludes: false, others: b"01,02,03,8006,8026" },
    Association { ais: b"12", excludes: false, others: b"8020" },
    Association { ais: b"17", excludes: false, others: b"01,02,03,255,8006,8026" },
    Association { ais: b"21", excludes: false, others: b"01,03,8006" },
    Association { ais: b"21", excludes: true, others: b"235" },
    Association { ais: b"22,235,243", excludes: false, others: b"01" },
    Association { ais: b"240,241,242", excludes: false, others: b"01,02,8006,8026" },
    Association { ais: b"250,251", excludes: false, others: b"01,8006" },
    Association { ais: b"250", excludes: false, others: b"21" },
    Association { ais: b"254", excludes: false, others: b"414" },
    Association { ais: b"255", excludes: true, others: b"01,02,415,8006,8020,8026" },
];

/// What AIs that begin with 3 ask.
#[rattlefmt::skip]
const ASSOCIATIONS_3: [Association; 67] = [
    Association { ais: b"30,310n,311n,312n,313n,314n,315n,316n,320n,321n,322n,323n,324n,325n,326n,327n,328n,329n,350n,351n,352n,356n,357n,360n,361n,364n,365n,366n", excludes: false, others: b"01,02" },
    Association { ais: b"310n", excludes: true, others: b"310n" },
    Association { ais: b"311n", excludes: true, others: b"311n" },
    Association { ais: b"312n", excludes: true, others: b"312n" },
    Association { ais: b"313n", excludes: true, others: b"313n" },
    Association { ais: b"314n", excludes: true, others: b"314n" },
    Association { ais: b"315n", excludes: true, others: b"315n" },
    Association { ais: b"316n", excludes: true, others: b"316n" },
    Association { ais: b"320n", excludes: true, others: b"320n" },
    Association { ais: b"321n", excludes: true, others: b"321n" },
    Association { ais: b"322n", excludes: true, others: b"322n" },
    Association { ais: b"323n", excludes: true, others: b"323n" },
    Association { ais: b"324n", excludes: true, others: b"324n" },
    Association { ais: b"325n", excludes: true, others: b"325n" },
    Association { ais: b"326n", excludes: true, others: b"326n" },
    Association { ais: b"327n", excludes: true, others: b"327n" },
    Association { ais: b"328n", excludes: true, others: b"328n" },
    Association { ais: b"329n", excludes: true, others: b"329n" },
    Association { ais: b"330n,331n,332n,333n,334n,335n,336n,340n,341n,342n,343n,344n,345n,346n,347n,348n,349n,353n,354n,355n,362n,363n,367n,368n,369n", excludes: false, others: b"00,01" },
    Association { ais: b"330n", excludes: true, others: b"330n" },
    Association { ais: b"331n", excludes: true, others: b"331n" },
    Association { ais: b"332n", excludes: true, others: b"332n" },
    Association { ais: b"333n", excludes: true, others: b"333n" },
    Association { ais: b"334n", excludes: true, others: b"334n" },
    Association { ais: b"335n", excludes: true, others: b"335n" },
    Association { ais: b"336n", excludes: true, others: b"336n" },
    Association { ais: b"337n,392n,393n,395n", excludes: false, others: b"01" },
    Association { ais: b"337n", excludes: true, others: b"337n" },
    Association { ais: b"340n", excludes: true, others: b"340n" },
    Association { ais: b"341n", excludes: true, others: b"341n" },
    Association { ais: b"342n", excludes: true, others: b"342n" },
    Association { ais: b"343n", excludes: true, others: b"343n" },
    Association { ais: b"344n", excludes: true, others: b"344n" },
    Association { ais: b"345n", excludes: true, others: b"345n" },
    Association { ais: b"346n", excludes: true, others: b"346n" },
    Association { ais: b"347n", excludes: true, others: b"347n" },
    Association { ais: b"348n", excludes: true, others: b"348n" },
    Association { ais: b"349n", excludes: true, others: b"349n" },
    Association { ais: b"350n", excludes: true, others: b"350n" },
    Association { ais: b"351n", excludes: true, others: b"351n" },
    Association { ais: b"352n", excludes: true, others: b"352n" },
    Association { ais: b"353n", excludes: true, others: b"353n" },
    Association { ais: b"354n", excludes: true, others: b"354n" },
    Association { ais: b"355n", excludes: true, others: b"355n" },
    Association { ais: b"356n", excludes: true, others: b"356n" },
    Association { ais: b"357n", excludes: true, others: b"357n" },
    Association { ais: b"360n", excludes: true, others: b"360n" },
    Association { ais: b"361n", excludes: true, others: b"361n" },
    Association { ais: b"362n", excludes: true, others: b"362n" },
    Association { ais: b"363n", excludes: true, others: b"363n" },
    Association { ais: b"364n", excludes: true, others: b"364n" },
    Association { ais: b"365n", excludes: true, others: b"365n" },
    Association { ais: b"366n", excludes: true, others: b"366n" },
    Association { ais: b"367n", excludes: true, others: b"367n" },
    Association { ais: b"368n", excludes: true, others: b"368n" },
    Association { ais: b"369n", excludes: true, others: b"369n" },
    Association { ais: b"37", excludes: false, others: b"02,8026" },
    Association { ais: b"390n", excludes: false, others: b"255,8020" },
    Association { ais: b"390n", excludes: true, others: b"390n,391n,394n,8111" },
    Association { ais: b"391n", excludes: false, others: b"8020" },
    Association { ais: b"391n", excludes: true, others: b"391n" },
    Association { ais: b"392n,393n,395n", excludes: false, others: b"30,31nn,32nn,35nn,36nn" },
    Association { ais: b"392n", excludes: true, others: b"392n,393n" },
    Association { ais: b"393n", excludes: true, others: b"393n" },
    Association { ais: b"394n", excludes: false, others: b"255" },
    Association { ais: b"394n", excludes: true, others: b"394n,8111" },
    Association { ais: b"395n", excludes: true, others: b"392n,393n,395n,8005" },
];

/// What AIs that begin with 4 ask.
#[rattlefmt::skip]
const ASSOCIATIONS_4: [Association; 15] = [
    Association { ais: b"403,4300,4301,4302,4304,4305,4306,4307,4308,4309,4310,4311,4312,4314,4315,4316,4317,4318,4319,4320,4321,4322,4323,4324,4325,4326,4330,4331,4332,4333", excludes: false, others: b"00" },
    Association { ais: b"415", excludes: false, others: b"8020" },
    Association { ais: b"420", excludes: true, others: b"421" },
    Association { ais: b"422", excludes: false, others: b"01,02,8006,8026" },
    Association { ais: b"422,424", excludes: true, others: b"426" },
    Association { ais: b"423,424,425,426,427", excludes: false, others: b"01,02" },
    Association { ais: b"423", excludes: true, others: b"425,426" },
    Association { ais: b"425", excludes: true, others: b"423,426" },
    Association { ais: b"427", excludes: false, others: b"422" },
    Association { ais: b"4303", excludes: false, others: b"4302" },
    Association { ais: b"4313", excludes: false, others: b"4312" },
    Association { ais: b"4330", excludes: true, others: b"4331" },
    Association { ais: b"4331", excludes: true, others: b"4330" },
    Association { ais: b"4332", excludes: true, others: b"4333" },
    Association { ais: b"4333", excludes: true, others: b"4332" },
];

/// What AIs that begin with 7 ask.
#[rattlefmt::skip]
const ASSOCIATIONS_7: [Association; 11] = [
    Association { ais: b"7001", excludes: false, others: b"01,02,8006,8026" },
    Association { ais: b"7002,7003,7005,7006,7007,7008,7009,7010,7011,703n", excludes: false, others: b"01,02" },
    Association { ais: b"7004,710,711,712,713,714,715,716", excludes: false, others: b"01" },
    Association { ais: b"7004", excludes: false, others: b"10" },
    Association { ais: b"7020,7021,7240", excludes: false, others: b"01,8006" },
    Association { ais: b"7020", excludes: false, others: b"416" },
    Association { ais: b"7022", excludes: false, others: b"7021" },
    Association { ais: b"7041", excludes: false, others: b"00" },
    Association { ais: b"723n", excludes: false, others: b"01,8004" },
    Association { ais: b"7241,7242,7253,7254,7255,7256", excludes: false, others: b"8017,8018" },
    Association { ais: b"7250,7251,7252,7257,7258,7259", excludes: false, others: b"8018" },
];

/// What AIs that begin with 8 ask.
#[rattlefmt::skip]
const ASSOCIATIONS_8: [Association; 10] = [
    Association { ais: b"8001,8200", excludes: false, others: b"01" },
    Association { ais: b"8005,8008", excludes: false, others: b"01,02" },
    Association { ais: b"8007,8020", excludes: false, others: b"415" },
    Association { ais: b"8009", excludes: false, others: b"00,01" },
    Association { ais: b"8011", excludes: false, others: b"8010" },
    Association { ais: b"8012", excludes: false, others: b"01,8006" },
    Association { ais: b"8019", excludes: false, others: b"8017,8018" },
    Association { ais: b"8026", excludes: false, others: b"37" },
    Association { ais: b"8030", excludes: false, others: b"00,01,253,255,8003,8004,8006,8010,8017,8018" },
    Association { ais: b"8111", excludes: false, others: b"255" },
];

/// What AIs that begin with 0 to 2 ask.
fn associations_0_to_2() -> &'static [Association]
    ensures { map association_of result.now ≡ associations_0_to_2 }
{
    &ASSOCIATIONS_0_TO_2
}

/// What AIs that begin with 3 ask.
fn associations_3() -> &'static [Association]
    ensures { map association_of result.now ≡ associations_3 }
{
    &ASSOCIATIONS_3
}

/// What AIs that begin with 4 ask.
fn associations_4() -> &'static [Association]
    ensures { map association_of result.now ≡ associations_4 }
{
    &ASSOCIATIONS_4
}

/// What AIs that begin with 7 ask.
fn associations_7() -> &'static [Association]
    ensures { map association_of result.now ≡ associations_7 }
{
    &ASSOCIATIONS_7
}

/// What AIs that begin with 8 ask.
fn associations_8() -> &'static [Association]
    ensures { map association_of result.now ≡ associations_8 }
{
    &ASSOCIATIONS_8
}

/// The requirements of an AI, by its first digit.
pub(crate) fn associations_from(ai: &[u8]) -> &'static [Association]
    ensures { map association_of result.now ≡ associations_from ai.now }
{
    match ai {
        [b'0'..=b'2', ..] => associations_0_to_2(),
        [b'3', ..] => associations_3(),
        [b'4', ..] => associations_4(),
        [b'7', ..] => associations_7(),
        [b'8', ..] => associations_8(),
        _ => &[],
    }
}
