//! The Application Identifiers (GS1 General Specifications, section 3.2). tables/ais makes the lists from
//! tables/ais.tsv.

ghost use Rattle.std.specs.Prelude.{◌≡◌, map};
ghost use Rattle.element_core.specs.Table.{first_families, last_families};
ghost use Rattle.element_core.specs.inner.Families.{families_from, family_of};

use crate::family::AiFamily;
use crate::formats::{
    BASE64_URL_1_90, CAPITALS_1_34, COMPONENT_1_30_COMPANY_PREFIX, HYPHEN_0_1, IMPORTER_1, N0_12,
    N1, N1_4, N1_6, N1_8, N1_10, N1_12_NO_LEADING_ZERO, N1_15, N2, N2_MEDIA, N3, N3_15_BY_3,
    N3_NON_ZERO, N4, N4_NON_ZERO, N4_PIECE_OF_TOTAL, N5_NON_ZERO, N6, N6_10_DAY_PERHAPS_TIME,
    N6_12_ONE_OR_TWO_DAYS, N6_DATE, N6_DAY, N8_12_DATE_AND_TIME, N8_LONG_DAY, N10_DATE_AND_TIME,
    N10_DAY_OR_MONTH_AND_TIME, N10_LATITUDE, N10_LONGITUDE, N12_LONG_DAY_AND_TIME, N13, N13_CHECK,
    N14_CHECK, N17_CHECK, N18_CHECK, SEX_1, WINDING_1, X0_16, X0_17, X1_2, X1_3, X1_4, X1_9, X1_10,
    X1_12, X1_20, X1_25, X1_25_CHECKED_COMPANY_PREFIX, X1_25_CHECKED_MODEL_NUMBER, X1_27, X1_28,
    X1_30, X1_30_COMPANY_PREFIX, X1_35_PERCENT, X1_40_PERCENT, X1_50, X1_70, X1_70_PERCENT, X1_90,
    X1_90_PERCENT, X2, X3_POSITION, YES_NO_1, ZERO_1,
};

/// The families of AIs that begin with 0 to 4, in rising order.
#[rattlefmt::skip]
const FIRST_FAMILIES: [AiFamily; 58] = [
    AiFamily { least: b"00", greatest: b"00", parts: &[N18_CHECK], predefined: true, profile: true },
    AiFamily { least: b"01", greatest: b"02", parts: &[N14_CHECK], predefined: true, profile: true },
    AiFamily { least: b"03", greatest: b"03", parts: &[N14_CHECK], predefined: true, profile: false },
    AiFamily { least: b"10", greatest: b"10", parts: &[X1_20], predefined: false, profile: true },
    AiFamily { least: b"11", greatest: b"13", parts: &[N6_DATE], predefined: true, profile: true },
    AiFamily { least: b"15", greatest: b"17", parts: &[N6_DATE], predefined: true, profile: true },
    AiFamily { least: b"20", greatest: b"20", parts: &[N2], predefined: true, profile: true },
    AiFamily { least: b"21", greatest: b"22", parts: &[X1_20], predefined: false, profile: true },
    AiFamily { least: b"235", greatest: b"235", parts: &[X1_28], predefined: false, profile: false },
    AiFamily { least: b"240", greatest: b"241", parts: &[X1_30], predefined: false, profile: true },
    AiFamily { least: b"242", greatest: b"242", parts: &[N1_6], predefined: false, profile: false },
    AiFamily { least: b"243", greatest: b"243", parts: &[X1_20], predefined: false, profile: false },
    AiFamily { least: b"250", greatest: b"250", parts: &[X1_30], predefined: false, profile: true },
    AiFamily { least: b"251", greatest: b"251", parts: &[X1_30], predefined: false, profile: false },
    AiFamily { least: b"253", greatest: b"253", parts: &[N13_CHECK, X0_17], predefined: false, profile: true },
    AiFamily { least: b"254", greatest: b"254", parts: &[X1_20], predefined: false, profile: true },
    AiFamily { least: b"255", greatest: b"255", parts: &[N13_CHECK, N0_12], predefined: false, profile: false },
    AiFamily { least: b"30", greatest: b"30", parts: &[N1_8], predefined: false, profile: true },
    AiFamily { least: b"3100", greatest: b"3165", parts: &[N6], predefined: true, profile: true },
    AiFamily { least: b"3200", greatest: b"3295", parts: &[N6], predefined: true, profile: true },
    AiFamily { least: b"3300", greatest: b"3375", parts: &[N6], predefined: true, profile: true },
    AiFamily { least: b"3400", greatest: b"3495", parts: &[N6], predefined: true, profile: true },
    AiFamily { least: b"3500", greatest: b"3575", parts: &[N6], predefined: true, profile: true },
    AiFamily { least: b"3600", greatest: b"3695", parts: &[N6], predefined: true, profile: true },
    AiFamily { least: b"37", greatest: b"37", parts: &[N1_8], predefined: false, profile: true },
    AiFamily { least: b"3900", greatest: b"3909", parts: &[N1_15], predefined: false, profile: true },
    AiFamily { least: b"3910", greatest: b"3919", parts: &[N3, N1_15], predefined: false, profile: true },
    AiFamily { least: b"3920", greatest: b"3929", parts: &[N1_15], predefined: false, profile: true },
    AiFamily { least: b"3930", greatest: b"3939", parts: &[N3, N1_15], predefined: false, profile: true },
    AiFamily { least: b"3940", greatest: b"3943", parts: &[N4], predefined: false, profile: false },
    AiFamily { least: b"3950", greatest: b"3955", parts: &[N6], predefined: false, profile: false },
    AiFamily { least: b"400", greatest: b"401", parts: &[X1_30], predefined: false, profile: true },
    AiFamily { least: b"402", greatest: b"402", parts: &[N17_CHECK], predefined: false, profile: true },
    AiFamily { least: b"403", greatest: b"403", parts: &[X1_30], predefined: false, profile: true },
    AiFamily { least: b"410", greatest: b"417", parts: &[N13_CHECK], predefined: true, profile: true },
    AiFamily { least: b"420", greatest: b"420", parts: &[X1_20], predefined: false, profile: true },
    AiFamily { least: b"421", greatest: b"421", parts: &[N3, X1_9], predefined: false, profile: false },
    AiFamily { least: b"422", greatest: b"422", parts: &[N3], predefined: false, profile: true },
    AiFamily { least: b"423", greatest: b"423", parts: &[N3_15_BY_3], predefined: false, profile: false },
    AiFamily { least: b"424", greatest: b"424", parts: &[N3], predefined: false, profile: false },
    AiFamily { least: b"425", greatest: b"425", parts: &[N3_15_BY_3], predefined: false, profile: false },
    AiFamily { least: b"426", greatest: b"426", parts: &[N3], predefined: false, profile: false },
    AiFamily { least: b"427", greatest: b"427", parts: &[X1_3], predefined: false, profile: false },
    AiFamily { least: b"4300", greatest: b"4301", parts: &[X1_35_PERCENT], predefined: false, profile: false },
    AiFamily { least: b"4302", greatest: b"4306", parts: &[X1_70_PERCENT], predefined: false, profile: false },
    AiFamily { least: b"4307", greatest: b"4307", parts: &[X2], predefined: false, profile: false },
    AiFamily { least: b"4308", greatest: b"4308", parts: &[X1_30], predefined: false, profile: false },
    AiFamily { least: b"4309", greatest: b"4309", parts: &[N10_LATITUDE, N10_LONGITUDE], predefined: false, profile: false },
    AiFamily { least: b"4310", greatest: b"4311", parts: &[X1_35_PERCENT], predefined: false, profile: false },
    AiFamily { least: b"4312", greatest: b"4316", parts: &[X1_70_PERCENT], predefined: false, profile: false },
    AiFamily { least: b"4317", greatest: b"4317", parts: &[X2], predefined: false, profile: false },
    AiFamily { least: b"4318", greatest: b"4318", parts: &[X1_20], predefined: false, profile: false },
    AiFamily { least: b"4319", greatest: b"4319", parts: &[X1_30], predefined: false, profile: false },
    AiFamily { least: b"4320", greatest: b"4320", parts: &[X1_35_PERCENT], predefined: false, profile: false },
    AiFamily { least: b"4321", greatest: b"4323", parts: &[YES_NO_1], predefined: false, profile: false },
    AiFamily { least: b"4324", greatest: b"4325", parts: &[N10_DAY_OR_MONTH_AND_TIME], predefined: false, profile: false },
    AiFamily { least: b"4326", greatest: b"4326", parts: &[N6_DAY], predefined: false, profile: false },
    AiFamily { least: b"4330", greatest: b"4333", parts: &[N6, HYPHEN_0_1], predefined: false, profile: false },
];

/// The families of AIs that begin with 5 to 9, in rising order.
#[rattlefmt::skip]
const LAST_FAMILIES: [AiFamily; 56] = [
    AiFamily { least: b"7001", greatest: b"7001", parts: &[N13], predefined: false, profile: false },
    AiFamily { least: b"7002", greatest: b"7002", parts: &[X1_30], predefined: false, profile: false },
    AiFamily { least: b"7003", greatest: b"7003", parts: &[N10_DATE_AND_TIME], predefined: false, profile: true },
    AiFamily { least: b"7004", greatest: b"7004", parts: &[N1_4], predefined: false, profile: false },
    AiFamily { least: b"7005", greatest: b"7005", parts: &[X1_12], predefined: false, profile: false },
    AiFamily { least: b"7006", greatest: b"7006", parts: &[N6_DAY], predefined: false, profile: false },
    AiFamily { least: b"7007", greatest: b"7007", parts: &[N6_12_ONE_OR_TWO_DAYS], predefined: false, profile: false },
    AiFamily { least: b"7008", greatest: b"7008", parts: &[X1_3], predefined: false, profile: false },
    AiFamily { least: b"7009", greatest: b"7009", parts: &[X1_10], predefined: false, profile: false },
    AiFamily { least: b"7010", greatest: b"7010", parts: &[X1_2], predefined: false, profile: false },
    AiFamily { least: b"7011", greatest: b"7011", parts: &[N6_10_DAY_PERHAPS_TIME], predefined: false, profile: false },
    AiFamily { least: b"7020", greatest: b"7022", parts: &[X1_20], predefined: false, profile: false },
    AiFamily { least: b"7023", greatest: b"7023", parts: &[X1_30_COMPANY_PREFIX], predefined: false, profile: false },
    AiFamily { least: b"7030", greatest: b"7039", parts: &[N3, X1_27], predefined: false, profile: false },
    AiFamily { least: b"7040", greatest: b"7040", parts: &[N1, X2, IMPORTER_1], predefined: false, profile: false },
    AiFamily { least: b"7041", greatest: b"7041", parts: &[X1_4], predefined: false, profile: false },
    AiFamily { least: b"710", greatest: b"716", parts: &[X1_20], predefined: false, profile: false },
    AiFamily { least: b"7230", greatest: b"7239", parts: &[X2, X1_28], predefined: false, profile: false },
    AiFamily { least: b"7240", greatest: b"7240", parts: &[X1_20], predefined: false, profile: false },
    AiFamily { least: b"7241", greatest: b"7241", parts: &[N2_MEDIA], predefined: false, profile: false },
    AiFamily { least: b"7242", greatest: b"7242", parts: &[X1_25], predefined: false, profile: false },
    AiFamily { least: b"7250", greatest: b"7250", parts: &[N8_LONG_DAY], predefined: false, profile: false },
    AiFamily { least: b"7251", greatest: b"7251", parts: &[N12_LONG_DAY_AND_TIME], predefined: false, profile: false },
    AiFamily { least: b"7252", greatest: b"7252", parts: &[SEX_1], predefined: false, profile: false },
    AiFamily { least: b"7253", greatest: b"7254", parts: &[X1_40_PERCENT], predefined: false, profile: false },
    AiFamily { least: b"7255", greatest: b"7255", parts: &[X1_10], predefined: false, profile: false },
    AiFamily { least: b"7256", greatest: b"7256", parts: &[X1_90_PERCENT], predefined: false, profile: false },
    AiFamily { least: b"7257", greatest: b"7257", parts: &[X1_70_PERCENT], predefined: false, profile: false },
    AiFamily { least: b"7258", greatest: b"7258", parts: &[X3_POSITION], predefined: false, profile: false },
    AiFamily { least: b"7259", greatest: b"7259", parts: &[X1_40_PERCENT], predefined: false, profile: false },
    AiFamily { least: b"8001", greatest: b"8001", parts: &[N4_NON_ZERO, N5_NON_ZERO, N3_NON_ZERO, WINDING_1, N1], predefined: false, profile: false },
    AiFamily { least: b"8002", greatest: b"8002", parts: &[X1_20], predefined: false, profile: false },
    AiFamily { least: b"8003", greatest: b"8003", parts: &[ZERO_1, N13_CHECK, X0_16], predefined: false, profile: false },
    AiFamily { least: b"8004", greatest: b"8004", parts: &[X1_30_COMPANY_PREFIX], predefined: false, profile: false },
    AiFamily { least: b"8005", greatest: b"8005", parts: &[N6], predefined: false, profile: true },
    AiFamily { least: b"8006", greatest: b"8006", parts: &[N14_CHECK, N4_PIECE_OF_TOTAL], predefined: false, profile: false },
    AiFamily { least: b"8007", greatest: b"8007", parts: &[CAPITALS_1_34], predefined: false, profile: false },
    AiFamily { least: b"8008", greatest: b"8008", parts: &[N8_12_DATE_AND_TIME], predefined: false, profile: true },
    AiFamily { least: b"8009", greatest: b"8009", parts: &[X1_50], predefined: false, profile: false },
    AiFamily { least: b"8010", greatest: b"8010", parts: &[COMPONENT_1_30_COMPANY_PREFIX], predefined: false, profile: false },
    AiFamily { least: b"8011", greatest: b"8011", parts: &[N1_12_NO_LEADING_ZERO], predefined: false, profile: false },
    AiFamily { least: b"8012", greatest: b"8012", parts: &[X1_20], predefined: false, profile: false },
    AiFamily { least: b"8013", greatest: b"8013", parts: &[X1_25_CHECKED_COMPANY_PREFIX], predefined: false, profile: false },
    AiFamily { least: b"8014", greatest: b"8014", parts: &[X1_25_CHECKED_MODEL_NUMBER], predefined: false, profile: false },
    AiFamily { least: b"8017", greatest: b"8017", parts: &[N18_CHECK], predefined: false, profile: false },
    AiFamily { least: b"8018", greatest: b"8018", parts: &[N18_CHECK], predefined: false, profile: true },
    AiFamily { least: b"8019", greatest: b"8019", parts: &[N1_10], predefined: false, profile: false },
    AiFamily { least: b"8020", greatest: b"8020", parts: &[X1_25], predefined: false, profile: true },
    AiFamily { least: b"8026", greatest: b"8026", parts: &[N14_CHECK, N4_PIECE_OF_TOTAL], predefined: false, profile: false },
    AiFamily { least: b"8030", greatest: b"8030", parts: &[BASE64_URL_1_90], predefined: false, profile: false },
    AiFamily { least: b"8110", greatest: b"8110", parts: &[X1_70], predefined: false, profile: false },
    AiFamily { least: b"8111", greatest: b"8111", parts: &[N4], predefined: false, profile: false },
    AiFamily { least: b"8112", greatest: b"8112", parts: &[X1_70], predefined: false, profile: false },
    AiFamily { least: b"8200", greatest: b"8200", parts: &[X1_70], predefined: false, profile: false },
    AiFamily { least: b"90", greatest: b"90", parts: &[X1_30], predefined: false, profile: true },
    AiFamily { least: b"91", greatest: b"99", parts: &[X1_90], predefined: false, profile: true },
];

/// The families of AIs that begin with 0 to 4.
fn first_families() -> &'static [AiFamily]
    ensures { map family_of result.now ≡ first_families }
{
    &FIRST_FAMILIES
}

/// The families of AIs that begin with 5 to 9.
fn last_families() -> &'static [AiFamily]
    ensures { map family_of result.now ≡ last_families }
{
    &LAST_FAMILIES
}

/// The families among which those of this first byte are.
pub(crate) fn families_from(first: u8) -> &'static [AiFamily]
    ensures { map family_of result.now ≡ families_from first }
{
    if first < 53 {
        first_families()
    } else {
        last_families()
    }
}
