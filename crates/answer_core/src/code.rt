//! Codes of countries and of currencies, the beginning of a GS1 Company Prefix, and GTINs of trade items.
ghost use Rattle.std.specs.Prelude.{◌≡◌, map, take};
ghost use Rattle.answer_core.specs.inner.Codes.{coded_of};
ghost use Rattle.answer_core.specs.Codes.{are_four_digits, coded_list, coding_of, countries, country_letters, currencies, unknown_code, unknown_country, unlisted};

use crate::conflict::ConflictKind;
use crate::gtin_use::no_item;
use crate::listed::is_listed;

/// Where a value has codes, and from which list (GS1 General Specifications, section 3).
#[derive(Clone, Copy, Debug, PartialEq, Eq)]
pub(crate) enum Coding {
    /// The number of a country, its first three digits.
    Country,
    /// Numbers of countries, of three digits each.
    Countries,
    /// The same as `Country`, or 999, which stands for several.
    CountryOrSeveral,
    /// The two letters of a country.
    CountryLetters,
    /// The number of a currency, its first three digits.
    Currency,
    /// A key that begins with a GS1 Company Prefix, of at least four digits.
    Prefix,
    /// A GTIN, which begins the value.
    Gtin,
}

/// AIs whose values have codes.
#[derive(Clone, Copy)]
struct CodedAis {
    /// A list of them, in which `n` stands for any digit.
    ais: &'static [u8],
    /// The error if a code is in no list.
    kind: ConflictKind,
    coding: Coding,
}

#[rattlefmt::skip]
const CODED: [CodedAis; 7] = [
    CodedAis { ais: b"01,02,03,8006,8026", kind: ConflictKind::TradeItem, coding: Coding::Gtin },
    CodedAis { ais: b"391n,393n", kind: ConflictKind::Currency, coding: Coding::Currency },
    CodedAis { ais: b"401", kind: ConflictKind::CompanyPrefix, coding: Coding::Prefix },
    CodedAis { ais: b"421,422,424,426", kind: ConflictKind::Country, coding: Coding::Country },
    CodedAis { ais: b"423,425", kind: ConflictKind::Country, coding: Coding::Countries },
    CodedAis { ais: b"4307,4317", kind: ConflictKind::Country, coding: Coding::CountryLetters },
    CodedAis { ais: b"703n", kind: ConflictKind::Country, coding: Coding::CountryOrSeveral },
];

/// The numbers of countries (ISO 3166-1).
#[rattlefmt::skip]
const COUNTRIES: &[u8] =
    b"004,008,010,012,016,020,024,028,031,032,036,040,044,048,050,051,052,056,060,064,068,070,072,074,076,084,086,090,092,096,100,104,108,112,116,120,124,132,136,140,144,148,152,156,158,162,166,170,174,175,178,180,184,188,191,192,196,203,204,208,212,214,218,222,226,231,232,233,234,238,239,242,246,248,250,254,258,260,262,266,268,270,275,276,288,292,296,300,304,308,312,316,320,324,328,332,334,336,340,344,348,352,356,360,364,368,372,376,380,384,388,392,398,400,404,408,410,414,417,418,422,426,428,430,434,438,440,442,446,450,454,458,462,466,470,474,478,480,484,492,496,498,499,500,504,508,512,516,520,524,528,531,533,534,535,540,548,554,558,562,566,570,574,578,580,581,583,584,585,586,591,598,600,604,608,612,616,620,624,626,630,634,638,642,643,646,652,654,659,660,662,663,666,670,674,678,682,686,688,690,694,702,703,704,705,706,710,716,724,728,729,732,740,744,748,752,756,760,762,764,768,772,776,780,784,788,792,795,796,798,800,804,807,818,826,831,832,833,834,840,850,854,858,860,862,876,882,887,894";

/// The letters of countries (ISO 3166-1).
#[rattlefmt::skip]
const COUNTRY_LETTERS: &[u8] =
    b"AF,AL,AQ,DZ,AS,AD,AO,AG,AZ,AR,AU,AT,BS,BH,BD,AM,BB,BE,BM,BT,BO,BA,BW,BV,BR,BZ,IO,SB,VG,BN,BG,MM,BI,BY,KH,CM,CA,CV,KY,CF,LK,TD,CL,CN,TW,CX,CC,CO,KM,YT,CG,CD,CK,CR,HR,CU,CY,CZ,BJ,DK,DM,DO,EC,SV,GQ,ET,ER,EE,FO,FK,GS,FJ,FI,AX,FR,GF,PF,TF,DJ,GA,GE,GM,PS,DE,GH,GI,KI,GR,GL,GD,GP,GU,GT,GN,GY,HT,HM,VA,HN,HK,HU,IS,IN,ID,IR,IQ,IE,IL,IT,CI,JM,JP,KZ,JO,KE,KP,KR,KW,KG,LA,LB,LS,LV,LR,LY,LI,LT,LU,MO,MG,MW,MY,MV,ML,MT,MQ,MR,MU,MX,MC,MN,MD,ME,MS,MA,MZ,OM,NA,NR,NP,NL,CW,AW,SX,BQ,NC,VU,NZ,NI,NE,NG,NU,NF,NO,MP,UM,FM,MH,PW,PK,PA,PG,PY,PE,PH,PN,PL,PT,GW,TL,PR,QA,RE,RO,RU,RW,BL,SH,KN,AI,LC,MF,PM,VC,SM,ST,SA,SN,RS,SC,SL,SG,SK,VN,SI,SO,ZA,ZW,ES,SS,SD,EH,SR,SJ,SZ,SE,CH,SY,TJ,TH,TG,TK,TO,TT,AE,TN,TR,TM,TC,TV,UG,UA,MK,EG,GB,GG,JE,IM,TZ,US,VI,BF,UY,UZ,VE,WF,WS,YE,ZM";

/// The numbers of currencies (ISO 4217).
#[rattlefmt::skip]
const CURRENCIES: &[u8] =
    b"008,012,032,036,044,048,050,051,052,060,064,068,072,084,090,096,104,108,116,124,132,136,144,152,156,170,174,188,191,192,203,208,214,222,230,232,238,242,262,270,292,320,324,328,332,340,344,348,352,356,360,364,368,376,388,392,398,400,404,408,410,414,417,418,422,426,430,434,446,454,458,462,480,484,496,498,504,512,516,524,532,533,548,554,558,566,578,586,590,598,600,604,608,634,643,646,654,682,690,694,702,704,706,710,728,748,752,756,760,764,776,780,784,788,800,807,818,826,834,840,858,860,882,886,901,925,926,927,928,929,930,931,932,933,934,936,938,940,941,943,944,946,947,948,949,950,951,952,953,955,956,957,958,959,960,961,962,963,964,965,967,968,969,970,971,972,973,975,976,977,978,979,980,981,984,985,986,990,994,997,999";

fn coded_list() -> &'static [CodedAis]
    ensures { map coded_of result.now ≡ coded_list }
{
    &CODED
}

fn countries() -> &'static [u8]
    ensures { result.now ≡ countries }
{
    COUNTRIES
}

fn country_letters() -> &'static [u8]
    ensures { result.now ≡ country_letters }
{
    COUNTRY_LETTERS
}

fn currencies() -> &'static [u8]
    ensures { result.now ≡ currencies }
{
    CURRENCIES
}

/// The kind of codes in an AI's values, if they have codes.
pub(crate) fn coding_of(ai: &[u8]) -> Option<(ConflictKind, Coding)>
    ensures { result ≡ coding_of ai.now }
{
    let mut rest = coded_list();
    while let [coded, more @ ..] = rest {
        if is_listed(ai, coded.ais) {
            return Some((coded.kind, coded.coding));
        }
        rest = more;
    }
    None
}

/// The first characters of a value, as many as it has.
pub(crate) fn first(count: usize, value: &[u8]) -> &[u8]
    ensures { result.now ≡ take count value.now }
{
    &value[..count.min(value.len())]
}

/// The first number of three digits that is no country's; empty if there is none.
fn unknown_country(numbers: &[u8]) -> &[u8]
    ensures { result.now ≡ unknown_country numbers.now }
{
    let mut rest = numbers;
    while let [_, _, _, more @ ..] = rest {
        let number = first(3, rest);
        if !is_listed(number, countries()) {
            return number;
        }
        rest = more;
    }
    rest
}

/// A code if it is in no list.
fn unlisted<'a>(code: &'a [u8], list: &[u8]) -> &'a [u8]
    ensures { result.now ≡ unlisted code.now list.now }
{
    if is_listed(code, list) { b"" } else { code }
}

/// Whether these are four digits.
fn are_four_digits(signs: &[u8]) -> bool
    ensures { result ≡ are_four_digits signs.now }
{
    match signs {
        [b'0'..=b'9', b'0'..=b'9', b'0'..=b'9', b'0'..=b'9'] => true,
        _ => false,
    }
}

/// The first code of a value that is in no list; empty if there is none.
pub(crate) fn unknown_code(coding: Coding, value: &[u8]) -> &[u8]
    ensures { result.now ≡ unknown_code coding value.now }
{
    let number = first(3, value);
    match coding {
        Coding::Country => unknown_country(number),
        Coding::Countries => unknown_country(value),
        Coding::CountryOrSeveral if number == b"999".as_slice() => b"",
        Coding::CountryOrSeveral => unknown_country(number),
        Coding::CountryLetters => unlisted(value, country_letters()),
        Coding::Currency => unlisted(number, currencies()),
        Coding::Prefix if are_four_digits(first(4, value)) => b"",
        Coding::Prefix => first(4, value),
        Coding::Gtin => no_item(value),
    }
}
