//! The data titles of Application Identifiers (GS1 General Specifications, section 3.2). tables/ais makes the arrays of tables/ais.tsv.
ghost use Rattle.std.specs.Prelude.{◌≡◌, map, option_map};
ghost use Rattle.gs1_c.specs.Titles.{has_ai, title_in, title_of, titles_0_to_2, titles_3, titles_4, titles_7, titles_8_and_9};
ghost use Rattle.gs1_c.specs.inner.Titles.{titled_of};

/// AIs that differ only in their last digit, and their title.
#[derive(Clone, Copy)]
struct Titled {
    /// All digits but the last.
    stem: &'static [u8],
    /// The least last digit.
    first: u8,
    /// The greatest last digit.
    last: u8,
    /// The title, in UTF-8.
    title: &'static [u8],
}

/// The titles of AIs that begin with 0 to 2.
#[rattlefmt::skip]
const TITLES_0_TO_2: [Titled; 24] = [
    Titled { stem: b"0", first: b'0', last: b'0', title: b"SSCC" },
    Titled { stem: b"0", first: b'1', last: b'1', title: b"GTIN" },
    Titled { stem: b"0", first: b'2', last: b'2', title: b"CONTENT" },
    Titled { stem: b"0", first: b'3', last: b'3', title: b"MTO GTIN" },
    Titled { stem: b"1", first: b'0', last: b'0', title: b"BATCH/LOT" },
    Titled { stem: b"1", first: b'1', last: b'1', title: b"PROD DATE" },
    Titled { stem: b"1", first: b'2', last: b'2', title: b"DUE DATE" },
    Titled { stem: b"1", first: b'3', last: b'3', title: b"PACK DATE" },
    Titled { stem: b"1", first: b'5', last: b'5', title: b"BEST BEFORE or BEST BY" },
    Titled { stem: b"1", first: b'6', last: b'6', title: b"SELL BY" },
    Titled { stem: b"1", first: b'7', last: b'7', title: b"USE BY or EXPIRY" },
    Titled { stem: b"2", first: b'0', last: b'0', title: b"VARIANT" },
    Titled { stem: b"2", first: b'1', last: b'1', title: b"SERIAL" },
    Titled { stem: b"2", first: b'2', last: b'2', title: b"CPV" },
    Titled { stem: b"23", first: b'5', last: b'5', title: b"TPX" },
    Titled { stem: b"24", first: b'0', last: b'0', title: b"ADDITIONAL ID" },
    Titled { stem: b"24", first: b'1', last: b'1', title: b"CUST. PART No." },
    Titled { stem: b"24", first: b'2', last: b'2', title: b"MTO VARIANT" },
    Titled { stem: b"24", first: b'3', last: b'3', title: b"PCN" },
    Titled { stem: b"25", first: b'0', last: b'0', title: b"SECONDARY SERIAL" },
    Titled { stem: b"25", first: b'1', last: b'1', title: b"REF. TO SOURCE" },
    Titled { stem: b"25", first: b'3', last: b'3', title: b"GDTI" },
    Titled { stem: b"25", first: b'4', last: b'4', title: b"GLN EXTENSION COMPONENT" },
    Titled { stem: b"25", first: b'5', last: b'5', title: b"GCN" },
];

/// The titles of AIs that begin with 3.
#[rattlefmt::skip]
const TITLES_3: [Titled; 61] = [
    Titled { stem: b"3", first: b'0', last: b'0', title: b"VAR. COUNT" },
    Titled { stem: b"310", first: b'0', last: b'5', title: b"NET WEIGHT (kg)" },
    Titled { stem: b"311", first: b'0', last: b'5', title: b"LENGTH (m)" },
    Titled { stem: b"312", first: b'0', last: b'5', title: b"WIDTH (m)" },
    Titled { stem: b"313", first: b'0', last: b'5', title: b"HEIGHT (m)" },
    Titled { stem: b"314", first: b'0', last: b'5', title: b"AREA (m\xc2\xb2)" },
    Titled { stem: b"315", first: b'0', last: b'5', title: b"NET VOLUME (l)" },
    Titled { stem: b"316", first: b'0', last: b'5', title: b"NET VOLUME (m\xc2\xb3)" },
    Titled { stem: b"320", first: b'0', last: b'5', title: b"NET WEIGHT (lb)" },
    Titled { stem: b"321", first: b'0', last: b'5', title: b"LENGTH (in)" },
    Titled { stem: b"322", first: b'0', last: b'5', title: b"LENGTH (ft)" },
    Titled { stem: b"323", first: b'0', last: b'5', title: b"LENGTH (yd)" },
    Titled { stem: b"324", first: b'0', last: b'5', title: b"WIDTH (in)" },
    Titled { stem: b"325", first: b'0', last: b'5', title: b"WIDTH (ft)" },
    Titled { stem: b"326", first: b'0', last: b'5', title: b"WIDTH (yd)" },
    Titled { stem: b"327", first: b'0', last: b'5', title: b"HEIGHT (in)" },
    Titled { stem: b"328", first: b'0', last: b'5', title: b"HEIGHT (ft)" },
    Titled { stem: b"329", first: b'0', last: b'5', title: b"HEIGHT (yd)" },
    Titled { stem: b"330", first: b'0', last: b'5', title: b"GROSS WEIGHT (kg)" },
    Titled { stem: b"331", first: b'0', last: b'5', title: b"LENGTH (m), log" },
    Titled { stem: b"332", first: b'0', last: b'5', title: b"WIDTH (m), log" },
    Titled { stem: b"333", first: b'0', last: b'5', title: b"HEIGHT (m), log" },
    Titled { stem: b"334", first: b'0', last: b'5', title: b"AREA (m\xc2\xb2), log" },
    Titled { stem: b"335", first: b'0', last: b'5', title: b"VOLUME (l), log" },
    Titled { stem: b"336", first: b'0', last: b'5', title: b"VOLUME (m\xc2\xb3), log" },
    Titled { stem: b"337", first: b'0', last: b'5', title: b"KG PER m\xc2\xb2" },
    Titled { stem: b"340", first: b'0', last: b'5', title: b"GROSS WEIGHT (lb)" },
    Titled { stem: b"341", first: b'0', last: b'5', title: b"LENGTH (in), log" },
    Titled { stem: b"342", first: b'0', last: b'5', title: b"LENGTH (ft), log" },
    Titled { stem: b"343", first: b'0', last: b'5', title: b"LENGTH (yd), log" },
    Titled { stem: b"344", first: b'0', last: b'5', title: b"WIDTH (in), log" },
    Titled { stem: b"345", first: b'0', last: b'5', title: b"WIDTH (ft), log" },
    Titled { stem: b"346", first: b'0', last: b'5', title: b"WIDTH (yd), log" },
    Titled { stem: b"347", first: b'0', last: b'5', title: b"HEIGHT (in), log" },
    Titled { stem: b"348", first: b'0', last: b'5', title: b"HEIGHT (ft), log" },
    Titled { stem: b"349", first: b'0', last: b'5', title: b"HEIGHT (yd), log" },
    Titled { stem: b"350", first: b'0', last: b'5', title: b"AREA (in\xc2\xb2)" },
    Titled { stem: b"351", first: b'0', last: b'5', title: b"AREA (ft\xc2\xb2)" },
    Titled { stem: b"352", first: b'0', last: b'5', title: b"AREA (yd\xc2\xb2)" },
    Titled { stem: b"353", first: b'0', last: b'5', title: b"AREA (in\xc2\xb2), log" },
    Titled { stem: b"354", first: b'0', last: b'5', title: b"AREA (ft\xc2\xb2), log" },
    Titled { stem: b"355", first: b'0', last: b'5', title: b"AREA (yd\xc2\xb2), log" },
    Titled { stem: b"356", first: b'0', last: b'5', title: b"NET WEIGHT (t oz)" },
    Titled { stem: b"357", first: b'0', last: b'5', title: b"NET VOLUME (oz)" },
    Titled { stem: b"360", first: b'0', last: b'5', title: b"NET VOLUME (qt)" },
    Titled { stem: b"361", first: b'0', last: b'5', title: b"NET VOLUME (gal.)" },
    Titled { stem: b"362", first: b'0', last: b'5', title: b"VOLUME (qt), log" },
    Titled { stem: b"363", first: b'0', last: b'5', title: b"VOLUME (gal.), log" },
    Titled { stem: b"364", first: b'0', last: b'5', title: b"VOLUME (in\xc2\xb3)" },
    Titled { stem: b"365", first: b'0', last: b'5', title: b"VOLUME (ft\xc2\xb3)" },
    Titled { stem: b"366", first: b'0', last: b'5', title: b"VOLUME (yd\xc2\xb3)" },
    Titled { stem: b"367", first: b'0', last: b'5', title: b"VOLUME (in\xc2\xb3), log" },
    Titled { stem: b"368", first: b'0', last: b'5', title: b"VOLUME (ft\xc2\xb3), log" },
    Titled { stem: b"369", first: b'0', last: b'5', title: b"VOLUME (yd\xc2\xb3), log" },
    Titled { stem: b"3", first: b'7', last: b'7', title: b"COUNT" },
    Titled { stem: b"390", first: b'0', last: b'9', title: b"AMOUNT" },
    Titled { stem: b"391", first: b'0', last: b'9', title: b"AMOUNT" },
    Titled { stem: b"392", first: b'0', last: b'9', title: b"PRICE" },
    Titled { stem: b"393", first: b'0', last: b'9', title: b"PRICE" },
    Titled { stem: b"394", first: b'0', last: b'3', title: b"PRCNT OFF" },
    Titled { stem: b"395", first: b'0', last: b'5', title: b"PRICE/UoM" },
];

/// The titles of AIs that begin with 4.
#[rattlefmt::skip]
const TITLES_4: [Titled; 51] = [
    Titled { stem: b"40", first: b'0', last: b'0', title: b"ORDER NUMBER" },
    Titled { stem: b"40", first: b'1', last: b'1', title: b"GINC" },
    Titled { stem: b"40", first: b'2', last: b'2', title: b"GSIN" },
    Titled { stem: b"40", first: b'3', last: b'3', title: b"ROUTE" },
    Titled { stem: b"41", first: b'0', last: b'0', title: b"SHIP TO LOC" },
    Titled { stem: b"41", first: b'1', last: b'1', title: b"BILL TO" },
    Titled { stem: b"41", first: b'2', last: b'2', title: b"PURCHASE FROM" },
    Titled { stem: b"41", first: b'3', last: b'3', title: b"SHIP FOR LOC" },
    Titled { stem: b"41", first: b'4', last: b'4', title: b"LOC No." },
    Titled { stem: b"41", first: b'5', last: b'5', title: b"PAY TO" },
    Titled { stem: b"41", first: b'6', last: b'6', title: b"PROD/SERV LOC" },
    Titled { stem: b"41", first: b'7', last: b'7', title: b"PARTY" },
    Titled { stem: b"42", first: b'0', last: b'0', title: b"SHIP TO POST" },
    Titled { stem: b"42", first: b'1', last: b'1', title: b"SHIP TO POST" },
    Titled { stem: b"42", first: b'2', last: b'2', title: b"ORIGIN" },
    Titled { stem: b"42", first: b'3', last: b'3', title: b"COUNTRY - INITIAL PROCESS" },
    Titled { stem: b"42", first: b'4', last: b'4', title: b"COUNTRY - PROCESS" },
    Titled { stem: b"42", first: b'5', last: b'5', title: b"COUNTRY - DISASSEMBLY" },
    Titled { stem: b"42", first: b'6', last: b'6', title: b"COUNTRY - FULL PROCESS" },
    Titled { stem: b"42", first: b'7', last: b'7', title: b"ORIGIN SUBDIVISION" },
    Titled { stem: b"430", first: b'0', last: b'0', title: b"SHIP TO COMP" },
    Titled { stem: b"430", first: b'1', last: b'1', title: b"SHIP TO NAME" },
    Titled { stem: b"430", first: b'2', last: b'2', title: b"SHIP TO ADD1" },
    Titled { stem: b"430", first: b'3', last: b'3', title: b"SHIP TO ADD2" },
    Titled { stem: b"430", first: b'4', last: b'4', title: b"SHIP TO SUB" },
    Titled { stem: b"430", first: b'5', last: b'5', title: b"SHIP TO LOC" },
    Titled { stem: b"430", first: b'6', last: b'6', title: b"SHIP TO REG" },
    Titled { stem: b"430", first: b'7', last: b'7', title: b"SHIP TO COUNTRY" },
    Titled { stem: b"430", first: b'8', last: b'8', title: b"SHIP TO PHONE" },
    Titled { stem: b"430", first: b'9', last: b'9', title: b"SHIP TO GEO" },
    Titled { stem: b"431", first: b'0', last: b'0', title: b"RTN TO COMP" },
    Titled { stem: b"431", first: b'1', last: b'1', title: b"RTN TO NAME" },
    Titled { stem: b"431", first: b'2', last: b'2', title: b"RTN TO ADD1" },
    Titled { stem: b"431", first: b'3', last: b'3', title: b"RTN TO ADD2" },
    Titled { stem: b"431", first: b'4', last: b'4', title: b"RTN TO SUB" },
    Titled { stem: b"431", first: b'5', last: b'5', title: b"RTN TO LOC" },
    Titled { stem: b"431", first: b'6', last: b'6', title: b"RTN TO REG" },
    Titled { stem: b"431", first: b'7', last: b'7', title: b"RTN TO COUNTRY" },
    Titled { stem: b"431", first: b'8', last: b'8', title: b"RTN TO POST" },
    Titled { stem: b"431", first: b'9', last: b'9', title: b"RTN TO PHONE" },
    Titled { stem: b"432", first: b'0', last: b'0', title: b"SRV DESCRIPTION" },
    Titled { stem: b"432", first: b'1', last: b'1', title: b"DANGEROUS GOODS" },
    Titled { stem: b"432", first: b'2', last: b'2', title: b"AUTH LEAVE" },
    Titled { stem: b"432", first: b'3', last: b'3', title: b"SIG REQUIRED" },
    Titled { stem: b"432", first: b'4', last: b'4', title: b"NBEF DEL DT" },
    Titled { stem: b"432", first: b'5', last: b'5', title: b"NAFT DEL DT" },
    Titled { stem: b"432", first: b'6', last: b'6', title: b"REL DATE" },
    Titled { stem: b"433", first: b'0', last: b'0', title: b"MAX TEMP F" },
    Titled { stem: b"433", first: b'1', last: b'1', title: b"MAX TEMP C" },
    Titled { stem: b"433", first: b'2', last: b'2', title: b"MIN TEMP F" },
    Titled { stem: b"433", first: b'3', last: b'3', title: b"MIN TEMP C" },
];

/// The titles of AIs that begin with 7.
#[rattlefmt::skip]
const TITLES_7: [Titled; 39] = [
    Titled { stem: b"700", first: b'1', last: b'1', title: b"NSN" },
    Titled { stem: b"700", first: b'2', last: b'2', title: b"MEAT CUT" },
    Titled { stem: b"700", first: b'3', last: b'3', title: b"EXPIRY TIME" },
    Titled { stem: b"700", first: b'4', last: b'4', title: b"ACTIVE POTENCY" },
    Titled { stem: b"700", first: b'5', last: b'5', title: b"CATCH AREA" },
    Titled { stem: b"700", first: b'6', last: b'6', title: b"FIRST FREEZE DATE" },
    Titled { stem: b"700", first: b'7', last: b'7', title: b"HARVEST DATE" },
    Titled { stem: b"700", first: b'8', last: b'8', title: b"AQUATIC SPECIES" },
    Titled { stem: b"700", first: b'9', last: b'9', title: b"FISHING GEAR TYPE" },
    Titled { stem: b"701", first: b'0', last: b'0', title: b"PROD METHOD" },
    Titled { stem: b"701", first: b'1', last: b'1', title: b"TEST BY DATE" },
    Titled { stem: b"702", first: b'0', last: b'0', title: b"REFURB LOT" },
    Titled { stem: b"702", first: b'1', last: b'1', title: b"FUNC STAT" },
    Titled { stem: b"702", first: b'2', last: b'2', title: b"REV STAT" },
    Titled { stem: b"702", first: b'3', last: b'3', title: b"GIAI - ASSEMBLY" },
    Titled { stem: b"703", first: b'0', last: b'9', title: b"PROCESSOR # s" },
    Titled { stem: b"704", first: b'0', last: b'0', title: b"UIC+EXT" },
    Titled { stem: b"704", first: b'1', last: b'1', title: b"UFRGT UNIT TYPE" },
    Titled { stem: b"71", first: b'0', last: b'0', title: b"NHRN PZN" },
    Titled { stem: b"71", first: b'1', last: b'1', title: b"NHRN CIP" },
    Titled { stem: b"71", first: b'2', last: b'2', title: b"NHRN CN" },
    Titled { stem: b"71", first: b'3', last: b'3', title: b"NHRN DRN" },
    Titled { stem: b"71", first: b'4', last: b'4', title: b"NHRN AIM" },
    Titled { stem: b"71", first: b'5', last: b'5', title: b"NHRN NDC" },
    Titled { stem: b"71", first: b'6', last: b'6', title: b"NHRN AIC" },
    Titled { stem: b"723", first: b'0', last: b'9', title: b"CERT # s" },
    Titled { stem: b"724", first: b'0', last: b'0', title: b"PROTOCOL" },
    Titled { stem: b"724", first: b'1', last: b'1', title: b"AIDC MEDIA TYPE" },
    Titled { stem: b"724", first: b'2', last: b'2', title: b"VCN" },
    Titled { stem: b"725", first: b'0', last: b'0', title: b"DOB" },
    Titled { stem: b"725", first: b'1', last: b'1', title: b"DOB TIME" },
    Titled { stem: b"725", first: b'2', last: b'2', title: b"BIO SEX" },
    Titled { stem: b"725", first: b'3', last: b'3', title: b"FAMILY NAME" },
    Titled { stem: b"725", first: b'4', last: b'4', title: b"GIVEN NAME" },
    Titled { stem: b"725", first: b'5', last: b'5', title: b"SUFFIX" },
    Titled { stem: b"725", first: b'6', last: b'6', title: b"FULL NAME" },
    Titled { stem: b"725", first: b'7', last: b'7', title: b"PERSON ADDR" },
    Titled { stem: b"725", first: b'8', last: b'8', title: b"BIRTH SEQUENCE" },
    Titled { stem: b"725", first: b'9', last: b'9', title: b"BABY" },
];

/// The titles of AIs that begin with 8 and 9.
#[rattlefmt::skip]
const TITLES_8_AND_9: [Titled; 24] = [
    Titled { stem: b"800", first: b'1', last: b'1', title: b"DIMENSIONS" },
    Titled { stem: b"800", first: b'2', last: b'2', title: b"CMT No." },
    Titled { stem: b"800", first: b'3', last: b'3', title: b"GRAI" },
    Titled { stem: b"800", first: b'4', last: b'4', title: b"GIAI" },
    Titled { stem: b"800", first: b'5', last: b'5', title: b"PRICE PER UNIT" },
    Titled { stem: b"800", first: b'6', last: b'6', title: b"ITIP" },
    Titled { stem: b"800", first: b'7', last: b'7', title: b"IBAN" },
    Titled { stem: b"800", first: b'8', last: b'8', title: b"PROD TIME" },
    Titled { stem: b"800", first: b'9', last: b'9', title: b"OPTSEN" },
    Titled { stem: b"801", first: b'0', last: b'0', title: b"CPID" },
    Titled { stem: b"801", first: b'1', last: b'1', title: b"CPID SERIAL" },
    Titled { stem: b"801", first: b'2', last: b'2', title: b"VERSION" },
    Titled { stem: b"801", first: b'3', last: b'3', title: b"GMN" },
    Titled { stem: b"801", first: b'4', last: b'4', title: b"MUDI" },
    Titled { stem: b"801", first: b'7', last: b'7', title: b"GSRN - PROVIDER" },
    Titled { stem: b"801", first: b'8', last: b'8', title: b"GSRN - RECIPIENT" },
    Titled { stem: b"801", first: b'9', last: b'9', title: b"SRIN" },
    Titled { stem: b"802", first: b'0', last: b'0', title: b"REF No." },
    Titled { stem: b"802", first: b'6', last: b'6', title: b"ITIP CONTENT" },
    Titled { stem: b"803", first: b'0', last: b'0', title: b"DIGSIG" },
    Titled { stem: b"811", first: b'1', last: b'1', title: b"POINTS" },
    Titled { stem: b"820", first: b'0', last: b'0', title: b"PRODUCT URL" },
    Titled { stem: b"9", first: b'0', last: b'0', title: b"INTERNAL" },
    Titled { stem: b"9", first: b'1', last: b'9', title: b"INTERNAL" },
];

/// The titles of AIs that begin with 0 to 2.
fn titles_0_to_2() -> &'static [Titled]
    ensures { map titled_of result.now ≡ titles_0_to_2 }
{
    &TITLES_0_TO_2
}

/// The titles of AIs that begin with 3.
fn titles_3() -> &'static [Titled]
    ensures { map titled_of result.now ≡ titles_3 }
{
    &TITLES_3
}

/// The titles of AIs that begin with 4.
fn titles_4() -> &'static [Titled]
    ensures { map titled_of result.now ≡ titles_4 }
{
    &TITLES_4
}

/// The titles of AIs that begin with 7.
fn titles_7() -> &'static [Titled]
    ensures { map titled_of result.now ≡ titles_7 }
{
    &TITLES_7
}

/// The titles of AIs that begin with 8 and 9.
fn titles_8_and_9() -> &'static [Titled]
    ensures { map titled_of result.now ≡ titles_8_and_9 }
{
    &TITLES_8_AND_9
}

/// Whether the AI is one of the row's.
fn has_ai(row: &Titled, ai: &[u8]) -> bool
    ensures { result ≡ has_ai ai.now (titled_of row.now) }
{
    match ai {
        [stem @ .., last] => stem == row.stem && row.first <= *last && *last <= row.last,
        [] => false,
    }
}

/// The title of the AI in these rows, if it has one there.
fn title_in(rows: &[Titled], ai: &[u8]) -> Option<&'static [u8]>
    ensures { option_map (λ t. t.now) result ≡ title_in (map titled_of rows.now) ai.now }
{
    for row in rows {
        if has_ai(row, ai) {
            return Some(row.title);
        }
    }
    None
}

/// The title of an AI, or no bytes if it has none.
pub fn title_of(ai: &[u8]) -> &'static [u8]
    ensures { result.now ≡ title_of ai.now }
{
    title_in(titles_0_to_2(), ai)
        .or(title_in(titles_3(), ai))
        .or(title_in(titles_4(), ai))
        .or(title_in(titles_7(), ai))
        .or(title_in(titles_8_and_9(), ai))
        .unwrap_or(b"")
}
