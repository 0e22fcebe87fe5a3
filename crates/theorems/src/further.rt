//! Further theorems: about a check digit, the profile, texts of scanners, a drawn label without its sheet, a shop's
//! label, and the call that the program makes.
ghost use Rattle.std.specs.Prelude.{◌≡◌, ◌↔◌, ◌<◌, ◌≤◌, ◌-◌, ◌*◌, ◌++◌, ◌∷◌, ℕ, [], IfOk, List, Option, codes, length, map};
ghost use Rattle.theorems.specs.Words.{AllZip, AreAnswersOf, AreAsciiDigits, Cells, Entry, Head, IsAnswer, IsChecked, IsDrawingOf, IsElements, IsMessage, IsUpceOf, Label, MessageSays, Outcome, Reads, Said, ShowsDrawn, Terms, digits_of, every_ai, gtin_entry, heard, label_answer, label_text, profile, served};

use element_core::Year;
use hub_core::{Gate, ServeFault};
use lane_core::Delivery;
use message_core::Message;
use scan_core::Runs;
use shop_core::{Drawing, Item, LabelFault, Plan};
use std::alloc::Global;
use std::sync::Wait;
use std::thread::Threads;

/// A list of deliveries for each lane.
pub type Lists = Vec<Vec<Delivery>>;

/// A payload with its check digit passes the standard's check.
pub fn check_digit(payload: &[u8]) -> u8
    requires { (1 ≤ length payload.now) × (length payload.now ≤ 17) × AreAsciiDigits payload.now }
    ensures { IsChecked (digits_of payload.now ++ result ∷ []) }
{
    digits_core::check_digit(payload)
}

/// What the profile reads, every AI reads as the same elements.
pub fn profile_within()
    ensures { (year : ℕ) (text : List ℕ) (list : List Entry) → IsElements (profile year) text list → IsElements (every_ai year) text list }
{
    element_core::profile_within();
}

/// A scanner text has exactly one meaning. The eight digits under a UPC-E symbol, behind `]E0`, say the GTIN that the symbol carries.
pub fn read_message(text: &[u8], year: Year) -> Message
    ensures one { (head : Option Head) (told : Outcome) → IsMessage year text.now head told ↔ ((head ≡ result.head) × (told ≡ heard result.said)) }
    ensures upce { (year : Terms) (six gtin : List ℕ) (check : ℕ) → AreAsciiDigits six → (48 ≤ check) × (check < 58) → IsUpceOf (digits_of six) (check - 48) gtin
        → MessageSays year (codes "]E0" ++ (48 ∷ six) ++ check ∷ []) (codes "]E0") (gtin_entry gtin ∷ []) }
{
    message_core::one_message();
    message_core::upce_is_expanded();
    message_core::read_message(text, year)
}

/// A row with the dots of what is drawn of a label answers that label, and nothing else.
pub fn a_drawn_label_is_read()
    ensures { (g : Cells) (label : Label) (row : List ℕ) (year : Terms) (list : List Entry) (said : Said) → ShowsDrawn g label row
        → IsElements year (label_text label) list → IsAnswer row year said ↔ (said ≡ label_answer label year list) }
{
    sheet_core::drawn_is_read();
}

/// A label that is laid out has all its parts on it, and none over another: the bars of its article's symbol, and outside of that and its quiet
/// zones letters and bearers. Its price is whole, and each row through its bars answers the article, and nothing else.
pub fn draw(item: &Item, plan: &Plan, year: Year, row: &mut [u8]) -> Result<Drawing, LabelFault>
    requires { 65535 ≤ 8 * length row.old }
    ensures { IfOk result (λ drawing. IsDrawingOf drawing item.now.article.now year) }
{
    shop_core::draw(item, plan, year, row)
}

/// Feeds are served a delivery for each row, in order and each once, by any number of workers; their answers are those to the rows.
pub fn serve<R: Threads + Wait + Sync, G: Gate + Sync>(
    rt: &R,
    alloc: Global,
    feeds: Vec<Vec<Runs>>,
    workers: u8,
    year: Year,
    gate: &G,
) -> Result<Lists, ServeFault>
    ensures served { IfOk result (λ v. map (λ list. list.items) v.items ≡ served year (map (λ feed. feed.items) feeds.items)) }
    ensures answered { IfOk result (λ v. (answers : List (List Said)) → AllZip AreAnswersOf (map (λ list. list.items) v.items) answers
        → AllZip (λ rows said. Reads rows year said) (map (λ feed. feed.items) feeds.items) answers) }
{
    hub_core::answers_are_read();
    hub_core::serve(rt, alloc, feeds, workers, year, gate)
}
