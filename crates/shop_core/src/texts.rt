//! Checks the texts of a drawn label.
ghost use Rattle.std.specs.Prelude.{◌≡◌, ◌↔◌, ◌<◌, ◌||◌, IsTrue, length};
ghost use Rattle.std.specs.List.{list_all, list_any};
ghost use Rattle.shop_core.specs.Drawings.{TellsText, field_number, has_letter, is_cut_at, is_shown, keeps_price, keeps_run, shows_price, text_of};

use crate::article::Article;
use crate::part::{Field, Ink, Part, ends_line, is_blank};

/// Whether a part, if it shows letters, shows letters of an article.
fn keeps_run(article: &Article, part: &Part) -> bool
    ensures { result ≡ keeps_run article.now part.now }
{
    match &part.ink {
        Ink::Letters(run) => run.is_right(article.text(run.field).len()),
        _ => true,
    }
}

/// Whether all letters are the article's.
pub(crate) fn keep_runs(parts: &[Part], article: &Article) -> bool
    ensures { result ≡ list_all (keeps_run article.now) parts.now }
{
    for part in parts {
        if !keeps_run(article, part) {
            return false;
        }
    }
    true
}

/// Whether a part has an ellipsis before a letter of the text of a field.
fn is_cut_at(parts: &[Part], field: u8, place: usize) -> bool
    ensures { result ≡ list_any (is_cut_at field place) parts.now }
{
    for part in parts {
        if part.is_cut_at(field, place) {
            return true;
        }
    }
    false
}

/// Whether a part has a letter of the text of a field.
fn has_letter(parts: &[Part], field: u8, place: usize) -> bool
    ensures { result ≡ list_any (has_letter field place) parts.now }
{
    for part in parts {
        if part.has_letter(field, place) {
            return true;
        }
    }
    false
}

/// Whether a letter of a text is on the label, unless it is a blank.
fn is_shown(parts: &[Part], field: u8, text: &[u32], place: usize) -> bool
    requires { place < length text.now }
    ensures { result ≡ is_shown parts.now field text.now place }
{
    is_blank(text[place]) || has_letter(parts, field, place)
}

/// Whether there is an ellipsis before a letter, or earlier in its line.
fn is_told(parts: &[Part], field: u8, place: usize, goes_on: bool) -> bool
    ensures { result ≡ (goes_on || list_any (is_cut_at field place) parts.now) }
{
    goes_on || is_cut_at(parts, field, place)
}

/// Whether each letter of a text is on the label, or behind an ellipsis in its line.
fn tells(parts: &[Part], field: u8, text: &[u32]) -> bool
    ensures { IsTrue result ↔ TellsText parts.now field text.now }
{
    let mut goes_on = false;
    'letters: for place in 0..text.len() {
        let is_told = is_told(parts, field, place, goes_on);
        if !is_told && !is_shown(parts, field, text, place) {
            return false;
        }
        goes_on = is_told && !ends_line(field, text[place]);
    }
    true
}

/// The same for the text of a field of an article.
fn tells_field(parts: &[Part], article: &Article, field: Field) -> bool
    ensures { IsTrue result ↔ TellsText parts.now (field_number field) (text_of article.now field) }
{
    tells(parts, field.number(), article.text(field))
}

/// The same for all its texts.
pub(crate) fn tell_all(parts: &[Part], article: &Article) -> bool
    ensures { IsTrue result ↔ ((field : Field) → TellsText parts.now (field_number field) (text_of article.now field)) }
{
    if !tells_field(parts, article, Field::Name) {
        return false;
    }
    if !tells_field(parts, article, Field::Price) {
        return false;
    }
    if !tells_field(parts, article, Field::OldPrice) {
        return false;
    }
    if !tells_field(parts, article, Field::UnitPrice) {
        return false;
    }
    if !tells_field(parts, article, Field::Deposit) {
        return false;
    }
    if !tells_field(parts, article, Field::BestBefore) {
        return false;
    }
    if !tells_field(parts, article, Field::Batch) {
        return false;
    }
    if !tells_field(parts, article, Field::Lines) {
        return false;
    }
    tells_field(parts, article, Field::Digits)
}

/// Whether a part shows all of a price of this many letters.
fn show_price(parts: &[Part], letters: usize) -> bool
    ensures { result ≡ list_any (shows_price letters) parts.now }
{
    for part in parts {
        if part.shows_price(letters) {
            return true;
        }
    }
    false
}

/// Whether the complete price is on the label, if there is one.
pub(crate) fn keep_price(parts: &[Part], letters: usize) -> bool
    ensures { result ≡ keeps_price letters parts.now }
{
    letters == 0 || show_price(parts, letters)
}
