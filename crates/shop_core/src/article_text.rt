//! Makes articles, and reads their texts.
ghost use Rattle.std.specs.Prelude.{◌≡◌, ◌&&◌, IfErr, IfOk};
ghost use Rattle.sheet_core.specs.Labels.{Drawn, IsDrawn};
ghost use Rattle.shop_core.specs.Drawings.{is_itf14, text_of};

use crate::article::{Article, Texts};
use crate::fault::LabelFault;
use crate::part::Field;
use crate::under::under_bars;
use sheet_core::Label;

/// Whether a label is an ITF-14.
fn is_itf14(label: &Label) -> bool
    ensures { result ≡ is_itf14 label.now }
{
    match label {
        Label::Itf14(_) => true,
        _ => false,
    }
}

impl<'a> Article<'a> {
    /// The article with this label and these texts. An ITF-14 has bearer bars if the caller asks for them.
    pub fn new(label: Label, texts: Texts<'a>, has_bearers: bool) -> Result<Article<'a>, LabelFault>
        ensures label { IfOk result (λ article. article.label ≡ label) }
        ensures texts { IfOk result (λ article. article.texts ≡ texts.entry) }
        ensures bearers { IfOk result (λ article. article.has_bearers ≡ (has_bearers && is_itf14 label)) }
        ensures none { IfErr result (λ fault. (s : Drawn) → IsDrawn label s → ⊥) }
    {
        let Some(symbol) = label.symbol() else {
            return Err(LabelFault::NoSymbol);
        };
        let digits = under_bars(&label);
        let has_bearers = has_bearers && is_itf14(&label);
        Ok(Article {
            label,
            symbol,
            digits,
            texts,
            has_bearers,
        })
    }

    /// The text of a field.
    pub fn text(&self, field: Field) -> &[u32]
        ensures { result.now ≡ text_of self.now field }
    {
        match field {
            Field::Name => self.texts.name,
            Field::Price => self.texts.price,
            Field::OldPrice => self.texts.old_price,
            Field::UnitPrice => self.texts.unit_price,
            Field::Deposit => self.texts.deposit,
            Field::BestBefore => self.texts.best_before,
            Field::Batch => self.texts.batch,
            Field::Lines => self.texts.lines,
            Field::Digits => self.digits.as_slice(),
        }
    }
}
